ghost use Rattle.std.specs.Prelude.{◌≡◌, ℕ, ◌<◌, ◌≤◌, cond};
ghost use Rattle.tables.specs.Makes.{answer, framed};
ghost use Rattle.tables.specs.Tables.{curve, curves};
ghost use Rattle.book.specs.Chains.{block_pair, block_table, padded};
ghost use Rattle.book.specs.Layout.{entries, entry_at};
ghost use Rattle.book.specs.Reads.{read_as};

use super::Entries;
use crate::zeros::is_zero;
use std::array;
use tables::{Pair, Refusal, Table};

// Entry k, from 0 on: three bytes, high byte first.
fn decoded_at(bytes: &[u8; 192], k: usize) -> u32
    requires { k < 64 }
    ensures { result ≡ entry_at bytes.now k }
{
    let at = 3 * k;
    u32::from_be_bytes([0, bytes[at], bytes[at + 1], bytes[at + 2]])
}

// All 64 entries.
fn decoded(bytes: &[u8; 192]) -> [u32; 64]
    ensures { result ≡ entries bytes.now }
{
    array::from_fn(|k| decoded_at(bytes, k))
}

// `Table` where an entry past the frame is not 0.
fn check_padded(bytes: &[u8; 192], frame: usize) -> Result<(), Refusal>
    requires { frame ≤ 64 }
    ensures { result ≡ cond (padded frame bytes.now) (Ok tt) (Err Refusal.Table) }
{
    if is_zero(&bytes[3 * frame..]) {
        Ok(())
    } else {
        Err(Refusal::Table)
    }
}

impl Entries<'_> {
    // The frame as a length: `Frame` where it is not 1 to 64.
    fn length(&self) -> Result<usize, Refusal>
        ensures { result ≡ cond (framed self.now.frame) (Ok self.now.frame) (Err Refusal.Frame) }
    {
        match self.frame {
            1..=64 => Ok(usize::from(self.frame)),
            _ => Err(Refusal::Frame),
        }
    }

    /// The pair of the entries: `Frame` where the frame is not 1 to 64, `Table` where a rule of tables or
    /// pairs is broken or an entry past the frame is not 0.
    pub fn pair(&self) -> Result<Pair, Refusal>
        ensures { answer curves result ≡ block_pair (read_as 1 self.now) }
    {
        let frame = self.length()?;
        check_padded(self.most, frame)?;
        check_padded(self.least, frame)?;
        Pair::new(&decoded(self.most)[..frame], &decoded(self.least)[..frame])
    }

    /// The shaping table of the entries, whose least is all 0; refused as a pair is.
    pub fn table(&self) -> Result<Table, Refusal>
        ensures { answer curve result ≡ block_table (read_as 3 self.now) }
    {
        let frame = self.length()?;
        check_padded(self.most, frame)?;
        check_padded(self.least, 0)?;
        Table::new(&decoded(self.most)[..frame])
    }
}
