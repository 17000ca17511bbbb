ghost use Rattle.std.specs.Prelude.{◌≡◌, ◌≤◌, cond, OnOk, length as count_of};
ghost use Rattle.tables.specs.Curves.{Graph, given, lawful};
ghost use Rattle.tables.specs.Limits.{longest};
ghost use Rattle.tables.specs.Makes.{answer, framed, table_answer};
ghost use Rattle.tables.specs.Tables.{Shows, curve};

use super::Table;
use crate::Refusal;
use crate::range::every;

// `Frame` where a frame is not 1 to 64.
pub fn check_frame(frame: usize) -> Result<(), Refusal>
    ensures value { result ≡ cond (framed frame) (Ok tt) (Err Refusal.Frame) }
    ensures within { OnOk result ((1 ≤ frame) × (frame ≤ longest)) }
{
    if frame < 1 || frame > 64 {
        return Err(Refusal::Frame);
    }
    Ok(())
}

// The count at a length, of the counts from length 1 on.
pub fn count_at(counts: &[u32], length: usize) -> u32
    requires { length ≤ count_of counts.now }
    ensures { result ≡ given counts.now length }
{
    if length == 0 { 0 } else { counts[length - 1] }
}

// Whether no count is smaller than the one before it or above the limit.
#[tactic(auto, unfolding(crate::specs::Curves::lawful))]
pub fn is_lawful(counts: &[u32]) -> bool
    ensures { result ≡ lawful (count_of counts.now) (given counts.now) }
{
    every(1, counts.len(), |k| {
        let count = count_at(counts, k);
        count_at(counts, k - 1) <= count && count <= 1_000_000
    })
}

impl Table {
    /// The table of the counts at the lengths 1, 2 and on.
    pub fn new(counts: &[u32]) -> Result<Table, Refusal>
        ensures { answer curve result ≡ table_answer counts.now }
    {
        check_frame(counts.len())?;
        if !is_lawful(counts) {
            return Err(Refusal::Table);
        }
        Ok(Table::given(counts))
    }

    // The same, of counts that are known to be lawful.
    pub(crate) fn given(counts: &[u32]) -> Table
        requires { Graph (count_of counts.now) (given counts.now) }
        ensures { Shows result (count_of counts.now) (given counts.now) }
    {
        Table::of(counts.len(), |length| count_at(counts, length))
    }
}
