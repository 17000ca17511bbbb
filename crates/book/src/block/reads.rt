ghost use Rattle.std.specs.Prelude.{◌≡◌};
ghost use Rattle.tables.specs.Makes.{answer};
ghost use Rattle.book.specs.Reads.{block_read, parted_answer, read_answer};

use super::{Block, Entries};
use crate::sums::{BlockBytes, is_checked};
use crate::zeros::is_zero;
use tables::Refusal;

// Takes a block apart: `Kind` where the kind is unknown or a fixed zero is not 0.
fn parted<'a>(block: &'a BlockBytes) -> Result<Block<'a>, Refusal>
    ensures { answer block_read result ≡ parted_answer block.now }
{
    let [kind, frame, z0, z1, z2, z3, z4, z5, rest @ ..] = block.as_slice() else {
        unreachable!()
    };
    let (most, rest) = rest.split_first_chunk::<192>().unwrap();
    let (least, rest) = rest.split_first_chunk::<192>().unwrap();
    if !is_zero(&[*z0, *z1, *z2, *z3, *z4, *z5]) || !is_zero(&rest[0..116]) {
        return Err(Refusal::Kind);
    }
    let entries = Entries {
        frame: *frame,
        most,
        least,
    };
    // An enum of kinds, made of the byte, would name each case of `Block` a second time.
    match *kind {
        1 => Ok(Block::Events(entries)),
        2 => Ok(Block::Service(entries)),
        3 => Ok(Block::Shaping(entries)),
        _ => Err(Refusal::Kind),
    }
}

impl<'a> Block<'a> {
    /// Reads a block of 512 bytes: `Length` where there are more or fewer, `Check` where the sums differ,
    /// `Kind` where the kind is unknown or a fixed zero is not 0.
    pub fn read(block: &'a [u8]) -> Result<Block<'a>, Refusal>
        ensures { answer block_read result ≡ read_answer block.now }
    {
        let block = <&BlockBytes>::try_from(block).map_err(|_| Refusal::Length)?;
        if !is_checked(block) {
            return Err(Refusal::Check);
        }
        parted(block)
    }

    /// The byte that says how long the frame is.
    pub fn frame(&self) -> u8
        ensures { result ≡ (block_read self.now).frame }
    {
        match self {
            Block::Events(entries) | Block::Service(entries) | Block::Shaping(entries) =>
                entries.frame,
        }
    }
}
