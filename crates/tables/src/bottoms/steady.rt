ghost use Rattle.std.specs.Prelude.{◌≡◌, ◌≤◌};
ghost use Rattle.tables.specs.Bottoms.{line, steady_answer};
ghost use Rattle.tables.specs.Limits.{limit};
ghost use Rattle.tables.specs.Makes.{answer};
ghost use Rattle.tables.specs.Tables.{curves};

use crate::Refusal;
use crate::pair::Pair;
use crate::table::{Table, check_frame};

/// The pair of a flow with the same count in every tick: `Frame` where the frame is not 1 to 64, `Table`
/// where a frame brings more than the limit.
pub fn steady_pair(frame: usize, count: u32) -> Result<Pair, Refusal>
    ensures { answer curves result ≡ steady_answer frame count }
{
    check_frame(frame)?;
    if u64::from(count) * frame as u64 > 1_000_000 {
        return Err(Refusal::Table);
    }
    let table = Table::of(frame, |length| count * length as u32);
    Ok(Pair {
        most: table,
        least: table,
    })
}
