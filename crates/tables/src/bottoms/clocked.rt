ghost use Rattle.std.specs.Prelude.{◌≡◌, ◌≤◌};
ghost use Rattle.tables.specs.Bottoms.{clocked_most, clocked_least, clocked_answer};
ghost use Rattle.tables.specs.Limits.{longest, longest_period, longest_jitter};
ghost use Rattle.tables.specs.Makes.{answer};
ghost use Rattle.tables.specs.Tables.{curves};

use crate::Refusal;
use crate::pair::Pair;
use crate::table::{Table, check_frame};

// The most of a clock: (length + jitter) / period, rounded up.
fn most_at(period: u32, jitter: u32, length: usize) -> u32
    requires ticks { 1 ≤ period }
    requires often { period ≤ longest_period }
    requires near { jitter ≤ longest_jitter }
    requires few { length ≤ longest }
    ensures { result ≡ clocked_most period jitter length }
{
    if length == 0 {
        0
    } else {
        (length as u32 + jitter).div_ceil(period)
    }
}

/// The pair of a clock: `Frame` where the frame is not 1 to 64, `Clock` where the period is not 1 to 10,000
/// or the jitter is above 10,000.
pub fn clocked_pair(frame: usize, period: u32, jitter: u32) -> Result<Pair, Refusal>
    ensures { answer curves result ≡ clocked_answer frame period jitter }
{
    check_frame(frame)?;
    if period < 1 || period > 10_000 || jitter > 10_000 {
        return Err(Refusal::Clock);
    }
    Ok(Pair {
        most: Table::of(frame, |length| most_at(period, jitter, length)),
        least: Table::of(
            frame,
            |length| (length as u32).saturating_sub(jitter) / period,
        ),
    })
}
