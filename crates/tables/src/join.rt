// The sum of two flows.
ghost use Rattle.std.specs.Prelude.{◌≡◌, ℕ, ◌+◌, ◌≤◌};
ghost use Rattle.tables.specs.Bounds.{joined_pair, join_answer};
ghost use Rattle.tables.specs.Limits.{limit};
ghost use Rattle.tables.specs.Makes.{answer};
ghost use Rattle.tables.specs.Tables.{at, curves};

use crate::Refusal;
use crate::combine::sum_table;
use crate::pair::Pair;

fn sum_pair(a: &Pair, b: &Pair) -> Pair
    requires same { a.now.most.frame ≡ b.now.most.frame }
    requires fits { at a.now.most a.now.most.frame + at b.now.most a.now.most.frame ≤ limit }
    ensures { curves result ≡ joined_pair (curves a.now) (curves b.now) }
{
    Pair {
        most: sum_table(&a.most, &b.most),
        least: sum_table(&a.least, &b.least),
    }
}

/// The pair of two flows together: `Frame` where the frames differ, `Crowd` where the sum at the frame is
/// above the limit.
pub fn joined(a: &Pair, b: &Pair) -> Result<Pair, Refusal>
    ensures { answer curves result ≡ join_answer (curves a.now) (curves b.now) }
{
    let frame = a.most.frame();
    if frame != b.most.frame() {
        return Err(Refusal::Frame);
    }
    if a.most.near(frame) + b.most.near(frame) > 1_000_000 {
        return Err(Refusal::Crowd);
    }
    Ok(sum_pair(a, b))
}
