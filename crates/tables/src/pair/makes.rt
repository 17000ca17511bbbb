ghost use Rattle.std.specs.Prelude.{◌≡◌, ◌≤◌, length as count_of};
ghost use Rattle.tables.specs.Curves.{given, nowhere_above};
ghost use Rattle.tables.specs.Limits.{longest};
ghost use Rattle.tables.specs.Makes.{answer, pair_answer};
ghost use Rattle.tables.specs.Tables.{curves};

use super::Pair;
use crate::Refusal;
use crate::range::every;
use crate::table::{Table, check_frame, count_at, is_lawful};

// Whether the least is nowhere above the most.
#[tactic(auto, unfolding(crate::specs::Curves::nowhere_above))]
fn is_under(most: &[u32], least: &[u32]) -> bool
    requires { count_of least.now ≡ count_of most.now }
    ensures { result ≡ nowhere_above (count_of most.now) (given most.now) (given least.now) }
{
    every(1, most.len(), |k| count_at(least, k) <= count_at(most, k))
}

impl Pair {
    /// The pair of the most and least counts at the lengths 1, 2 and on.
    pub fn new(most: &[u32], least: &[u32]) -> Result<Pair, Refusal>
        ensures { answer curves result ≡ pair_answer most.now least.now }
    {
        let frame = most.len();
        check_frame(frame)?;
        if least.len() != frame {
            return Err(Refusal::Frame);
        }
        if !is_lawful(most) || !is_lawful(least) || !is_under(most, least) {
            return Err(Refusal::Table);
        }
        Ok(Pair {
            most: Table::given(most),
            least: Table::given(least),
        })
    }
}
