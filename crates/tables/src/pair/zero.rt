ghost use Rattle.std.specs.Prelude.{◌≡◌, ◌≤◌};
ghost use Rattle.tables.specs.Limits.{longest};
ghost use Rattle.tables.specs.Tables.{curve, curves, paired, capped};

use super::Pair;
use crate::table::Table;

// The pair with 0 at every length of the frame.
fn zero_of(frame: usize) -> Pair
    requires some { 1 ≤ frame }
    requires few { frame ≤ longest }
    ensures { curves result ≡ paired frame (λ _. 0) (λ _. 0) }
{
    let zero = Table::of(frame, |_| 0);
    Pair {
        most: zero,
        least: zero,
    }
}

impl Pair {
    /// The pair of a flow that hands over nothing.
    pub fn zero() -> Pair
        ensures { curves result ≡ paired 1 (λ _. 0) (λ _. 0) }
    {
        zero_of(1)
    }

    /// The same of this pair's frame.
    pub fn zero_like(&self) -> Pair
        ensures { curves result ≡ paired self.now.most.frame (λ _. 0) (λ _. 0) }
    {
        zero_of(self.most.frame())
    }

    /// The pair with this most, and nothing at the least.
    pub fn capped(most: &Table) -> Pair
        ensures { curves result ≡ capped (curve most.now) }
    {
        Pair {
            most: *most,
            least: Table::of(most.frame(), |_| 0),
        }
    }
}
