// The most and the least of a flow.
ghost use Rattle.std.specs.Prelude.{◌≡◌, ℕ, ◌≤◌, slice_index};

use crate::table::Table;

mod makes;
mod zero;

/// Two tables of one frame: the most and the fewest messages in any window. The least is nowhere above
/// the most.
#[derive(Clone, Copy)]
pub struct Pair {
    pub most: Table,
    pub least: Table,
    ghost same: { least.frame ≡ most.frame },
    ghost under: { (k : ℕ) → k ≤ most.frame → slice_index least.entries k ≤ slice_index most.entries k },
}
