// A join.
ghost use Rattle.flows.specs.Views.{All, Fine, all_fine_prop};
ghost use Rattle.stages.specs.JoinViews.{joining_views};

use flows::Flow;
use tables::Pair;

mod builds;
mod runs;

/// A join hands over, in each tick, what two flows hand over together. It and the stages below it keep their
/// bounds for ever.
#[derive(Drop)]
pub struct Join<A: Flow + Drop, B: Flow + Drop> {
    left: A,
    right: B,
    pair: Pair,
    // A closed join has a pair too, so the flag stands beside no value that is there only at times.
    is_open: bool,
    ghost fine: { All Fine (joining_views A.Flow B.Flow is_open left right pair) } by { all_fine_prop (joining_views A.Flow B.Flow is_open left right pair) },
}
