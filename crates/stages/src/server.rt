// A server.
ghost use Rattle.std.specs.Prelude.{◌≤◌};
ghost use Rattle.tables.specs.Limits.{limit};
ghost use Rattle.flows.specs.Views.{All, Fine, all_fine_prop};
ghost use Rattle.stages.specs.ServerViews.{serving_views};

use flows::Flow;
use tables::ServerBounds;

mod builds;
mod reads;
mod runs;
mod ticks;

/// A server passes, in each tick, as many of the waiting and arriving events as its service has places. It
/// and the stages below it keep their bounds for ever.
#[derive(Drop)]
pub struct Server<E: Flow + Drop, S: Flow + Drop> {
    events: E,
    service: S,
    // What waits; None in a closed server.
    waiting: Option<u32>,
    bounds: ServerBounds,
    ghost small: { bounds.wait ≤ limit },
    ghost fine: { All Fine (serving_views E.Flow S.Flow waiting events service bounds) } by { all_fine_prop (serving_views E.Flow S.Flow waiting events service bounds) },
}
