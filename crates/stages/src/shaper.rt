// A shaper.
ghost use Rattle.std.specs.Prelude.{◌≤◌};
ghost use Rattle.tables.specs.Limits.{limit};
ghost use Rattle.flows.specs.Views.{All, Fine, all_fine_prop};
ghost use Rattle.stages.specs.ShaperViews.{shaping_views};

use flows::Flow;
use tables::{ShaperBounds, Table};

mod builds;
mod memory;
mod reads;
mod runs;
mod ticks;

/// A shaper passes what waits and arrives as soon as its shaping table allows, looking back over the
/// frame. It remembers what it passed in the last ticks, the newest first. It and the stages below it keep
/// their bounds for ever.
#[derive(Drop)]
pub struct Shaper<E: Flow + Drop> {
    events: E,
    shaping: Table,
    // What waits; None in a closed shaper.
    waiting: Option<u32>,
    // As many counts as the longest frame, in fixed memory: building can't fail, and a tick needs no heap.
    past: [u32; 64],
    bounds: ShaperBounds,
    ghost small: { bounds.wait ≤ limit },
    ghost fine: { All Fine (shaping_views E.Flow waiting past events shaping bounds) } by { all_fine_prop (shaping_views E.Flow waiting past events shaping bounds) },
}
