ghost use Rattle.std.specs.Prelude.{◌≡◌, ℕ, None};
ghost use Rattle.tables.specs.Bounds.{shaping as shaping-of};
ghost use Rattle.courses.specs.Steps.{empty};
ghost use Rattle.flows.specs.Checks.{verdict};
ghost use Rattle.flows.specs.Views.{All, Idle};
ghost use Rattle.stages.specs.Shapers.{closed_shaping, shaper_fits, state, shaper_views, ShaperBuilt};

use super::Shaper;
use flows::Flow;
use tables::{Refusal, ShaperBounds, Table, shaper_bounds};

impl<E: Flow + Drop> Shaper<E> {
    // Two lines in each stage, since each asks the tables of its own flows in its own way.
    /// `Frame` where the frames differ, `Shape` where the shaping rule is broken, `Overload` where a frame
    /// brings more events than the table lets pass.
    pub fn check(events: &E, table: &Table) -> Result<(), Refusal>
        ensures { result ≡ verdict (shaper_fits E.Flow events.now table.now) }
    {
        shaper_bounds(events.pair(), table)?;
        Ok(())
    }

    // That nothing was drawn is asked here, since no type tells it.
    /// A shaper over a flow from which nothing was drawn; closed where the check refuses.
    pub fn build(events: E, table: Table) -> Shaper<E>
        requires { All Idle (E.Flow.views events) }
        ensures built { ShaperBuilt E.Flow events table result }
        ensures fresh { All Idle (shaper_views E.Flow result) }
    {
        let Ok(bounds) = shaper_bounds(events.pair(), &table) else {
            return Shaper::closed(events, table);
        };
        Shaper {
            events,
            shaping: table,
            waiting: Some(0),
            past: [0; 64],
            bounds,
        }
    }

    // A shaper that draws nothing and hands over nothing. Each stage says its own fields here.
    fn closed(events: E, table: Table) -> Shaper<E>
        ensures events { result.events ≡ events }
        ensures table { result.shaping ≡ table }
        ensures waiting { result.waiting ≡ None }
        ensures idle { state E.Flow result ≡ empty }
        ensures bounds { shaping-of result.bounds ≡ closed_shaping (E.Flow.pair events).most.frame }
        ensures fresh { All Idle (shaper_views E.Flow result) }
    {
        let passed = events.pair().zero_like();
        let bounds = ShaperBounds {
            wait: 0,
            delay: 0,
            passed,
        };
        Shaper {
            events,
            shaping: table,
            waiting: None,
            past: [0; 64],
            bounds,
        }
    }
}
