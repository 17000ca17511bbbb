ghost use Rattle.std.specs.Prelude.{◌≡◌, ℕ, List};
ghost use Rattle.stages.specs.Servers.{arrival, ServerTicked};

use super::Server;
use flows::{Flow, StageBounds};
use tables::{Pair, StageKind};

// What a tick of a server saw; a stage's `Counts` has no rest.
#[derive(Clone, Copy)]
pub struct Served {
    pub arrived: u32,
    pub passed: u32,
    pub rest: u32,
}

impl<E: Flow + Drop, S: Flow + Drop> Server<E, S> {
    // One tick, events first.
    pub(crate) fn serve(&mut self) -> Served
        ensures arrived { result.arrived ≡ arrival E.Flow S.Flow self.old 0 }
        ensures ticked { ServerTicked E.Flow S.Flow self.old self.new result.passed result.rest }
    {
        let Some(waiting) = self.waiting else {
            return Served {
                arrived: 0,
                passed: 0,
                rest: 0,
            };
        };
        let arrived = self.events.draw();
        let places = self.service.draw();
        let all = waiting + arrived;
        let passed = all.min(places);
        self.waiting = Some(all - passed);
        Served {
            arrived,
            passed,
            rest: places - passed,
        }
    }

    /// One tick: what it passed, and what it left of the service.
    pub fn tick(&mut self) -> (u32, u32)
        ensures { ServerTicked E.Flow S.Flow self.old self.new result.0 result.1 }
    {
        let served = self.serve();
        (served.passed, served.rest)
    }
}
