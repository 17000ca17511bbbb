ghost use Rattle.std.specs.Prelude.{refl};
ghost use Rattle.stages.specs.Servers.{passing, server_view, server_views, server_below};

use super::Server;
use crate::below::bounds_below;
use crate::stage::{Counts, Stage};
use flows::{Flow, StageBounds};
use tables::{Pair, StageKind};

impl<E: Flow + Drop, S: Flow + Drop> Flow for Server<E, S> {
    ghost pair = { λ s. s.bounds.passed };

    ghost course = { passing E.Flow S.Flow };

    ghost views = { server_views E.Flow S.Flow };

    ghost keeps = { λ s. s.fine.0.keeps };

    ghost viewed = { λ s. s.fine };

    fn pair(&self) -> &Pair {
        &self.bounds.passed
    }

    fn draw(&mut self) -> u32 {
        self.tick().0
    }

    fn bounds(&self, place: usize) -> Result<StageBounds, usize> {
        // Three tests that each stage makes of its own fields; only looking below is shared.
        if place == 0 {
            return Ok(self.own_bounds());
        }
        if self.waiting.is_none() {
            return Err(place - 1);
        }
        // The events' stages before the service's.
        bounds_below(&self.events, &self.service, place - 1)
    }
}

impl<E: Flow + Drop, S: Flow + Drop> Stage for Server<E, S> {
    ghost top = { server_view E.Flow S.Flow };

    ghost below = { server_below E.Flow S.Flow };

    ghost first = { λ _. refl };

    // The same counts in each stage, of its own tick.
    fn step(&mut self) -> Counts {
        let served = self.serve();
        Counts {
            arrived: served.arrived,
            passed: served.passed,
            waiting: self.held(),
        }
    }

    fn waiting(&self) -> u32 {
        self.held()
    }

    // Of the fields of this stage, and so in each.
    fn arriving(&self) -> u32 {
        match self.waiting {
            Some(_) => self.events.pair().most.first(),
            None => 0,
        }
    }

    fn figures(&self) -> StageBounds {
        self.own_bounds()
    }
}
