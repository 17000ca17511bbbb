ghost use Rattle.std.specs.Prelude.{refl};
ghost use Rattle.stages.specs.Shapers.{shaping_course, shaper_view, shaper_views, shaper_below};

use super::Shaper;
use crate::stage::{Counts, Stage};
use flows::{Flow, StageBounds};
use tables::Pair;

impl<E: Flow + Drop> Flow for Shaper<E> {
    ghost pair = { λ s. s.bounds.passed };

    ghost course = { shaping_course E.Flow };

    ghost views = { shaper_views E.Flow };

    ghost keeps = { λ s. s.fine.0.keeps };

    ghost viewed = { λ s. s.fine };

    fn pair(&self) -> &Pair {
        &self.bounds.passed
    }

    fn draw(&mut self) -> u32 {
        self.tick()
    }

    fn bounds(&self, place: usize) -> Result<StageBounds, usize> {
        // Three tests that each stage makes of its own fields; only looking below is shared.
        if place == 0 {
            return Ok(self.own_bounds());
        }
        if self.waiting.is_none() {
            return Err(place - 1);
        }
        self.events.bounds(place - 1)
    }
}

impl<E: Flow + Drop> Stage for Shaper<E> {
    ghost top = { shaper_view E.Flow };

    ghost below = { shaper_below E.Flow };

    ghost first = { λ _. refl };

    // The same counts in each stage, of its own tick.
    fn step(&mut self) -> Counts {
        let shaped = self.shape();
        Counts {
            arrived: shaped.arrived,
            passed: shaped.passed,
            waiting: self.held(),
        }
    }

    fn waiting(&self) -> u32 {
        self.held()
    }

    // Of the fields of this stage, and so in each.
    fn arriving(&self) -> u32 {
        match self.waiting {
            Some(_) => self.events.pair().most.first(),
            None => 0,
        }
    }

    fn figures(&self) -> StageBounds {
        self.own_bounds()
    }
}
