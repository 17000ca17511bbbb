ghost use Rattle.std.specs.Prelude.{◌≡◌, refl};
ghost use Rattle.stages.specs.JoinViews.{join_figures};
ghost use Rattle.stages.specs.Joins.{joining, join_view, join_below, join_views, JoinTicked};

use super::Join;
use crate::below::bounds_below;
use crate::stage::{Counts, Stage};
use flows::{Flow, StageBounds};
use tables::{Pair, StageKind};

impl<A: Flow + Drop, B: Flow + Drop> Join<A, B> {
    /// One tick: what the two flows handed over together.
    pub fn tick(&mut self) -> u32
        ensures { JoinTicked A.Flow B.Flow self.old self.new result }
    {
        if !self.is_open {
            return 0;
        }
        let left = self.left.draw();
        let right = self.right.draw();
        left + right
    }

    // What is printed: a join has a pair and nothing else.
    fn own_bounds(&self) -> StageBounds
        ensures { result ≡ join_figures self.now.pair }
    {
        StageBounds {
            kind: StageKind::Join,
            wait: 0,
            delay: 0,
            pair: self.pair,
            rest: None,
        }
    }
}

impl<A: Flow + Drop, B: Flow + Drop> Flow for Join<A, B> {
    ghost pair = { λ s. s.pair };

    ghost course = { joining A.Flow B.Flow };

    ghost views = { join_views A.Flow B.Flow };

    ghost keeps = { λ s. s.fine.0.keeps };

    ghost viewed = { λ s. s.fine };

    fn pair(&self) -> &Pair {
        &self.pair
    }

    fn draw(&mut self) -> u32 {
        self.tick()
    }

    fn bounds(&self, place: usize) -> Result<StageBounds, usize> {
        // Three tests that each stage makes of its own fields; only looking below is shared.
        if place == 0 {
            return Ok(self.own_bounds());
        }
        if !self.is_open {
            return Err(place - 1);
        }
        bounds_below(&self.left, &self.right, place - 1)
    }
}

impl<A: Flow + Drop, B: Flow + Drop> Stage for Join<A, B> {
    ghost top = { join_view A.Flow B.Flow };

    ghost below = { join_below A.Flow B.Flow };

    ghost first = { λ _. refl };

    fn step(&mut self) -> Counts {
        let count = self.tick();
        Counts {
            arrived: count,
            passed: count,
            waiting: 0,
        }
    }

    fn waiting(&self) -> u32 {
        0
    }

    fn arriving(&self) -> u32 {
        if self.is_open {
            self.pair.most.first()
        } else {
            0
        }
    }

    fn figures(&self) -> StageBounds {
        self.own_bounds()
    }
}
