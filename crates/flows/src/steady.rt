// The steady flow.
ghost use Rattle.std.specs.Prelude.{◌≡◌};
ghost use Rattle.tables.specs.Bottoms.{steady_answer};
ghost use Rattle.tables.specs.Tables.{curves};
ghost use Rattle.courses.specs.Bottoms.{steady};
ghost use Rattle.flows.specs.Checks.{or_closed, or_nothing, verdict};

use crate::bottom::{Bottom, Course};
use tables::{Refusal, steady_pair};

/// The same count in each tick.
#[derive(Clone, Copy)]
pub struct Steady {
    count: u32,
}

impl Steady {
    /// `Frame` where the frame is not 1 to 64, `Table` where a frame brings more than the limit.
    pub fn check(frame: usize, count: u32) -> Result<(), Refusal>
        ensures { result ≡ verdict (steady_answer frame count) }
    {
        steady_pair(frame, count)?;
        Ok(())
    }

    /// The flow with that count in each tick, closed where the check refuses.
    pub fn build(frame: usize, count: u32) -> Bottom<Steady>
        ensures pair { curves result.pair ≡ or_closed (steady_answer frame count) }
        ensures course { steady result.course.count ≡ or_nothing (steady_answer frame count) (steady count) }
    {
        let Ok(pair) = steady_pair(frame, count) else {
            return Bottom::closed(Steady { count: 0 });
        };
        let course = Steady { count };
        Bottom { course, pair }
    }
}

impl Course for Steady {
    ghost counts = { λ s. steady s.count };

    fn next(&mut self) -> u32 {
        self.count
    }
}
