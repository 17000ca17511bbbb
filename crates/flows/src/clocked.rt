// The clocked flow.
ghost use Rattle.std.specs.Prelude.{◌≡◌, ℕ, ◌+◌, ◌<◌, ◌≤◌, true, is_ok};
ghost use Rattle.tables.specs.Bottoms.{clocked_answer, up};
ghost use Rattle.tables.specs.Courses.{sum};
ghost use Rattle.tables.specs.Tables.{curves};
ghost use Rattle.courses.specs.Bottoms.{clocked};
ghost use Rattle.flows.specs.Checks.{or_closed, or_nothing, verdict};
ghost use Rattle.flows.specs.States.{clock};

use crate::bottom::{Bottom, Course};
use tables::{Refusal, clocked_pair};

/// By the end of tick t it has handed over (t + jitter) / period, rounded up.
#[derive(Clone, Copy)]
pub struct Clocked {
    period: u32,
    // What a beat brings: 1, and 0 where the flow is closed. It is handed over as it stands, so no flag is asked.
    beat: u32,
    // The ticks so far and the jitter, modulo the period.
    phase: u32,
    // The count of this tick.
    count: u32,
    ghost inside: { phase < period },
}

impl Clocked {
    /// `Frame` where the frame is not 1 to 64, `Clock` where the period is not 1 to 10,000 or the jitter is
    /// above 10,000.
    pub fn check(frame: usize, period: u32, jitter: u32) -> Result<(), Refusal>
        ensures { result ≡ verdict (clocked_answer frame period jitter) }
    {
        clocked_pair(frame, period, jitter)?;
        Ok(())
    }

    /// The flow with that period and jitter, closed where the check refuses.
    pub fn build(frame: usize, period: u32, jitter: u32) -> Bottom<Clocked>
        ensures pair { curves result.pair ≡ or_closed (clocked_answer frame period jitter) }
        ensures course { clock result.course.period result.course.beat result.course.phase result.course.count ≡ or_nothing (clocked_answer frame period jitter) (clocked period jitter) }
        ensures handed { is_ok (clocked_answer frame period jitter) ≡ true → (t : ℕ) → 1 ≤ t → sum (clock result.course.period result.course.beat result.course.phase result.course.count) t ≡ up period (t + jitter) }
    {
        let Ok(pair) = clocked_pair(frame, period, jitter) else {
            return Bottom::closed(Clocked {
                period: 1,
                beat: 0,
                phase: 0,
                count: 0,
            });
        };
        let course = Clocked {
            period,
            beat: 1,
            phase: jitter % period,
            count: (1 + jitter + (period - 1)) / period,
        };
        Bottom { course, pair }
    }
}

impl Course for Clocked {
    ghost counts = { λ s. clock s.period s.beat s.phase s.count };

    fn next(&mut self) -> u32 {
        let count = self.count;
        if self.phase + 1 < self.period {
            self.phase += 1;
            self.count = 0;
        } else {
            self.phase = 0;
            self.count = self.beat;
        }
        count
    }
}
