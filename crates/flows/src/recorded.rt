// The recorded flow.
ghost use Rattle.std.specs.Prelude.{◌≡◌};
ghost use Rattle.tables.specs.Courses.{later, recorded};
ghost use Rattle.tables.specs.Makes.{answer};
ghost use Rattle.tables.specs.Tables.{curve, curves};
ghost use Rattle.flows.specs.Checks.{or_closed, or_nothing, recorded_answer, verdict};

use crate::bottom::{Bottom, Course};
use tables::{Pair, Refusal, Table, keeps_most};

/// The counts of a list in order, and then nothing.
#[derive(Clone, Copy)]
pub struct Recorded<'a> {
    list: &'a [u32],
    // The place of the count of this tick.
    place: usize,
}

// The pair of a list under a most table.
fn recorded_pair(list: &[u32], most: &Table) -> Result<Pair, Refusal>
    ensures { answer curves result ≡ recorded_answer (curve most.now) list.now }
{
    if keeps_most(list, most) {
        Ok(Pair::capped(most))
    } else {
        Err(Refusal::Promise)
    }
}

impl<'a> Recorded<'a> {
    /// `Promise` where some window of the list breaks the most table.
    pub fn check(list: &[u32], most: &Table) -> Result<(), Refusal>
        ensures { result ≡ verdict (recorded_answer (curve most.now) list.now) }
    {
        recorded_pair(list, most)?;
        Ok(())
    }

    /// The flow with this list and most table and nothing at the least, closed where the check refuses.
    pub fn build(list: &'a [u32], most: &Table) -> Bottom<Recorded<'a>>
        ensures pair { curves result.pair ≡ or_closed (recorded_answer (curve most.now) list.now) }
        ensures course { later result.course.place (recorded result.course.list.now) ≡ or_nothing (recorded_answer (curve most.now) list.now) (recorded list.now) }
    {
        let Ok(pair) = recorded_pair(list, most) else {
            return Bottom::closed(Recorded {
                list,
                place: list.len(),
            });
        };
        let course = Recorded { list, place: 0 };
        Bottom { course, pair }
    }
}

impl<'a> Course for Recorded<'a> {
    ghost counts = { λ s. later s.place (recorded s.list.now) };

    fn next(&mut self) -> u32 {
        let Some(&count) = self.list.get(self.place) else {
            return 0;
        };
        self.place += 1;
        count
    }
}
