// The slotted flow.
ghost use Rattle.std.specs.Prelude.{◌≡◌, ℕ, ◌<◌, ◌≤◌, length, slice_index};
ghost use Rattle.tables.specs.Bottoms.{slotted_answer};
ghost use Rattle.tables.specs.Courses.{slotted, recorded};
ghost use Rattle.tables.specs.Limits.{longest};
ghost use Rattle.tables.specs.Tables.{curves};
ghost use Rattle.flows.specs.Checks.{or_closed, or_nothing, verdict};
ghost use Rattle.flows.specs.States.{turning};

use crate::bottom::{Bottom, Course};
use tables::{Refusal, slotted_pair};

/// The counts of a list in turn, for ever.
#[derive(Clone, Copy)]
pub struct Slotted {
    // An array and a count, since a flow can be copied and needs no heap.
    counts: [u32; 64],
    // How many counts there are.
    frame: usize,
    // The place of the count of this tick.
    place: usize,
    ghost few: { frame ≤ longest },
    ghost inside: { place < frame },
}

// The counts at the front of an array.
fn laid_out(counts: &[u32]) -> [u32; 64]
    requires { length counts.now ≤ longest }
    ensures { (k : ℕ) → k < length counts.now → slice_index result k ≡ slice_index counts.now k }
{
    let mut all = [0; 64];
    all[..counts.len()].copy_from_slice(counts);
    all
}

impl Slotted {
    /// `Frame` where there are not 1 to 64 counts, `Table` where they add up to more than the limit.
    pub fn check(counts: &[u32]) -> Result<(), Refusal>
        ensures { result ≡ verdict (slotted_answer counts.now) }
    {
        slotted_pair(counts)?;
        Ok(())
    }

    /// The flow with these counts, closed where the check refuses.
    pub fn build(counts: &[u32]) -> Bottom<Slotted>
        ensures pair { curves result.pair ≡ or_closed (slotted_answer counts.now) }
        ensures course { turning result.course.frame result.course.counts result.course.place ≡ or_nothing (slotted_answer counts.now) (slotted (length counts.now) (recorded counts.now)) }
    {
        let Ok(pair) = slotted_pair(counts) else {
            return Bottom::closed(Slotted {
                counts: [0; 64],
                frame: 1,
                place: 0,
            });
        };
        let course = Slotted {
            counts: laid_out(counts),
            frame: counts.len(),
            place: 0,
        };
        Bottom { course, pair }
    }
}

impl Course for Slotted {
    ghost counts = { λ s. turning s.frame s.counts s.place };

    fn next(&mut self) -> u32 {
        let count = self.counts[self.place];
        if self.place + 1 < self.frame {
            self.place += 1;
        } else {
            self.place = 0;
        }
        count
    }
}
