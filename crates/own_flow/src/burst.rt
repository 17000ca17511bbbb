// A flow that brings one burst.
ghost use Rattle.std.specs.Prelude.{◌≡◌, []};
ghost use Rattle.tables.specs.Tables.{curves, paired};
ghost use Rattle.flows.specs.Checks.{or_closed, or_nothing};
ghost use Rattle.flows.specs.Views.{KeepsPair};
ghost use Rattle.own_flow.specs.Bursts.{burst, burst_answer};

use flows::{Flow, StageBounds};
use tables::Pair;

// `Flow` by hand, to show all that it asks of a type of one's own: as a `Course` of a `Bottom`, only `draw` would
// be left to write.
/// A burst in the first tick, and nothing after it.
#[derive(Clone, Copy)]
pub struct Burst {
    // What this tick brings.
    count: u32,
    pair: Pair,
    // Its course keeps its pair.
    ghost keeps: { KeepsPair pair (burst count) },
}

impl Burst {
    /// A burst of that many, which a window of any length may hold whole: a pair of frame 4. Closed where
    /// the count is above the limit of a table.
    pub fn build(count: u32) -> Burst
        ensures pair { curves result.pair ≡ or_closed (burst_answer count) }
        ensures course { burst result.count ≡ or_nothing (burst_answer count) (burst count) }
    {
        let Ok(pair) = Pair::new(&[count; 4], &[0; 4]) else {
            return Burst::closed();
        };
        Burst { count, pair }
    }

    // A flow that hands over nothing.
    fn closed() -> Burst
        ensures pair { curves result.pair ≡ paired 1 (λ _. 0) (λ _. 0) }
        ensures course { result.count ≡ 0 }
    {
        Burst {
            count: 0,
            pair: Pair::zero(),
        }
    }
}

impl Flow for Burst {
    ghost pair = { λ s. s.pair };

    ghost course = { λ s. burst s.count };

    // No stage stands below it.
    ghost views = { λ _. [] };

    ghost keeps = { λ s. s.keeps };

    ghost viewed = { λ _. tt };

    fn pair(&self) -> &Pair {
        &self.pair
    }

    fn draw(&mut self) -> u32 {
        let count = self.count;
        self.count = 0;
        count
    }

    fn bounds(&self, place: usize) -> Result<StageBounds, usize> {
        Err(place)
    }
}
