ghost use Rattle.std.specs.Prelude.{◌≡◌, ℕ};
ghost use Rattle.stages.specs.Shapers.{shaper_arrival, ShaperTicked};

use super::Shaper;
use super::memory::{put_first, room};
use flows::Flow;

// What a tick of a shaper saw; what waits after it is read of the shaper.
#[derive(Clone, Copy)]
pub struct Shaped {
    pub arrived: u32,
    pub passed: u32,
}

impl<E: Flow + Drop> Shaper<E> {
    pub(crate) fn shape(&mut self) -> Shaped
        ensures arrived { result.arrived ≡ shaper_arrival E.Flow self.old 0 }
        ensures ticked { ShaperTicked E.Flow self.old self.new result.passed }
    {
        let Some(waiting) = self.waiting else {
            return Shaped {
                arrived: 0,
                passed: 0,
            };
        };
        let arrived = self.events.draw();
        let all = waiting + arrived;
        let allowed = room(self.shaping.entries(), &self.past);
        let passed = allowed.min(u64::from(all)) as u32;
        self.waiting = Some(all - passed);
        put_first(&mut self.past, passed);
        Shaped { arrived, passed }
    }

    /// One tick: what it passed.
    pub fn tick(&mut self) -> u32
        ensures { ShaperTicked E.Flow self.old self.new result }
    {
        self.shape().passed
    }
}
