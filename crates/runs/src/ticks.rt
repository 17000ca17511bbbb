ghost use Rattle.std.specs.Prelude.{◌≡◌, ℕ, ◌<◌, nat_lt};
ghost use Rattle.runs.specs.Runs.{lists, places, Ticked, Went};

use crate::log::Log;
use crate::states::Running;
use stages::{Counts, Stage};
use tables::Refusal;

impl<P: Stage + Drop> Running<P> {
    // Whether the log has a place for one tick more.
    pub(crate) fn has_place(&self, log: &Log) -> bool
        ensures { result ≡ nat_lt self.now.ticks (places (lists log.now)) }
    {
        if self.ticks == u32::MAX {
            return false;
        }
        let ticks = self.ticks as usize;
        ticks
            < log
                .arrived
                .len()
                .min(log.passed.len().min(log.waiting.len()))
    }

    // A tick for which the log has a place.
    pub(crate) fn take_tick(&mut self, log: &mut Log) -> Counts
        requires { self.old.ticks < places (lists log.old) }
        ensures { Went P.Flow P.Stage.own self.old (lists log.old) self.new (lists log.new) result }
    {
        let at = self.ticks as usize;
        let counts = self.network.step();
        log.arrived[at] = counts.arrived;
        log.passed[at] = counts.passed;
        log.waiting[at] = counts.waiting;
        self.ticks += 1;
        self.arrived += u64::from(counts.arrived);
        self.passed += u64::from(counts.passed);
        self.greatest = self.greatest.max(counts.waiting);
        counts
    }

    /// One tick, written to the next place of the log: `Log` where the shortest list is used up.
    pub fn tick(&mut self, log: &mut Log) -> Result<Counts, Refusal>
        ensures { Ticked P.Flow P.Stage.own self.old (lists log.old) self.new (lists log.new) result }
    {
        if !self.has_place(log) {
            return Err(Refusal::Log);
        }
        Ok(self.take_tick(log))
    }
}
