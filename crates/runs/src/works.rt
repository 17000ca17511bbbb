// Working through lists of calls.
ghost use Rattle.std.specs.Prelude.{◌≡◌, ℕ, ◌+◌, ◌<◌, ◌≤◌, [], length, take};
ghost use Rattle.flows.specs.Views.{All, Idle};
ghost use Rattle.runs.specs.Calls.{desk, nothing, Called, Through};
ghost use Rattle.runs.specs.Held.{holds};
ghost use Rattle.runs.specs.Runs.{started, cabinet, Kept};

use crate::calls::{Call, Done, Worked};
use crate::log::Log;
use crate::slots::Ring;
use crate::states::{Fitted, Running};
use stages::Stage;

impl<P: Stage + Drop> Running<P> {
    // The next call of a list. What a carry takes stays apart: put into one struct it would be taken out again
    // for each call.
    fn obey<M: Copy>(
        &mut self,
        log: &mut Log,
        ring: &mut Ring<M>,
        call: Call,
        input: &[M],
        out: &mut [M],
        done: Done,
    ) -> Done
        requires few { done.refused < 18446744073709551615 }
        requires taken { done.taken ≤ length input.now }
        requires given { done.given ≤ length out.old }
        ensures called { Called P.Flow P.Stage.own input.now call (desk self.old log.old ring.old out.old done) (desk self.new log.new ring.new out.new result) }
        ensures few { result.refused ≤ done.refused + 1 }
        ensures taken { result.taken ≤ length input.now }
        ensures given { result.given ≤ length out.old }
    {
        let refused = Done {
            refused: done.refused + 1,
            ..done
        };
        match call {
            Call::Tick => match self.tick(log) {
                Ok(_) => done,
                Err(_) => refused,
            },
            Call::Carry { offered, space } => {
                let (taken, given) = (done.taken, done.given);
                let last = taken + offered.min(input.len() - taken);
                let end = given + space.min(out.len() - given);
                match self.carry(log, ring, &input[taken..last], &mut out[given..end]) {
                    Ok(counts) => Done {
                        taken: taken + counts.arrived as usize,
                        given: given + counts.passed as usize,
                        ..done
                    },
                    Err(_) => refused,
                }
            }
        }
    }

    // A list of calls, one after the other.
    fn work<M: Copy>(
        &mut self,
        log: &mut Log,
        ring: &mut Ring<M>,
        calls: &[Call],
        input: &[M],
        out: &mut [M],
    ) -> Done
        ensures { Through P.Flow P.Stage.own input.now (desk self.old log.old ring.old out.old nothing) calls.now (desk self.new log.new ring.new out.new result) }
    {
        let mut done = Done {
            taken: 0,
            given: 0,
            refused: 0,
        };
        for &call in calls {
            done = self.obey(log, ring, call, input, out, done);
        }
        done
    }
}

impl<P: Stage + Drop> Fitted<P> {
    /// Power-on, and a list of calls from there on, one after the other: what came of it keeps what is
    /// promised of every run.
    pub fn work<M: Copy>(
        self,
        log: &mut Log,
        ring: &mut Ring<M>,
        calls: &[Call],
        input: &[M],
        out: &mut [M],
    ) -> Worked<P>
        ensures through { Through P.Flow P.Stage.own input.now (desk (started self.network) log.old ring.old out.old nothing) calls.now (desk result.running log.new ring.new out.new result.done) }
        ensures kept { holds ring.old ≡ [] → Kept P.Flow P.Stage.own (cabinet (started self.network) log.old ring.old) (take result.done.taken input.now) (take result.done.given out.new) (cabinet result.running log.new ring.new) }
        ensures taken { result.done.taken ≤ length input.now }
        ensures given { result.done.given ≤ length out.new }
        ensures arrived { length log.new.arrived.now ≡ length log.old.arrived.now }
        ensures passed { length log.new.passed.now ≡ length log.old.passed.now }
        ensures waiting { length log.new.waiting.now ≡ length log.old.waiting.now }
    {
        let mut running = self.start(ring);
        let done = running.work(log, ring, calls, input, out);
        Worked { running, done }
    }
}
