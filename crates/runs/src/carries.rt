ghost use Rattle.std.specs.Prelude.{◌≡◌, ℕ};
ghost use Rattle.std.specs.Result.{result_err};
ghost use Rattle.runs.specs.Held.{holds, room};
ghost use Rattle.runs.specs.Runs.{lists, refusal_of_carry, Carried};

use crate::log::Log;
use crate::slots::Ring;
use crate::states::Running;
use stages::{Counts, Stage};
use tables::Refusal;

impl<P: Stage + Drop> Running<P> {
    // Whether a carry may be taken now.
    fn may_carry<M: Copy>(
        &self,
        log: &Log,
        ring: &Ring<M>,
        input: &[M],
        out: &[M],
    ) -> Result<(), Refusal>
        ensures { result_err result ≡ refusal_of_carry P.Flow P.Stage.own (record { run = self.now; log = lists log.now; held = holds ring.now; slots = room ring.now }) input.now out.now }
    {
        if !self.has_place(log) {
            return Err(Refusal::Log);
        }
        let bounds = self.network.figures();
        if input.len() < self.network.arriving() as usize {
            return Err(Refusal::List);
        }
        if out.len() < bounds.pair.most.first() as usize {
            return Err(Refusal::List);
        }
        if ring.slots() < bounds.wait as usize {
            return Err(Refusal::Ring);
        }
        if ring.len() != self.network.waiting() as usize {
            return Err(Refusal::Step);
        }
        Ok(())
    }

    // What a carry takes is named by the rules one by one, so it stays so here.
    /// One tick that carries messages: the first of the in-list that arrive go in, the first places of the
    /// out-list that pass are written, what the ring holds first, and the remainder stays in the ring.
    pub fn carry<M: Copy>(
        &mut self,
        log: &mut Log,
        ring: &mut Ring<M>,
        input: &[M],
        out: &mut [M],
    ) -> Result<Counts, Refusal>
        ensures { Carried P.Flow P.Stage.own (record { run = self.old; log = lists log.old; held = holds ring.old; slots = room ring.old }) (record { run = self.new; log = lists log.new; held = holds ring.new; slots = room ring.new }) input.now out.old out.new result }
    {
        self.may_carry(log, ring, input, out)?;
        let counts = self.take_tick(log);
        ring.carry(input, counts.arrived as usize, out, counts.passed as usize);
        Ok(counts)
    }
}
