// Networks at work.
ghost use Rattle.std.specs.Prelude.{◌≡◌, ◌≤◌, length, take, IfOk};
ghost use Rattle.flows.specs.Views.{All, Idle};

use crate::delays::{longest, ticks_of};
use crate::sheets::LONG;
use runs::{Call, Fitted, Log, Ring};
use stages::Stage;
use std::alloc::{AllocError, Global};

// The ticks that are run with messages.
pub(crate) const TICKS: usize = 320;

// The most that waited at a stage, and the longest that a message stayed there.
#[derive(Clone, Copy)]
pub(crate) struct Seen {
    pub wait: u32,
    pub delay: usize,
}

// What came of a run: the most that waited at the top stage, the messages that came out, and the calls that
// were refused.
#[derive(Clone, Copy)]
pub(crate) struct Carried {
    pub wait: u32,
    pub out: usize,
    pub refused: usize,
}

// Here too that nothing was drawn yet is asked, since no type tells it.
// A run of a list of calls from power-on: what comes out is the first of what goes in, in order.
fn run<P: Stage + Drop, M: Copy>(
    network: P,
    log: &mut Log,
    slots: &mut [M],
    calls: &[Call],
    input: &[M],
    out: &mut [M],
) -> Carried
    requires { All Idle (P.Flow.views network) }
    ensures wait { result.wait ≤ (P.Stage.top network).bounds.wait }
    ensures order { take result.out out.new ≡ take result.out input.now }
    ensures few { result.out ≤ length out.new }
{
    let mut ring = Ring::new(slots);
    let worked = Fitted::new(network).work(log, &mut ring, calls, input, out);
    let sums = worked.running.report().sums();
    Carried {
        wait: sums.greatest,
        out: worked.done.given,
        refused: worked.done.refused,
    }
}

// A run without messages, and what was seen at the top stage.
pub(crate) fn watch<P: Stage + Drop>(
    heap: Global,
    network: P,
    log: &mut Log,
) -> Result<Seen, AllocError>
    requires { All Idle (P.Flow.views network) }
    ensures { IfOk result (λ s. s.wait ≤ (P.Stage.top network).bounds.wait) }
{
    let ran = run::<P, u32>(network, log, &mut [], &[Call::Tick; LONG], &[], &mut []);
    let ins = ticks_of(heap, log.arrived)?;
    let outs = ticks_of(heap, log.passed)?;
    Ok(Seen {
        wait: ran.wait,
        delay: longest(&ins, &outs),
    })
}

// A run with messages: what comes out is the first of what goes in, in order.
pub(crate) fn carry_all<P: Stage + Drop, M: Copy>(
    network: P,
    log: &mut Log,
    slots: &mut [M],
    input: &[M],
    out: &mut [M],
) -> Carried
    requires { All Idle (P.Flow.views network) }
    ensures wait { result.wait ≤ (P.Stage.top network).bounds.wait }
    ensures order { take result.out out.new ≡ take result.out input.now }
    ensures few { result.out ≤ length out.new }
{
    let call = Call::Carry {
        offered: input.len(),
        space: out.len(),
    };
    run(network, log, slots, &[call; TICKS], input, out)
}
