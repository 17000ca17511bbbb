// What the program says.
ghost use Rattle.std.specs.Prelude.{◌≡◌, ◌+◌, IfOk};

use crate::delays::{counted_twice, increments, ticks_of};
use crate::fits::{Limit, Place, Promised};
use crate::messages::Sent;
use crate::scenes::{Scene, first_of};
use crate::watches::{Seen, TICKS};
use runs::Log;
use std::io;

pub(crate) fn begin(rt: &HostRuntime) -> io::Result<()> {
    println!(rt;
        "A cabinet: four chargers that count cycles of packs 1 to 4, a temperature sensor and a door."
    )?;
    println!(rt;
        "Their messages share a bus with two slots in every fourth tick. Behind it a controller takes one"
    )?;
    println!(rt; "message in each tick, and a shaper lets one through in two ticks.")?;
    println!(rt; "")?;
    println!(rt; "The bounds of each stage, from the bottom:")
}

// Says how the timer is set.
pub(crate) fn set_timer(rt: &HostRuntime, promised: &Promised) -> io::Result<u64>
    ensures { IfOk result (λ t. t ≡ promised.now.bus.delay + promised.now.controller.delay + promised.now.shaper.delay) }
{
    let way = promised.way();
    println!(rt; "")?;
    println!(rt;
        "A cycle increment passes the bus, the controller and the shaper, and at each it stays no longer than"
    )?;
    println!(rt;
        "the delay there: {} + {} + {} = {way} ticks. The charger's timer is set to {way}.",
        promised.bus.delay, promised.controller.delay, promised.shaper.delay,
    )?;
    Ok(way)
}

fn stage(rt: &HostRuntime, place: Place, seen: Seen, limit: Limit) -> io::Result<()> {
    println!(rt;
        "  {place}: {} waited at most, of {} proved; the longest delay was {}, of {} proved",
        seen.wait, limit.wait, seen.delay, limit.delay,
    )
}

fn stages(rt: &HostRuntime, scene: &Scene, promised: &Promised) -> io::Result<()> {
    stage(rt, Place::Bus, scene.bus, promised.bus)?;
    stage(rt, Place::Controller, scene.controller, promised.controller)?;
    stage(rt, Place::Shaper, scene.shaper, promised.shaper)?;
    println!(rt;
        "  the whole way: {} ticks at most, of {} proved",
        scene.way,
        promised.way()
    )?;
    println!(rt;
        "  {} messages came out, in order, and {} calls were refused",
        scene.sent().len(),
        scene.refused,
    )
}

pub(crate) fn bench(rt: &HostRuntime, scene: &Scene, promised: &Promised) -> io::Result<()> {
    println!(rt; "")?;
    println!(rt; "On the bench the chargers start eight ticks apart. In {TICKS} ticks:")?;
    stages(rt, scene, promised)?;
    println!(rt;
        "From this alone, a timer of {} ticks would have looked long enough.",
        scene.way
    )
}

pub(crate) fn mains(rt: &HostRuntime, scene: &Scene, promised: &Promised) -> io::Result<()> {
    println!(rt; "")?;
    println!(rt; "After a mains failure all four start on tick 1. In {TICKS} ticks:")?;
    stages(rt, scene, promised)
}

// The log of the first ticks.
pub(crate) fn show_log(rt: &HostRuntime, log: &Log) -> io::Result<()> {
    println!(rt; "")?;
    println!(rt; "The log of the shaper, ticks 1 to 16:")?;
    let passed = log.passed.iter().zip(log.waiting.iter());
    for (tick, (arrived, (passed, waiting))) in (1..=16).zip(log.arrived.iter().zip(passed)) {
        println!(rt; "  tick {tick}: {arrived} arrived, {passed} passed, {waiting} waiting")?;
    }
    Ok(())
}

// The first messages that came out.
pub(crate) fn show_messages(rt: &HostRuntime, passed: &[u32], sent: &[Sent]) -> anyhow::Result<()> {
    println!(rt; "")?;
    println!(rt; "The first messages that came out:")?;
    let went = ticks_of(rt.alloc(), first_of(passed, TICKS))?;
    for (sent, tick) in sent.iter().zip(&went).take(12) {
        println!(rt;
            "  tick {tick}: {}, sent in tick {}, {} ticks on the way",
            sent.message,
            sent.since,
            tick.saturating_sub(sent.since),
        )?;
    }
    Ok(())
}

pub(crate) fn compare(
    rt: &HostRuntime,
    passed: &[u32],
    sent: &[Sent],
    seen: usize,
    proved: u64,
) -> anyhow::Result<()> {
    let went = ticks_of(rt.alloc(), first_of(passed, TICKS))?;
    let all = increments(sent);
    let by_bench = counted_twice(sent, &went, seen);
    let by_proof = counted_twice(sent, &went, proved as usize);
    println!(rt; "")?;
    println!(rt; "Of {all} cycle increments after the mains failure")?;
    println!(rt;
        "  with the timer from the bench, {seen} ticks, {by_bench} are sent again and counted twice;"
    )?;
    println!(rt; "  with the proved timer, {proved} ticks, {by_proof}.")?;
    Ok(())
}
