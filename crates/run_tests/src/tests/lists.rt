// Lists of calls.
use super::sums;
use flows::{Recorded, Steady};
use runs::{Call, Fitted, Log, Ring};
use stages::Server;
use std::test::Fail;
use tables::Table;

#[test]
fn works_through_refusals(rt: HostRuntime) -> Result<(), Fail> {
    let events = Recorded::build(&[2, 1, 0, 1], &Table::new(&[2, 3, 3, 4])?);
    let fitted = Fitted::new(Server::build(events, Steady::build(4, 1)));
    let mut slots = [' '; 1];
    let mut ring = Ring::new(&mut slots);
    let mut arrived = [9; 4];
    let mut passed = [9; 5];
    let mut waiting = [9; 6];
    let mut log = Log {
        arrived: &mut arrived,
        passed: &mut passed,
        waiting: &mut waiting,
    };
    let all = Call::Carry {
        offered: 9,
        space: 9,
    };
    let few = Call::Carry {
        offered: 1,
        space: 9,
    };
    let narrow = Call::Carry {
        offered: 9,
        space: 0,
    };
    let calls = [all, few, narrow, Call::Tick, all, Call::Tick, all];
    let mut out = ['-'; 4];
    let worked = fitted.work(&mut log, &mut ring, &calls, &['a', 'b', 'c', 'd'], &mut out);
    assert_eq!(rt; worked.done.taken, 2);
    assert_eq!(rt; worked.done.given, 2);
    assert_eq!(rt; worked.done.refused, 3);
    assert_eq!(rt; worked.running.sums(), sums(4, 4, 4, 0, 1));
    assert_eq!(rt; ring.len(), 0);
    assert!(rt; out == ['a', 'b', '-', '-']);
    assert!(rt; arrived == [2, 1, 0, 1]);
    assert!(rt; passed == [1, 1, 1, 1, 9]);
    assert!(rt; waiting == [1, 1, 0, 0, 9, 9]);
    Ok(())
}

#[test]
fn works_on_after_a_list(rt: HostRuntime) -> Result<(), Fail> {
    let events = Recorded::build(&[2, 1, 0, 1], &Table::new(&[2, 3, 3, 4])?);
    let fitted = Fitted::new(Server::build(events, Steady::build(4, 1)));
    let mut slots = [0; 1];
    let mut ring = Ring::new(&mut slots);
    let mut arrived = [0; 4];
    let mut passed = [0; 4];
    let mut waiting = [0; 4];
    let mut log = Log {
        arrived: &mut arrived,
        passed: &mut passed,
        waiting: &mut waiting,
    };
    let all = Call::Carry {
        offered: 9,
        space: 9,
    };
    let mut out = [0; 4];
    let mut worked = fitted.work(
        &mut log,
        &mut ring,
        &[Call::Tick, all],
        &[1, 2, 3],
        &mut out,
    );
    assert_eq!(rt; worked.done.refused, 1);
    assert_eq!(rt; worked.done.taken, 0);
    assert_eq!(rt; ring.len(), 0);
    assert!(rt; worked.running.tick(&mut log).is_ok());
    assert_eq!(rt; worked.running.report().sums(), sums(2, 3, 2, 1, 1));
    Ok(())
}
