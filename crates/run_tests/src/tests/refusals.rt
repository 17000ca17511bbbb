// Carries that are refused: nothing has changed.
use super::sums;
use flows::{Recorded, Steady, number_given};
use runs::{Fitted, Log, Ring};
use stages::Server;
use std::test::Fail;
use tables::Table;

#[test]
fn refused_in_turn(rt: HostRuntime) -> Result<(), Fail> {
    let events = Recorded::build(&[2, 1, 0, 1], &Table::new(&[2, 3, 3, 4])?);
    let fitted = Fitted::new(Server::build(events, Steady::build(4, 1)));
    let mut none = [0u8; 0];
    let mut small = Ring::new(&mut none);
    let mut slots = [0u8; 2];
    let mut ring = Ring::new(&mut slots);
    let mut running = fitted.start(&ring);
    let mut arrived = [9; 2];
    let mut passed = [9; 2];
    let mut waiting = [9; 2];
    let mut log = Log {
        arrived: &mut arrived,
        passed: &mut passed,
        waiting: &mut waiting,
    };
    let mut out = [7; 1];
    assert_eq!(rt;
        number_given(running.carry(&mut log, &mut small, &[1], &mut [])),
        12
    );
    assert_eq!(rt;
        number_given(running.carry(&mut log, &mut ring, &[1, 2], &mut [])),
        12
    );
    assert_eq!(rt;
        number_given(running.carry(&mut log, &mut small, &[1, 2], &mut out)),
        13
    );
    assert_eq!(rt; running.sums(), sums(0, 0, 0, 0, 0));
    assert_eq!(rt; number_given(running.tick(&mut log)), 0);
    assert_eq!(rt;
        number_given(running.carry(&mut log, &mut small, &[1, 2], &mut out)),
        13
    );
    assert_eq!(rt;
        number_given(running.carry(&mut log, &mut ring, &[1, 2], &mut out)),
        14
    );
    assert_eq!(rt; number_given(running.tick(&mut log)), 0);
    assert_eq!(rt;
        number_given(running.carry(&mut log, &mut small, &[], &mut [])),
        11
    );
    assert_eq!(rt; running.sums(), sums(2, 3, 2, 1, 1));
    assert!(rt; out == [7]);
    assert!(rt; arrived == [2, 1]);
    Ok(())
}

#[test]
fn closed_carries_nothing(rt: HostRuntime) -> Result<(), Fail> {
    let events = Recorded::build(&[2, 1], &Table::new(&[2, 3])?);
    let fitted = Fitted::new(Server::build(events, Steady::build(3, 3)));
    let mut none = [0u8; 0];
    let mut ring = Ring::new(&mut none);
    let mut running = fitted.start(&ring);
    let mut arrived = [9];
    let mut passed = [9];
    let mut waiting = [9];
    let mut log = Log {
        arrived: &mut arrived,
        passed: &mut passed,
        waiting: &mut waiting,
    };
    assert_eq!(rt;
        number_given(running.carry(&mut log, &mut ring, &[], &mut [])),
        0
    );
    assert_eq!(rt;
        number_given(running.carry(&mut log, &mut ring, &[], &mut [])),
        11
    );
    assert_eq!(rt; running.report().sums(), sums(1, 0, 0, 0, 0));
    Ok(())
}
