// Ticks without messages, and the log.
use super::sums;
use flows::{Recorded, Steady, number_given};
use runs::{Fitted, Log, Ring};
use stages::Server;
use std::test::Fail;
use tables::Table;

#[test]
fn logs_each_tick(rt: HostRuntime) -> Result<(), Fail> {
    let events = Recorded::build(&[2, 1, 0, 1], &Table::new(&[2, 3, 3, 4])?);
    let fitted = Fitted::new(Server::build(events, Steady::build(4, 1)));
    let mut slots = [0u32; 1];
    let ring = Ring::new(&mut slots);
    let mut running = fitted.start(&ring);
    let mut arrived = [9; 3];
    let mut passed = [9; 2];
    let mut waiting = [9; 4];
    let mut log = Log {
        arrived: &mut arrived,
        passed: &mut passed,
        waiting: &mut waiting,
    };
    assert_eq!(rt; number_given(running.tick(&mut log)), 0);
    assert_eq!(rt; number_given(running.tick(&mut log)), 0);
    assert_eq!(rt; number_given(running.tick(&mut log)), 11);
    assert_eq!(rt; running.sums(), sums(2, 3, 2, 1, 1));
    assert_eq!(rt; running.report().sums(), sums(2, 3, 2, 1, 1));
    assert!(rt; arrived == [2, 1, 9]);
    assert!(rt; passed == [1, 1]);
    assert!(rt; waiting == [1, 1, 9, 9]);
    Ok(())
}
