// Messages through a server, in order.
use super::sums;
use flows::{Recorded, Steady, number_given};
use runs::{Fitted, Log, Ring};
use stages::Server;
use std::test::Fail;
use tables::Table;

#[test]
fn carries_in_order(rt: HostRuntime) -> Result<(), Fail> {
    let events = Recorded::build(&[2, 1, 0, 1], &Table::new(&[2, 3, 3, 4])?);
    let fitted = Fitted::new(Server::build(events, Steady::build(4, 1)));
    let mut slots = [' '; 1];
    let mut ring = Ring::new(&mut slots);
    let mut running = fitted.start(&ring);
    let mut arrived = [0; 4];
    let mut passed = [0; 4];
    let mut waiting = [0; 4];
    let mut log = Log {
        arrived: &mut arrived,
        passed: &mut passed,
        waiting: &mut waiting,
    };
    let mut out = ['-'; 2];
    assert_eq!(rt;
        number_given(running.carry(&mut log, &mut ring, &['a', 'b', 'x'], &mut out)),
        0
    );
    assert!(rt; out == ['a', '-']);
    assert_eq!(rt; ring.len(), 1);
    assert!(rt; ring.get(0) == Some('b'));
    assert!(rt; ring.get(1) == None);
    assert_eq!(rt;
        number_given(running.carry(&mut log, &mut ring, &['c', 'x'], &mut out)),
        0
    );
    assert!(rt; out == ['b', '-']);
    assert!(rt; ring.get(0) == Some('c'));
    assert_eq!(rt;
        number_given(running.carry(&mut log, &mut ring, &['x', 'x'], &mut out)),
        0
    );
    assert!(rt; out == ['c', '-']);
    assert_eq!(rt; ring.len(), 0);
    assert_eq!(rt;
        number_given(running.carry(&mut log, &mut ring, &['d', 'x'], &mut out)),
        0
    );
    assert!(rt; out == ['d', '-']);
    assert_eq!(rt; running.sums(), sums(4, 4, 4, 0, 1));
    assert!(rt; passed == [1, 1, 1, 1]);
    assert!(rt; waiting == [1, 1, 0, 0]);
    Ok(())
}
