// Runs by hand.
use super::{hands_over, passes, shows};
use flows::{Clocked, Flow, Recorded, Slotted, Steady};
use stages::{Join, Rest, Server, Shaper, Stage};
use std::test::Fail;
use tables::Table;

#[test]
fn recorded_on_slots(rt: HostRuntime) -> Result<(), Fail> {
    let events = Recorded::build(&[2, 1, 0, 1], &Table::new(&[2, 3, 3, 4])?);
    let mut server = Server::build(events, Slotted::build(&[0, 2, 1, 1]));
    assert_eq!(rt; server.arriving(), 2);
    assert!(rt;
        passes(
            &mut server,
            &[(0, 2), (2, 1), (1, 0), (1, 0), (0, 0), (0, 0)]
        )
    );
    Ok(())
}

// The slots that those events leave: none until they are out.
#[test]
fn rest_of_slots(rt: HostRuntime) -> Result<(), Fail> {
    let events = Recorded::build(&[2, 1, 0, 1], &Table::new(&[2, 3, 3, 4])?);
    let server = Server::build(events, Slotted::build(&[0, 2, 1, 1]));
    assert!(rt; shows(server.rest_pair(), &[2, 3, 4, 4], &[0, 0, 0, 0]));
    assert!(rt; hands_over(&mut Rest(server), &[0, 0, 0, 0, 0, 2, 1, 1]));
    Ok(())
}

#[test]
fn shaped_behind_a_server(rt: HostRuntime) -> Result<(), Fail> {
    let events = Recorded::build(&[2, 1, 0, 1], &Table::new(&[2, 3, 3, 4])?);
    let server = Server::build(events, Slotted::build(&[0, 2, 1, 1]));
    let mut shaper = Shaper::build(server, Table::new(&[1, 2, 3, 4])?);
    assert!(rt; shows(shaper.pair(), &[1, 2, 3, 4], &[0, 0, 0, 0]));
    assert!(rt;
        passes(
            &mut shaper,
            &[(0, 0), (1, 1), (1, 1), (1, 1), (1, 0), (0, 0)]
        )
    );
    Ok(())
}

// A clock that brings 2 0 0 1 0 0 0 0 1.
#[test]
fn clocked_on_one_place(rt: HostRuntime) {
    let mut server = Server::build(Clocked::build(8, 5, 7), Steady::build(8, 1));
    assert_eq!(rt; server.figures().wait, 1);
    assert!(rt;
        passes(
            &mut server,
            &[
                (1, 1),
                (1, 0),
                (0, 0),
                (1, 0),
                (0, 0),
                (0, 0),
                (0, 0),
                (0, 0),
                (1, 0)
            ]
        )
    );
}

#[test]
fn slots_on_one_place(rt: HostRuntime) {
    let mut server = Server::build(Slotted::build(&[0, 2]), Steady::build(2, 1));
    assert!(rt; shows(server.pair(), &[1, 2], &[0, 1]));
    assert!(rt; shows(server.rest_pair(), &[1, 1], &[0, 0]));
    assert!(rt; passes(&mut server, &[(0, 0), (1, 1), (1, 0), (1, 1)]));
}

// The first server leaves the places 1 0 1 0.
#[test]
fn rest_feeds_a_server(rt: HostRuntime) {
    let first = Server::build(Slotted::build(&[0, 1]), Steady::build(2, 1));
    let mut second = Server::build(Slotted::build(&[0, 1]), Rest(first));
    assert!(rt; shows(second.pair(), &[1, 1], &[0, 0]));
    assert!(rt; passes(&mut second, &[(0, 0), (0, 1), (1, 0), (0, 1), (1, 0)]));
}

#[test]
fn join_adds(rt: HostRuntime) -> Result<(), Fail> {
    let left = Recorded::build(&[2, 1, 0, 1], &Table::new(&[2, 3, 3, 4])?);
    let right = Recorded::build(&[1, 0, 1], &Table::new(&[1, 1, 2, 2])?);
    let mut join = Join::build(left, right);
    assert!(rt; shows(join.pair(), &[3, 4, 5, 6], &[0, 0, 0, 0]));
    assert_eq!(rt; join.arriving(), 3);
    assert!(rt; passes(&mut join, &[(3, 0), (1, 0), (1, 0), (1, 0), (0, 0)]));
    Ok(())
}
