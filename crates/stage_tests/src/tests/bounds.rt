// The bounds of a network, stage by stage from the top.
use super::{is_past, stands};
use flows::{Recorded, Slotted, Steady};
use stages::{Rest, Server, Shaper};
use std::test::Fail;
use tables::Table;

#[test]
fn server_over_server(rt: HostRuntime) -> Result<(), Fail> {
    let events = Recorded::build(&[2, 1, 0, 1], &Table::new(&[2, 3, 3, 4])?);
    let below = Server::build(events, Slotted::build(&[0, 2, 1, 1]));
    let server = Server::build(below, Steady::build(4, 1));
    assert!(rt; stands(&server, 0, 1, 1));
    assert!(rt; stands(&server, 1, 2, 2));
    assert!(rt; is_past(&server, 2, 0));
    assert!(rt; is_past(&server, 5, 3));
    Ok(())
}

// Events come before the service, so the server whose rest is used stands last.
#[test]
fn shaper_over_rest(rt: HostRuntime) -> Result<(), Fail> {
    let first = Server::build(Slotted::build(&[0, 2, 0, 0]), Steady::build(4, 1));
    let second = Server::build(Slotted::build(&[0, 0, 0, 1]), Rest(first));
    let shaper = Shaper::build(second, Table::new(&[1, 2, 2, 2])?);
    assert!(rt; stands(&shaper, 0, 0, 0));
    assert!(rt; stands(&shaper, 1, 1, 2));
    assert!(rt; stands(&shaper, 2, 1, 1));
    assert!(rt; is_past(&shaper, 3, 0));
    Ok(())
}
