// What a check answers, the smallest number where several reasons hold.
use flows::{Recorded, Steady, number_given};
use stages::{Join, Server, Shaper};
use std::test::Fail;
use tables::Table;

#[test]
fn servers(rt: HostRuntime) {
    let two = Steady::build(2, 2);
    assert_eq!(rt; number_given(Server::check(&two, &two)), 0);
    assert_eq!(rt; number_given(Server::check(&two, &Steady::build(2, 1))), 7);
    assert_eq!(rt; number_given(Server::check(&two, &Steady::build(3, 2))), 4);
    // also an overload
    assert_eq!(rt; number_given(Server::check(&two, &Steady::build(3, 1))), 4);
}

#[test]
fn shapers(rt: HostRuntime) -> Result<(), Fail> {
    let two = Steady::build(2, 2);
    assert_eq!(rt; number_given(Shaper::check(&two, &Table::new(&[2, 4])?)), 0);
    assert_eq!(rt; number_given(Shaper::check(&two, &Table::new(&[2, 3])?)), 7);
    assert_eq!(rt; number_given(Shaper::check(&two, &Table::new(&[1, 4])?)), 6);
    // also an overload
    assert_eq!(rt; number_given(Shaper::check(&two, &Table::new(&[1, 3])?)), 6);
    assert_eq!(rt;
        number_given(Shaper::check(&two, &Table::new(&[2, 4, 6])?)),
        4
    );
    // also a broken shape and an overload
    assert_eq!(rt;
        number_given(Shaper::check(&two, &Table::new(&[1, 3, 3])?)),
        4
    );
    Ok(())
}

#[test]
fn joins(rt: HostRuntime) {
    let half = Steady::build(1, 500_000);
    let more = Steady::build(1, 500_001);
    assert_eq!(rt; number_given(Join::check(&half, &half)), 0);
    assert_eq!(rt; number_given(Join::check(&half, &more)), 8);
    assert_eq!(rt; number_given(Join::check(&half, &Steady::build(2, 1))), 4);
    // also a crowd
    assert_eq!(rt;
        number_given(Join::check(&more, &Steady::build(2, 500_000))),
        4
    );
}

// A flow that was turned down is closed, and its frame is 1.
#[test]
fn closed_below(rt: HostRuntime) -> Result<(), Fail> {
    let closed = Recorded::build(&[2, 2], &Table::new(&[2, 3, 3, 4])?);
    assert_eq!(rt;
        number_given(Server::check(&closed, &Steady::build(4, 1))),
        4
    );
    assert_eq!(rt;
        number_given(Server::check(&closed, &Steady::build(1, 0))),
        0
    );
    Ok(())
}
