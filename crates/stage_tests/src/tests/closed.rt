// Closed stages: they draw nothing and hand over nothing.
ghost use Rattle.std.specs.Prelude.{◌≡◌, ℕ, ◌+◌, ◌<◌, [], ◌∷◌, IsOkAnd, Err, Decides, slice_index_or};
ghost use Rattle.tables.specs.Tables.{at, row};
ghost use Rattle.flows.specs.Views.{look};

use super::{is_past, passes, shows, stands};
use flows::{Flow, Recorded, Steady, number_given};
use stages::{Join, Rest, Server, Shaper, Stage};
use std::test::Fail;
use tables::Table;

// Whether a stage is closed, with a frame of 2.
fn is_closed<T: Stage>(stage: &mut T) -> bool
    ensures { Decides result (IsOkAnd (look (T.Flow.views stage.old) 0) (λ b. (b.wait ≡ 0) × (b.delay ≡ 0)) × (look (T.Flow.views stage.old) 1 ≡ Err 0) × (row (T.Flow.pair stage.old).most.frame (at (T.Flow.pair stage.old).most) ≡ 0 ∷ 0 ∷ []) × (row (T.Flow.pair stage.old).least.frame (at (T.Flow.pair stage.old).least) ≡ 0 ∷ 0 ∷ []) × ((T.Stage.top stage.old).arriving ≡ 0) × ((T.Stage.top stage.old).waits 0 ≡ 0) × ((k : ℕ) → k < 3 → ((T.Stage.top stage.old).passed k ≡ (slice_index_or {A = ℕ × ℕ} ((0, 0) ∷ (0, 0) ∷ (0, 0) ∷ []) k (0, 0)).0) × ((T.Stage.top stage.old).waits (k + 1) ≡ (slice_index_or {A = ℕ × ℕ} ((0, 0) ∷ (0, 0) ∷ (0, 0) ∷ []) k (0, 0)).1))) }
{
    stands(stage, 0, 0, 0)
        && is_past(stage, 1, 0)
        && shows(stage.pair(), &[0, 0], &[0, 0])
        && stage.arriving() == 0
        && stage.waiting() == 0
        && passes(stage, &[(0, 0), (0, 0), (0, 0)])
}

#[test]
fn closed_servers(rt: HostRuntime) -> Result<(), Fail> {
    let events = Recorded::build(&[2, 1], &Table::new(&[2, 3])?);
    let mut odd = Server::build(events, Steady::build(3, 3));
    assert!(rt; shows(odd.rest_pair(), &[0, 0], &[0, 0]));
    assert!(rt; is_closed(&mut odd));
    let mut slow = Server::build(events, Steady::build(2, 1));
    assert!(rt; is_closed(&mut slow));
    Ok(())
}

#[test]
fn closed_shapers(rt: HostRuntime) -> Result<(), Fail> {
    let events = Recorded::build(&[2, 1], &Table::new(&[2, 3])?);
    assert!(rt; is_closed(&mut Shaper::build(events, Table::new(&[2, 3, 4])?)));
    assert!(rt; is_closed(&mut Shaper::build(events, Table::new(&[1, 3])?)));
    assert!(rt; is_closed(&mut Shaper::build(events, Table::new(&[1, 2])?)));
    Ok(())
}

#[test]
fn closed_joins(rt: HostRuntime) -> Result<(), Fail> {
    let events = Recorded::build(&[2, 1], &Table::new(&[2, 3])?);
    assert!(rt; is_closed(&mut Join::build(events, Steady::build(3, 3))));
    let many = Steady::build(2, 499_999);
    assert!(rt; is_closed(&mut Join::build(events, many)));
    Ok(())
}

// A server over a closed server is open, and nothing arrives.
#[test]
fn open_over_closed(rt: HostRuntime) {
    let slow = Server::build(Steady::build(2, 2), Steady::build(2, 1));
    assert_eq!(rt; number_given(Server::check(&slow, &Steady::build(2, 1))), 0);
    let mut server = Server::build(slow, Steady::build(2, 1));
    assert!(rt; shows(server.pair(), &[0, 0], &[0, 0]));
    assert!(rt; shows(server.rest_pair(), &[1, 2], &[1, 2]));
    assert!(rt; stands(&server, 1, 0, 0));
    assert!(rt; passes(&mut server, &[(0, 0), (0, 0), (0, 0)]));
}

// A closed server leaves no place.
#[test]
fn rest_of_closed(rt: HostRuntime) {
    let slow = Server::build(Steady::build(2, 2), Steady::build(2, 1));
    assert_eq!(rt;
        number_given(Server::check(&Steady::build(2, 1), &Rest(slow))),
        7
    );
}
