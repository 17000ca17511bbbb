// The bottom flows on small inputs.
ghost use Rattle.std.specs.Prelude.{◌≡◌, ℕ, ◌<◌, length, Decides, slice_index};
ghost use Rattle.tables.specs.Tables.{at, row};

use crate::{Clocked, Flow, Recorded, Slotted, Steady, number_given};
use std::test::Fail;
use tables::{Pair, Table};

// Whether the next counts are these.
fn hands_over<F: Flow>(flow: &mut F, counts: &[u32]) -> bool
    ensures { Decides result ((k : ℕ) → k < length counts.now → F.Flow.course flow.old k ≡ slice_index counts.now k) }
{
    for &count in counts {
        if flow.draw() != count {
            return false;
        }
    }
    true
}

// Whether the tables have these entries.
fn shows(pair: &Pair, most: &[u32], least: &[u32]) -> bool
    ensures { Decides result ((row pair.now.most.frame (at pair.now.most) ≡ most.now) × (row pair.now.least.frame (at pair.now.least) ≡ least.now)) }
{
    pair.most.entries() == most && pair.least.entries() == least
}

#[test]
fn recorded_in_order(rt: HostRuntime) -> Result<(), Fail> {
    let most = Table::new(&[2, 3, 3, 4])?;
    assert_eq!(rt; number_given(Recorded::check(&[2, 1, 0, 1], &most)), 0);
    let mut flow = Recorded::build(&[2, 1, 0, 1], &most);
    assert!(rt; shows(flow.pair(), &[2, 3, 3, 4], &[0, 0, 0, 0]));
    assert!(rt; hands_over(&mut flow, &[2, 1, 0, 1, 0, 0, 0]));
    Ok(())
}

#[test]
fn recorded_refused(rt: HostRuntime) -> Result<(), Fail> {
    let most = Table::new(&[2, 3, 3, 4])?;
    assert_eq!(rt; number_given(Recorded::check(&[2, 2], &most)), 9);
    let mut flow = Recorded::build(&[2, 2], &most);
    assert!(rt; shows(flow.pair(), &[0], &[0]));
    assert!(rt; hands_over(&mut flow, &[0, 0, 0]));
    Ok(())
}

#[test]
fn recorded_empty(rt: HostRuntime) -> Result<(), Fail> {
    let most = Table::new(&[2, 3, 3, 4])?;
    assert_eq!(rt; number_given(Recorded::check(&[], &most)), 0);
    let mut flow = Recorded::build(&[], &most);
    assert!(rt; shows(flow.pair(), &[2, 3, 3, 4], &[0, 0, 0, 0]));
    assert!(rt; hands_over(&mut flow, &[0, 0, 0]));
    Ok(())
}

#[test]
fn clocked_by_the_formula(rt: HostRuntime) {
    assert_eq!(rt; number_given(Clocked::check(8, 5, 2)), 0);
    let mut flow = Clocked::build(8, 5, 2);
    assert!(rt;
        shows(
            flow.pair(),
            &[1, 1, 1, 2, 2, 2, 2, 2],
            &[0, 0, 0, 0, 0, 0, 1, 1],
        )
    );
    assert!(rt; hands_over(&mut flow, &[1, 0, 0, 1, 0, 0, 0, 0, 1, 0, 0, 0]));
}

#[test]
fn clocked_bursts(rt: HostRuntime) {
    let mut often = Clocked::build(1, 1, 4);
    assert!(rt; hands_over(&mut often, &[5, 1, 1, 1]));
    let mut late = Clocked::build(1, 3, 7);
    assert!(rt; hands_over(&mut late, &[3, 0, 1, 0, 0, 1, 0, 0, 1]));
}

#[test]
fn clocked_refused(rt: HostRuntime) {
    assert_eq!(rt; number_given(Clocked::check(64, 10_000, 10_000)), 0);
    assert_eq!(rt; number_given(Clocked::check(8, 0, 0)), 10);
    assert_eq!(rt; number_given(Clocked::check(8, 10_001, 0)), 10);
    assert_eq!(rt; number_given(Clocked::check(8, 5, 10_001)), 10);
    assert_eq!(rt; number_given(Clocked::check(0, 0, 0)), 4);
    assert_eq!(rt; number_given(Clocked::check(65, 10_001, 10_001)), 4);
    let mut flow = Clocked::build(8, 0, 3);
    assert!(rt; shows(flow.pair(), &[0], &[0]));
    assert!(rt; hands_over(&mut flow, &[0, 0, 0]));
}

#[test]
fn steady_and_too_much(rt: HostRuntime) {
    assert_eq!(rt; number_given(Steady::check(64, 15_625)), 0);
    assert_eq!(rt; number_given(Steady::check(64, 15_626)), 5);
    assert_eq!(rt; number_given(Steady::check(1, u32::MAX)), 5);
    assert_eq!(rt; number_given(Steady::check(0, u32::MAX)), 4);
    assert_eq!(rt; number_given(Steady::check(65, 0)), 4);
    let mut flow = Steady::build(3, 7);
    assert!(rt; shows(flow.pair(), &[7, 14, 21], &[7, 14, 21]));
    assert!(rt; hands_over(&mut flow, &[7, 7, 7, 7]));
    let mut closed = Steady::build(64, 15_626);
    assert!(rt; shows(closed.pair(), &[0], &[0]));
    assert!(rt; hands_over(&mut closed, &[0, 0, 0]));
}

#[test]
fn slotted_goes_round(rt: HostRuntime) {
    assert_eq!(rt; number_given(Slotted::check(&[0, 2, 1, 1])), 0);
    let mut flow = Slotted::build(&[0, 2, 1, 1]);
    assert!(rt; shows(flow.pair(), &[2, 3, 4, 4], &[0, 1, 2, 4]));
    assert!(rt; hands_over(&mut flow, &[0, 2, 1, 1, 0, 2, 1, 1, 0]));
}

#[test]
fn slotted_refused(rt: HostRuntime) {
    assert_eq!(rt; number_given(Slotted::check(&[])), 4);
    assert_eq!(rt; number_given(Slotted::check(&[0; 64])), 0);
    assert_eq!(rt; number_given(Slotted::check(&[0; 65])), 4);
    assert_eq!(rt; number_given(Slotted::check(&[1_000_000, 0])), 0);
    assert_eq!(rt; number_given(Slotted::check(&[1_000_000, 1])), 5);
    let mut flow = Slotted::build(&[1_000_000, 1]);
    assert!(rt; shows(flow.pair(), &[0], &[0]));
    assert!(rt; hands_over(&mut flow, &[0, 0, 0]));
}
