// Tables, pairs, and the bounds of a server, a shaper and a join.
ghost use Rattle.std.specs.Prelude.{◌≡◌};
ghost use Rattle.std.specs.Option.{option_map};
ghost use Rattle.std.specs.Result.{result_err};
ghost use Rattle.tables.specs.Refusals.{number_of};

use std::test::Fail;
use tables::{Pair, Refusal, Table, joined, server_bounds, shaper_bounds};

// The number of a refusal, as users know it; `None` where there is none.
fn number<T: Copy>(answer: Result<T, Refusal>) -> Option<u8>
    ensures { result ≡ option_map number_of (result_err answer) }
{
    answer.err().map(|refusal| refusal.number())
}

#[test]
fn tables(rt: HostRuntime) {
    assert_eq!(rt; number(Table::new(&[])), Some(4));
    assert_eq!(rt; number(Table::new(&[0; 65])), Some(4));
    assert_eq!(rt; number(Table::new(&[0; 64])), None);
    assert_eq!(rt; number(Table::new(&[2, 1])), Some(5));
    assert_eq!(rt; number(Table::new(&[1_000_001])), Some(5));
    assert_eq!(rt; number(Table::new(&[1_000_000])), None);
}

#[test]
fn pairs(rt: HostRuntime) {
    assert_eq!(rt; number(Pair::new(&[], &[])), Some(4));
    assert_eq!(rt; number(Pair::new(&[0; 65], &[0; 65])), Some(4));
    assert_eq!(rt; number(Pair::new(&[1, 2], &[0])), Some(4));
    assert_eq!(rt; number(Pair::new(&[1], &[0, 0])), Some(4));
    assert_eq!(rt; number(Pair::new(&[2, 1], &[0, 0])), Some(5));
    assert_eq!(rt; number(Pair::new(&[2, 2], &[1, 0])), Some(5));
    assert_eq!(rt; number(Pair::new(&[1, 1_000_001], &[0, 0])), Some(5));
    assert_eq!(rt; number(Pair::new(&[1, 2], &[0, 3])), Some(5));
    assert_eq!(rt; number(Pair::new(&[1, 2], &[1, 2])), None);
}

#[test]
fn repeated_entries(rt: HostRuntime) -> Result<(), Fail> {
    let short = Table::new(&[2, 3, 3, 4])?;
    let cases = [
        (0, 0),
        (1, 2),
        (3, 3),
        (4, 4),
        (5, 6),
        (7, 7),
        (8, 8),
        (4000, 4000),
        (4_294_967_292, 4_294_967_292),
        (4_294_967_293, 4_294_967_294),
        (4_294_967_295, 4_294_967_295),
    ];
    for (length, count) in cases {
        assert_eq!(rt; short.at(length), count);
    }
    let full = Table::new(&[1_000_000])?;
    assert_eq!(rt; full.at(4_294_967_295), 4_294_967_295_000_000);
    Ok(())
}

#[test]
fn server(rt: HostRuntime) -> Result<(), Fail> {
    let events = Pair::new(&[2, 3, 3, 4], &[0, 0, 1, 2])?;
    let service = Pair::new(&[2, 3, 4, 4], &[0, 1, 2, 4])?;
    let bounds = server_bounds(&events, &service)?;
    assert_eq!(rt; bounds.settling, 4);
    assert_eq!(rt; bounds.wait, 2);
    assert_eq!(rt; bounds.delay, 2);
    assert_eq!(rt; bounds.passed.most.entries(), [2, 3, 4, 4].as_slice());
    assert_eq!(rt; bounds.passed.least.entries(), [0, 0, 0, 1].as_slice());
    assert_eq!(rt; bounds.rest.most.entries(), [2, 3, 3, 3].as_slice());
    assert_eq!(rt; bounds.rest.least.entries(), [0, 0, 0, 0].as_slice());
    let other = Pair::new(&[2, 3, 4], &[0, 1, 2])?;
    assert_eq!(rt; number(server_bounds(&events, &other)), Some(4));
    let slow = Pair::new(&[2, 3, 4, 4], &[0, 1, 2, 3])?;
    assert_eq!(rt; number(server_bounds(&events, &slow)), Some(7));
    Ok(())
}

#[test]
fn shaper(rt: HostRuntime) -> Result<(), Fail> {
    let events = Pair::new(&[2, 3, 4, 4], &[0, 0, 0, 1])?;
    let bounds = shaper_bounds(&events, &Table::new(&[1, 2, 3, 4])?)?;
    assert_eq!(rt; bounds.wait, 1);
    assert_eq!(rt; bounds.delay, 1);
    assert_eq!(rt; bounds.passed.most.entries(), [1, 2, 3, 4].as_slice());
    assert_eq!(rt; bounds.passed.least.entries(), [0, 0, 0, 1].as_slice());
    assert_eq!(rt;
        number(shaper_bounds(&events, &Table::new(&[1, 1, 3])?)),
        Some(4)
    );
    assert_eq!(rt;
        number(shaper_bounds(&events, &Table::new(&[1, 1, 1, 3])?)),
        Some(6)
    );
    assert_eq!(rt;
        number(shaper_bounds(&events, &Table::new(&[1, 1, 1, 2])?)),
        Some(6)
    );
    assert_eq!(rt;
        number(shaper_bounds(&events, &Table::new(&[1, 1, 2, 2])?)),
        Some(7)
    );
    Ok(())
}

#[test]
fn join(rt: HostRuntime) -> Result<(), Fail> {
    let first = Pair::new(&[1, 600_000], &[0, 1])?;
    let sum = joined(&first, &Pair::new(&[2, 400_000], &[1, 1])?)?;
    assert_eq!(rt; sum.most.entries(), [3, 1_000_000].as_slice());
    assert_eq!(rt; sum.least.entries(), [1, 2].as_slice());
    let crowd = Pair::new(&[2, 400_001], &[1, 1])?;
    assert_eq!(rt; number(joined(&first, &crowd)), Some(8));
    assert_eq!(rt;
        number(joined(&first, &Pair::new(&[1_000_000], &[0])?)),
        Some(4)
    );
    Ok(())
}
