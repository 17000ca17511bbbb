// The stages of the cabinet, from the chargers up to the shaper.
ghost use Rattle.std.specs.Prelude.{◌≡◌, [], IfSome};
ghost use Rattle.std.specs.List.{All as Each};
ghost use Rattle.flows.specs.Views.{All, Idle};

use flows::{Bottom, Clocked, Flow, Recorded, Slotted, Steady};
use stages::{Join, Server};
use tables::{Table, clocked_pair};

// The traffic of the cabinet.
pub(crate) type Traffic<'a, C> = Join<
    Join<Join<C, C>, Join<C, C>>,
    Join<Bottom<Clocked>, Bottom<Recorded<'a>>>,
>;

// The bus over all its traffic.
pub(crate) type Bus<'a, C> = Server<Traffic<'a, C>, Bottom<Slotted>>;

// Every table, and every round of the bus, is this long.
pub(crate) const FRAME: usize = 32;

// A charger: one cycle in each round, up to two ticks early, and the first at power-on.
pub(crate) fn charger() -> Bottom<Clocked>
    ensures { ⟦<Bottom<Clocked> as Flow>⟧.views result ≡ [] }
{
    Clocked::build(FRAME, 32, 2)
}

// The most of a charger.
pub(crate) fn charger_most() -> Option<Table>
    ensures { IfSome result (λ t. t.frame ≡ 32) }
{
    Some(clocked_pair(FRAME, 32, 2).ok()?.most)
}

// The temperature, once in eight ticks, up to three ticks early.
pub(crate) fn temperature() -> Bottom<Clocked>
    ensures { ⟦<Bottom<Clocked> as Flow>⟧.views result ≡ [] }
{
    Clocked::build(FRAME, 8, 3)
}

// The temperature, and the door as it was recorded.
pub(crate) fn others<'a>(
    door: &'a [u32],
    most: &Table,
) -> Join<Bottom<Clocked>, Bottom<Recorded<'a>>>
    ensures { All Idle (⟦<Join<Bottom<Clocked>, Bottom<Recorded<'a>>> as Flow>⟧.views result) }
{
    Join::build(temperature(), Recorded::build(door, most))
}

// That nothing was drawn yet is asked from here on up, since no type tells it.
// All that the bus carries: the four chargers, and behind them the others.
pub(crate) fn traffic<'a, C: Flow + Copy + Drop>(
    chargers: &[C; 4],
    door: &'a [u32],
    most: &Table,
) -> Traffic<'a, C>
    requires { Each (λ c. All Idle (C.Flow.views c)) chargers.now }
    ensures { All Idle (⟦<Traffic<'a, C> as Flow>⟧.views result) }
{
    let low = Join::build(chargers[0], chargers[1]);
    let high = Join::build(chargers[2], chargers[3]);
    Join::build(Join::build(low, high), others(door, most))
}

// The bus: two messages in every fourth tick.
pub(crate) fn bus<E: Flow + Drop>(traffic: E) -> Server<E, Bottom<Slotted>>
    requires { All Idle (E.Flow.views traffic) }
    ensures { All Idle (⟦<Server<E, Bottom<Slotted>> as Flow>⟧.views result) }
{
    let slots = [
        0, 0, 0, 2, 0, 0, 0, 2, 0, 0, 0, 2, 0, 0, 0, 2, 0, 0, 0, 2, 0, 0, 0, 2, 0, 0, 0, 2, 0, 0,
        0, 2,
    ];
    Server::build(traffic, Slotted::build(&slots))
}

// The controller: one message in each tick.
pub(crate) fn controller<E: Flow + Drop>(bus: E) -> Server<E, Bottom<Steady>>
    requires { All Idle (E.Flow.views bus) }
    ensures { All Idle (⟦<Server<E, Bottom<Steady>> as Flow>⟧.views result) }
{
    Server::build(bus, Steady::build(FRAME, 1))
}
