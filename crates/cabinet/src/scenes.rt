// The cabinet in one mode of its chargers.
ghost use Rattle.std.specs.Prelude.{◌≡◌, ℕ, ◌<◌, ◌≤◌, take, IfSome, IfOk, slice_index_or};
ghost use Rattle.std.specs.List.{All as Each};
ghost use Rattle.flows.specs.Views.{All, Idle};

use crate::delays::{longest, ticks_of};
use crate::layers::{Bus, FRAME, bus, controller, traffic};
use crate::messages::{Message, NO_MESSAGE, Sent, line_up};
use crate::sheets::{LONG, Sheet};
use crate::watches::{Seen, TICKS, carry_all, watch};
use flows::Flow;
use runs::Log;
use stages::Shaper;
use std::alloc::{AllocError, Global};
use std::array;
use tables::Table;

// What is the same in each mode: the most of the door, and the shaping table.
#[derive(Clone, Copy)]
pub(crate) struct Tables {
    pub door: Table,
    pub shaping: Table,
}

// The door sends at most one message in 32 ticks, and the shaper lets one through in two.
pub(crate) fn door_and_shaping() -> Option<Tables>
    ensures { IfSome result (λ t. (t.door.frame ≡ 32) × (t.shaping.frame ≡ 32)) }
{
    let shaping = [
        1, 1, 2, 2, 3, 3, 4, 4, 5, 5, 6, 6, 7, 7, 8, 8, 9, 9, 10, 10, 11, 11, 12, 12, 13, 13, 14,
        14, 15, 15, 16, 16,
    ];
    Some(Tables {
        door: Table::new(&[1; FRAME]).ok()?,
        shaping: Table::new(&shaping).ok()?,
    })
}

// What was seen: at the bus, at the controller, at the shaper, and on the whole way; the messages that came
// out, in order, and how many calls were refused.
#[derive(Clone, Copy)]
pub(crate) struct Scene {
    pub bus: Seen,
    pub controller: Seen,
    pub shaper: Seen,
    pub way: usize,
    // An array and a count, so that a scene needs no heap.
    sent: [Sent; LONG],
    out: usize,
    pub refused: usize,
    ghost few: { out ≤ 352 },
}

impl Scene {
    // The messages that came out, in order.
    pub(crate) fn sent(&self) -> &[Sent]
        ensures { result.now ≡ take self.now.out self.now.sent }
    {
        &self.sent[..self.out]
    }
}

// The first places of a list, or all of it.
pub(crate) fn first_of(list: &[u32], count: usize) -> &[u32]
    ensures { result.now ≡ take count list.now }
{
    list.get(..count).unwrap_or(list)
}

// The message at a place, with the tick in which it reached the bus.
fn dated_at(messages: &[Message; LONG], since: &[usize; LONG], place: usize) -> Sent
    requires { place < 352 }
    ensures { (s : Sent) → result ≡ record { message = slice_index_or messages.now place s.message; since = slice_index_or since.now place s.since } }
{
    Sent {
        message: messages[place],
        since: since[place],
    }
}

// Messages, each with the tick in which it reached the bus.
fn dated(messages: &[Message; LONG], since: &[usize; LONG]) -> [Sent; LONG]
    ensures { (k : ℕ) (s : Sent) → k < 352 → slice_index_or result k s ≡ record { message = slice_index_or messages.now k s.message; since = slice_index_or since.now k s.since } }
{
    array::from_fn(|place| dated_at(messages, since, place))
}

// The bus over its traffic from power-on: nothing was drawn yet, which no type tells.
fn loaded_bus<'a, C: Flow + Copy + Drop>(
    chargers: &[C; 4],
    sheet: &'a Sheet,
    tables: &Tables,
) -> Bus<'a, C>
    requires { Each (λ c. All Idle (C.Flow.views c)) chargers.now }
    ensures fresh { All Idle (⟦<Bus<'a, C> as Flow>⟧.views result) }
{
    bus(traffic(chargers, &sheet.door, &tables.door))
}

// Runs the cabinet with cycle messages, and again with the ticks of their arrival at the bus.
pub(crate) fn play<C: Flow + Copy + Drop>(
    heap: Global,
    chargers: &[C; 4],
    sheet: &Sheet,
    tables: &Tables,
    log: &mut Log,
) -> Result<Scene, AllocError>
    requires { Each (λ c. All Idle (C.Flow.views c)) chargers.now }
    ensures { IfOk result (λ s. s.out ≤ 352) }
{
    let at_bus = watch(heap, loaded_bus(chargers, sheet, tables), log)?;
    let came = ticks_of(heap, log.arrived)?;

    let below = loaded_bus(chargers, sheet, tables);
    let at_controller = watch(heap, controller(below), log)?;

    let messages = line_up(heap, sheet)?;
    let below = loaded_bus(chargers, sheet, tables);
    let cabinet = Shaper::build(controller(below), tables.shaping);
    let mut slots = [NO_MESSAGE; 16];
    let mut out = [NO_MESSAGE; LONG];
    let carried = carry_all(cabinet, log, &mut slots, &messages, &mut out);

    let below = loaded_bus(chargers, sheet, tables);
    let cabinet = Shaper::build(controller(below), tables.shaping);
    let mut slots = [0; 16];
    let mut since = [0; LONG];
    let again = carry_all(cabinet, log, &mut slots, &came, &mut since);

    let ins = ticks_of(heap, first_of(log.arrived, TICKS))?;
    let outs = ticks_of(heap, first_of(log.passed, TICKS))?;
    let count = carried.out.min(again.out);
    Ok(Scene {
        bus: at_bus,
        controller: at_controller,
        shaper: Seen {
            wait: carried.wait,
            delay: longest(&ins, &outs),
        },
        way: longest(&since[..count], &outs),
        sent: dated(&out, &since),
        out: count,
        refused: carried.refused,
    })
}
