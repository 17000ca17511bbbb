// The messages on the bus.
ghost use Rattle.std.specs.Prelude.{◌≡◌, ℕ, ◌+◌, ◌<◌, Some, length, slice_index, IfOk, OnOk};
ghost use Rattle.tables.specs.Courses.{sum};
ghost use Rattle.cabinet.specs.Times.{handed, cycle_counted, outlasts, message_text};

use crate::sheets::{LONG, Row, Sheet};
use std::alloc::{AllocError, Global};
use std::{array, fmt};

// Who sends a message.
#[derive(Clone, Copy, PartialEq, Eq, Debug)]
pub(crate) enum Sender {
    Pack(u8),
    Temperature,
    Door,
}

// A message and its number among those of its sender: of a pack, the cycle that it counts.
#[derive(Clone, Copy, PartialEq, Eq, Debug)]
pub(crate) struct Message {
    pub sender: Sender,
    pub number: u32,
}

impl Message {
    // Whether it counts a cycle of a pack.
    pub(crate) fn counts_cycle(&self) -> bool
        ensures { result ≡ cycle_counted self.now.sender }
    {
        matches!(self.sender, Sender::Pack(_))
    }
}

impl fmt::Display for Message {
    ghost output = { λ m. Some (message_text m) };

    fn fmt<W: fmt::Write>(&self, f: &mut fmt::Formatter<W>) -> fmt::Result {
        let number = self.number;
        match self.sender {
            Sender::Pack(pack) => write!(f, "pack {pack} cycle {number}"),
            Sender::Temperature => write!(f, "temperature {number}"),
            Sender::Door => write!(f, "door {number}"),
        }
    }
}

// A message, and the tick in which it reached the bus.
#[derive(Clone, Copy, PartialEq, Eq, Debug)]
pub(crate) struct Sent {
    pub message: Message,
    pub since: usize,
}

// What stands in a place that no message was put in.
pub(crate) const NO_MESSAGE: Message = Message {
    sender: Sender::Door,
    number: 0,
};

impl Sent {
    // Whether it counts a cycle and took longer than a timer waits.
    pub(crate) fn is_late(&self, until: usize, timer: usize) -> bool
        ensures { result ≡ outlasts timer self.now until }
    {
        self.message.counts_cycle() && timer < until.saturating_sub(self.since)
    }
}

// A sender with what it hands over tick by tick, and the number of its last message.
#[derive(Clone, Copy)]
struct Source<'a> {
    sender: Sender,
    row: &'a Row,
    last: u32,
}

impl<'a> Source<'a> {
    // A sender that has sent nothing yet.
    fn new(sender: Sender, row: &'a Row) -> Source<'a>
        ensures sender { result.sender ≡ sender }
        ensures row { result.row ≡ row.entry }
        ensures last { result.last ≡ 0 }
    {
        Source {
            sender,
            row,
            last: 0,
        }
    }

    // Puts its messages of a tick behind the others, numbered from the one after the last.
    fn send(&mut self, messages: &mut Vec<Message>, tick: usize) -> Result<(), AllocError>
        requires { tick < 352 }
        ensures sent { OnOk result (length messages.new.items ≡ length messages.old.items + slice_index self.old.row.now tick) }
        ensures row { self.new.row ≡ self.old.row }
    {
        // A counted repeat: a push that can fail is repeated, and there is no list to walk.
        for _ in 0..self.row[tick] {
            self.last = self.last.wrapping_add(1);
            messages.push(Message {
                sender: self.sender,
                number: self.last,
            })?;
        }
        Ok(())
    }
}

// All messages in the order in which they reach the bus: tick after tick, and in a tick the packs last.
pub(crate) fn line_up(heap: Global, sheet: &Sheet) -> Result<Vec<Message>, AllocError>
    ensures { IfOk result (λ v. (n : ℕ) → n ≡ 352 → length v.items ≡ sum (handed sheet.now) n) }
{
    let mut door = Source::new(Sender::Door, &sheet.door);
    let mut temperature = Source::new(Sender::Temperature, &sheet.temperature);
    let mut packs: [Source; 4] = array::from_fn(|k| Source::new(
        Sender::Pack(k as u8 + 1),
        &sheet.packs[k],
    ));
    let mut messages = Vec::new(heap);
    // Tick by tick, since each sender has a row of its own.
    for tick in 0..LONG {
        door.send(&mut messages, tick)?;
        temperature.send(&mut messages, tick)?;
        for pack in packs.iter_mut() {
            pack.send(&mut messages, tick)?;
        }
    }
    Ok(messages)
}
