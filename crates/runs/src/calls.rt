// Lists of calls.
use crate::states::Running;
use stages::Stage;

// An enum, and no list of closures: the calls are data that the theorem over lists speaks of.
/// One call of a list: a tick without messages, or a carry that is offered so many of what is left of the
/// in-list and so many of the places that are left of the out-list, or all of them where fewer are left.
#[derive(Clone, Copy, PartialEq, Eq, Debug)]
pub enum Call {
    Tick,
    Carry { offered: usize, space: usize },
}

/// How far a list of calls has come: the messages taken from the in-list, the places of the out-list that
/// are written, and the calls that were refused.
#[derive(Clone, Copy, PartialEq, Eq, Debug)]
pub struct Done {
    pub taken: usize,
    pub given: usize,
    pub refused: usize,
}

/// A network that has worked through a list of calls and runs on.
#[derive(Drop)]
pub struct Worked<P: Stage + Drop> {
    pub running: Running<P>,
    pub done: Done,
}
