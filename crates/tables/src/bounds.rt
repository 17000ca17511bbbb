// The bounds of a stage.
use crate::pair::Pair;

mod names;

/// The kinds of stages.
#[derive(Clone, Copy, PartialEq, Eq, Debug)]
pub enum StageKind {
    Server,
    Shaper,
    Join,
}

/// What a server makes of its events and its service.
#[derive(Clone, Copy)]
pub struct ServerBounds {
    /// The smallest length at which the most events are at most the least service.
    pub settling: u32,
    /// How many messages wait at most.
    pub wait: u32,
    /// For how many ticks a message waits at most.
    pub delay: u32,
    /// The pair of what it passes.
    pub passed: Pair,
    /// The pair of the service that it leaves.
    pub rest: Pair,
}

/// What a shaper makes of its events and its shaping table.
#[derive(Clone, Copy)]
pub struct ShaperBounds {
    pub wait: u32,
    pub delay: u32,
    pub passed: Pair,
}
