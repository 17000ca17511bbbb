// A stage of a chain, as it is listed.
use tables::{Pair, StageKind};

/// A stage: how many messages wait at most, for how many ticks, and the pair that it hands on.
#[derive(Clone, Copy)]
pub struct Line {
    pub stage: StageKind,
    pub wait: u32,
    pub delay: u32,
    pub pair: Pair,
}
