// The bounds of a stage of a network.
use tables::{Pair, StageKind};

/// How many messages wait at most and for how many ticks, the pair of what the stage passes, and of a
/// server the pair of the service that it leaves.
#[derive(Clone, Copy)]
pub struct StageBounds {
    pub kind: StageKind,
    pub wait: u32,
    pub delay: u32,
    pub pair: Pair,
    pub rest: Option<Pair>,
}
