// A flow of one's own, below the stages.
#![tactic(auto)]

mod burst;
mod networks;

pub use burst::Burst;
pub use networks::{served, smoothed};
