// Tables of message counts, those of the bottom flows, and the bounds that a server, a shaper and a join make of them.
#![tactic(auto)]

mod bottoms;
mod bounds;
mod combine;
mod join;
mod pair;
mod range;
mod refusal;
mod server;
mod shaper;
mod sweeps;
mod table;

pub use bottoms::{clocked_pair, keeps_most, slotted_pair, steady_pair};
pub use bounds::{ServerBounds, ShaperBounds, StageKind};
pub use join::joined;
pub use pair::Pair;
pub use refusal::Refusal;
pub use server::server_bounds;
pub use shaper::shaper_bounds;
pub use table::Table;
