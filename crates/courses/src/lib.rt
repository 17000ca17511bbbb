// The laws of courses and of the stages that pass them on: what the bounds of a server, a shaper and a join say of every run, up to any tick.
#![tactic(auto)]

mod bottom_flows;
mod causal;
mod joins;
mod kept;
mod lengths;
mod servers;
mod shapers;
mod ticks;

pub use bottom_flows::bottoms_stand;
pub use causal::causal_stands;
pub use joins::join_stands;
pub use kept::kept_stands;
pub use lengths::frames_stand;
pub use servers::server_stands;
pub use shapers::shaper_stands;
pub use ticks::steps_stand;
