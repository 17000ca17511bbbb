// The pairs of the bottom flows: steady, clocked, slotted and recorded.
mod clocked;
mod recorded;
mod slotted;
mod steady;

pub use clocked::clocked_pair;
pub use recorded::keeps_most;
pub use slotted::slotted_pair;
pub use steady::steady_pair;
