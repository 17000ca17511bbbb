// Flows of counts, tick by tick.
#![tactic(auto)]

mod answers;
mod bottom;
mod bounds;
mod clocked;
mod flow;
mod recorded;
mod slotted;
mod steady;
#[cfg(test)]
mod tests;

pub use answers::number_given;
pub use bottom::{Bottom, Course};
pub use bounds::StageBounds;
pub use clocked::Clocked;
pub use flow::Flow;
pub use recorded::Recorded;
pub use slotted::Slotted;
pub use steady::Steady;
