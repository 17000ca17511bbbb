// Runs of networks, with a log and a ring of messages.
#![tactic(auto)]

mod calls;
mod carries;
mod ends;
mod fits;
mod log;
mod reads;
mod ring;
mod slots;
mod states;
mod ticks;
mod works;

pub use calls::{Call, Done, Worked};
pub use log::Log;
pub use slots::Ring;
pub use states::{Ended, Fitted, Running, Sums};
