// Servers, shapers and joins over flows.
#![tactic(auto)]

mod below;
mod join;
mod rest;
mod server;
mod shaper;
mod stage;

pub use join::Join;
pub use rest::Rest;
pub use server::Server;
pub use shaper::Shaper;
pub use stage::{Counts, Stage};
