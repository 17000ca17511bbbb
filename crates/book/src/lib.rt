// Books of blocks, and the bounds of the chain that a book describes.
#![tactic(auto)]

mod analysis;
mod answers;
mod block;
mod chain;
mod line;
mod sums;
mod text;
mod zeros;

pub use analysis::{Analysis, Refused, Totals, analyse};
pub use answers::{Answer, answer_of};
pub use block::{Block, Entries};
pub use line::Line;
pub use sums::{CheckSums, Summed, check_sums};
