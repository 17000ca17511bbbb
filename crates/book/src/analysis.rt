// What a book comes to.
ghost use Rattle.std.specs.Prelude.{◌≤◌};

use crate::line::Line;
use tables::{Pair, Refusal};

mod lines;
mod makes;
mod sums;

pub use makes::analyse;

/// The pair of the first block, and a line for each block after it.
#[derive(Clone, Copy)]
pub struct Analysis {
    first: Pair,
    // An analysis is `Copy` and needs no heap. No list of changing length is both, so an array and a count.
    count: usize,
    lines: [Line; 31],
    ghost few: { count ≤ 31 },
}

/// Why a book is turned down, and at which block, counted from 1; 0 where its length is wrong.
#[derive(Clone, Copy, PartialEq, Eq, Debug)]
pub struct Refused {
    pub refusal: Refusal,
    pub block: u32,
}

/// The waits and the delays of all stages, added up.
#[derive(Clone, Copy, PartialEq, Eq, Debug)]
pub struct Totals {
    pub wait: u64,
    pub delay: u64,
}
