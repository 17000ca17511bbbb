// A table: how many messages there may be in a window, by the window's length.
ghost use Rattle.std.specs.Prelude.{◌≡◌, ℕ, ◌+◌, ◌<◌, ◌≤◌, slice_index};
ghost use Rattle.tables.specs.Limits.{longest, limit};

mod checks;
mod makes;
mod reads;

pub use checks::{check_frame, count_at, is_lawful};

/// An entry for each length from 1 to the frame; entry 0 is 0. The entries are laid out to twice the
/// longest frame, so that reading a little past the frame takes no division, and in fixed memory, so that no
/// table can fail for want of it.
#[derive(Clone, Copy)]
pub struct Table {
    frame: usize,
    entries: [u32; 129],
    ghost some: { 1 ≤ frame },
    ghost few: { frame ≤ longest },
    ghost starts: { slice_index entries 0 ≡ 0 },
    ghost rises: { (k : ℕ) → k < frame → slice_index entries k ≤ slice_index entries (k + 1) },
    ghost limited: { slice_index entries frame ≤ limit },
    ghost repeats: { (k : ℕ) → k + frame < 129 → slice_index entries (k + frame) ≡ slice_index entries k + slice_index entries frame },
}
