ghost use Rattle.std.specs.Prelude.{◌≡◌, ℕ, ◌≤◌, slice_index};
ghost use Rattle.tables.specs.Curves.{Graph};
ghost use Rattle.tables.specs.Limits.{longest};
ghost use Rattle.tables.specs.Ranges.{Gives};
ghost use Rattle.tables.specs.Tables.{Shows};

use super::Table;

// An array with the counts of the frame; the places past it are still 0.
fn front<F: Fn(usize) -> u32>(frame: usize, fill: F) -> [u32; 129]
    requires few { frame ≤ longest }
    requires callable { (k : ℕ) → k ≤ frame → F.pre fill k }
    ensures { (f : ℕ → ℕ) → Gives (F.post fill) frame f → (k : ℕ) → k ≤ frame → slice_index result k ≡ f k }
{
    let mut entries = [0; 129];
    for (length, entry) in entries[..=frame].iter_mut().enumerate() {
        *entry = fill(length);
    }
    entries
}

impl Table {
    // The table with what fill gives at each length of the frame.
    pub(crate) fn of<F: Fn(usize) -> u32>(frame: usize, fill: F) -> Table
        requires callable { (k : ℕ) → k ≤ frame → F.pre fill k }
        requires graph { (f : ℕ → ℕ) × Graph frame f × Gives (F.post fill) frame f }
        ensures { (f : ℕ → ℕ) → Gives (F.post fill) frame f → Shows result frame f }
    {
        let mut entries = front(frame, fill);
        // Each entry past the frame is made of two before it.
        for k in frame + 1..129 {
            entries[k] = entries[k - frame] + entries[frame];
        }
        Table { frame, entries }
    }
}
