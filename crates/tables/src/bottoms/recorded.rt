ghost use Rattle.std.specs.Prelude.{◌≡◌, ◌≤◌, true, false, length};
ghost use Rattle.tables.specs.Bottoms.{kept_from, kept_by, Kept, Broken};
ghost use Rattle.tables.specs.Tables.{at};

use crate::range::every;
use crate::table::Table;

// Whether each window from start on, of 1 to a frame of counts, keeps the most table.
fn keeps_from(list: &[u32], most: &Table, start: usize) -> bool
    requires { start ≤ length list.now }
    ensures { result ≡ kept_from most.now.frame (at most.now) list.now start }
{
    let last = most.frame().min(list.len() - start);
    let window = &list[start..start + last];
    let mut sum = 0;
    for (before, &count) in window.iter().enumerate() {
        sum += u64::from(count);
        if sum > u64::from(most.near(before + 1)) {
            return false;
        }
    }
    true
}

/// Whether every window of a recorded list keeps the repeated most table.
pub fn keeps_most(list: &[u32], most: &Table) -> bool
    ensures value { result ≡ kept_by most.now.frame (at most.now) list.now }
    ensures kept { result ≡ true → Kept (at most.now) list.now }
    ensures broken { result ≡ false → Broken (at most.now) list.now }
{
    every(0, list.len(), |start| keeps_from(list, most, start))
}
