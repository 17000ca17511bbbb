ghost use Rattle.std.specs.Prelude.{◌≡◌, ℕ, ◌-◌, ◌≤◌, ◌∷◌, length, take, sum as total, slice_index};
ghost use Rattle.tables.specs.Ranges.{smallest};

// Puts a count before the others; the oldest goes.
pub(crate) fn put_first(past: &mut [u32; 64], count: u32)
    ensures { past.new ≡ count ∷ take 63 past.old }
{
    past.rotate_right(1);
    past[0] = count;
}

// What a shaping table with these entries still allows, after what was passed lately.
pub(crate) fn room(entries: &[u32], past: &[u32; 64]) -> u64
    requires some { 1 ≤ length entries.now }
    requires few { length entries.now ≤ 64 }
    ensures { result ≡ smallest (length entries.now - 1) (λ k. slice_index entries.now k - total (take k past.now)) }
{
    let mut room = u64::from(entries[0]);
    let mut passed = 0;
    for (&entry, &count) in entries.iter().zip(past) {
        room = room.min(u64::from(entry).saturating_sub(passed));
        passed += u64::from(count);
    }
    room
}
