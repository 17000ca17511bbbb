// The largest and the smallest of a range of values, and tests over a range of numbers. Both ends of a
// range belong to it. What a closure is asked, and that the
// range can be counted, stands at each function, since it is about that call.
ghost use Rattle.std.specs.Prelude.{◌≡◌, ℕ, ◌+◌, ◌^◌, ◌<◌, ◌≤◌, Bool, IfSome};
ghost use Rattle.tables.specs.Ranges.{Gives, chosen, largest, smallest, first, every};

// The values from 0 to last, two made one by a choice at a time, from the first on.
fn chosen<F: Fn(usize) -> u32, C: Fn(u32, u32) -> u32>(last: usize, value: F, choice: C) -> u32
    requires fits { last + 1 < 2 ^ 64 }
    requires callable { (k : ℕ) → k ≤ last → F.pre value k }
    requires free { C.IsAlwaysCallable choice }
    ensures { (f : ℕ → ℕ) (op : ℕ → ℕ → ℕ) → Gives (F.post value) last f → ((x y r : ℕ) → C.post choice x y r → r ≡ op x y) → result ≡ chosen op last f }
{
    (1..last + 1).fold(
        value(0),
        |best, k|
            requires callable { F.pre value k }
            requires free { C.IsAlwaysCallable choice }
        { choice(best, value(k)) },
    )
}

// The largest value, from 0 to last.
pub fn largest<F: Fn(usize) -> u32>(last: usize, value: F) -> u32
    requires fits { last + 1 < 2 ^ 64 }
    requires callable { (k : ℕ) → k ≤ last → F.pre value k }
    ensures { (f : ℕ → ℕ) → Gives (F.post value) last f → result ≡ largest last f }
{
    chosen(last, value, u32::max)
}

// The smallest value, from 0 to last.
pub fn smallest<F: Fn(usize) -> u32>(last: usize, value: F) -> u32
    requires fits { last + 1 < 2 ^ 64 }
    requires callable { (k : ℕ) → k ≤ last → F.pre value k }
    ensures { (f : ℕ → ℕ) → Gives (F.post value) last f → result ≡ smallest last f }
{
    chosen(last, value, u32::min)
}

// The first number that passes, from start to last.
pub fn first<F: Fn(usize) -> bool>(start: usize, last: usize, passes: F) -> Option<usize>
    requires fits { last + 1 < 2 ^ 64 }
    requires callable { (k : ℕ) → start ≤ k → k ≤ last → F.pre passes k }
    ensures value { (p : ℕ → Bool) → Gives (F.post passes) last p → result ≡ first start last p }
    ensures within { IfSome result (λ k. (start ≤ k) × (k ≤ last)) }
{
    (start..last + 1).find(
        |k|
            requires { F.pre passes k.now }
        { passes(*k) },
    )
}

// Whether each number passes, from start to last.
pub fn every<F: Fn(usize) -> bool>(start: usize, last: usize, passes: F) -> bool
    requires fits { last + 1 < 2 ^ 64 }
    requires callable { (k : ℕ) → start ≤ k → k ≤ last → F.pre passes k }
    ensures { (p : ℕ → Bool) → Gives (F.post passes) last p → result ≡ every start last p }
{
    first(
        start,
        last,
        |k|
            requires { F.pre passes k }
        { !passes(k) },
    )
    .is_none()
}
