// The largest, the smallest and the first over a range of lengths.
ghost use Rattle.std.specs.Prelude.{◌≡◌, ℕ, ◌-◌, ◌*◌, ◌<◌, ◌≤◌, IfSome, slice_index};
ghost use Rattle.tables.specs.Curves.{convolved, deconvolved, excess, growth, settling_length, covers, shortest_delay, subadditive, subadditive_at};
ghost use Rattle.tables.specs.Limits.{longest, limit};
ghost use Rattle.tables.specs.Tables.{at};

// A length is a plain number, and each formula says how far it reads: a type for it would be taken apart in each.
use crate::range::{every, first, largest, smallest};
use crate::table::Table;
use std::array;

// The smallest a(u) + b(k - u), u from 0 to k.
#[tactic(auto, unfolding(crate::specs::Curves::convolved))]
pub fn convolved_at(a: &Table, b: &Table, k: usize) -> u32
    requires { k ≤ 128 }
    ensures value { result ≡ convolved (at a.now) (at b.now) k }
{
    smallest(k, |u| a.near(u) + b.near(k - u))
}

// The smallest a(u) + b(k - u), u from 0 to k, for each k below 128.
pub(crate) fn convolved_all(a: &Table, b: &Table) -> [u32; 128]
    ensures { (k : ℕ) → k < 128 → slice_index result k ≡ convolved (at a.now) (at b.now) k }
{
    array::from_fn(|k| convolved_at(a, b, k))
}

// The largest f(k + i) - b(i), i from 0 to last, of the counts f that are written out: an array, where `rise_at`
// reads a table.
#[tactic(auto, unfolding(crate::specs::Curves::deconvolved))]
pub(crate) fn deconvolved_at(f: &[u32; 128], b: &Table, last: usize, k: usize) -> u32
    requires few { last < longest }
    requires short { k ≤ longest }
    ensures { result ≡ deconvolved last (λ n. slice_index f.now n) (at b.now) k }
{
    largest(last, |i| f[k + i].saturating_sub(b.near(i)))
}

// The largest a(u) - b(u), u from 0 to k.
#[tactic(auto, unfolding(crate::specs::Curves::excess))]
pub fn excess_at(a: &Table, b: &Table, k: usize) -> u32
    requires { k ≤ 128 }
    ensures { result ≡ excess (at a.now) (at b.now) k }
{
    largest(k, |u| a.near(u).saturating_sub(b.near(u)))
}

// The smallest h(k + i) - h(i), i over a frame.
#[tactic(auto, unfolding(crate::specs::Curves::growth))]
pub fn growth_at(h: &Table, k: usize) -> u32
    requires { k ≤ longest }
    ensures { result ≡ growth (h.now.frame - 1) (at h.now) k }
{
    smallest(h.frame() - 1, |i| h.near(k + i).saturating_sub(h.near(i)))
}

// The largest h(k + i) - h(i), i over a frame.
#[tactic(auto, unfolding(crate::specs::Curves::deconvolved))]
pub fn rise_at(h: &Table, k: usize) -> u32
    requires { k ≤ longest }
    ensures { result ≡ deconvolved (h.now.frame - 1) (at h.now) (at h.now) k }
{
    largest(h.frame() - 1, |i| h.near(k + i).saturating_sub(h.near(i)))
}

// The smallest length of the frame at which a is at most b.
#[tactic(auto, unfolding(crate::specs::Curves::settling_length))]
pub fn settling_of(a: &Table, b: &Table) -> Option<usize>
    ensures value { result ≡ settling_length a.now.frame (at a.now) (at b.now) }
    ensures within { IfSome result (λ k. (1 ≤ k) × (k ≤ a.now.frame)) }
{
    first(1, a.frame(), |k| a.near(k) <= b.near(k))
}

// Whether a(k) is at most b(k + d) for every k from 0 to last.
#[tactic(auto, unfolding(crate::specs::Curves::covers))]
fn is_covered(a: &Table, b: &Table, last: usize, d: usize) -> bool
    requires few { last ≤ longest }
    requires small { d ≤ longest }
    ensures { result ≡ covers last (at a.now) (at b.now) d }
{
    every(0, last, |k| a.near(k) <= b.near(k + d))
}

// The smallest d from 0 to last with a(k) at most b(k + d) for every k from 0 to last, or 0.
#[tactic(auto, unfolding(crate::specs::Curves::shortest_delay))]
pub fn delay_of(a: &Table, b: &Table, last: usize) -> usize
    requires { last ≤ longest }
    ensures value { result ≡ shortest_delay last (at a.now) (at b.now) }
    ensures bound { result ≤ last }
{
    first(0, last, |d| is_covered(a, b, last, d)).unwrap_or(0)
}

// Whether h(a) + h(b) is at least h(a + b) for every b of the frame.
#[tactic(auto, unfolding(crate::specs::Curves::subadditive_at))]
fn is_subadditive_at(h: &Table, a: usize) -> bool
    requires { a ≤ longest }
    ensures { result ≡ subadditive_at h.now.frame (at h.now) a }
{
    every(1, h.frame(), |b| h.near(a + b) <= h.near(a) + h.near(b))
}

// The shaping rule.
#[tactic(auto, unfolding(crate::specs::Curves::subadditive))]
pub fn is_subadditive(h: &Table) -> bool
    ensures { result ≡ subadditive h.now.frame (at h.now) }
{
    every(1, h.frame(), |a| is_subadditive_at(h, a))
}
