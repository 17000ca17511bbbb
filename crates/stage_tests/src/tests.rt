// The stages on small inputs.
ghost use Rattle.std.specs.Prelude.{◌≡◌, ℕ, ◌+◌, ◌<◌, false, length, Err, Decides, MatchResult, slice_index, slice_index_or};
ghost use Rattle.tables.specs.Tables.{at, row};
ghost use Rattle.flows.specs.Views.{look};

use flows::Flow;
use stages::Stage;
use tables::Pair;

mod bounds;
mod closed;
mod refusals;
mod runs;

// Whether the next ticks pass these counts, with so many waiting after each.
fn passes<T: Stage>(stage: &mut T, ticks: &[(u32, u32)]) -> bool
    ensures { Decides result ((k : ℕ) → k < length ticks.now → ((T.Stage.top stage.old).passed k ≡ (slice_index_or ticks.now k (0, 0)).0) × ((T.Stage.top stage.old).waits (k + 1) ≡ (slice_index_or ticks.now k (0, 0)).1)) }
{
    for &(passed, waiting) in ticks {
        let seen = stage.step();
        if seen.passed != passed || seen.waiting != waiting {
            return false;
        }
    }
    true
}

// Whether the next counts are these. This and the next stand in the tests of `flows` too: a test's helper is
// not exported, and a public call would need a contract and an edit of its own for three lines.
fn hands_over<F: Flow>(flow: &mut F, counts: &[u32]) -> bool
    ensures { Decides result ((k : ℕ) → k < length counts.now → F.Flow.course flow.old k ≡ slice_index counts.now k) }
{
    for &count in counts {
        if flow.draw() != count {
            return false;
        }
    }
    true
}

// Whether the tables have these entries.
fn shows(pair: &Pair, most: &[u32], least: &[u32]) -> bool
    ensures { Decides result ((row pair.now.most.frame (at pair.now.most) ≡ most.now) × (row pair.now.least.frame (at pair.now.least) ≡ least.now)) }
{
    pair.most.entries() == most && pair.least.entries() == least
}

// Whether the stage at a place has this wait and delay.
fn stands<F: Flow>(flow: &F, place: usize, wait: u32, delay: u32) -> bool
    ensures { MatchResult (look (F.Flow.views flow.now) place) (λ b. Decides result ((b.wait ≡ wait) × (b.delay ≡ delay))) (λ _. result ≡ false) }
{
    flow.bounds(place)
        .is_ok_and(|bounds| bounds.wait == wait && bounds.delay == delay)
}

// Whether a place lies so far past the last stage.
fn is_past<F: Flow>(flow: &F, place: usize, past: usize) -> bool
    ensures { Decides result (look (F.Flow.views flow.now) place ≡ Err past) }
{
    flow.bounds(place).err() == Some(past)
}
