// How long messages take.
ghost use Rattle.std.specs.Prelude.{◌≡◌, count_by, IfOk};
ghost use Rattle.std.specs.List.{zip};
ghost use Rattle.cabinet.specs.Times.{ticks_of, longest_stay, cycle_counted, outlasts};

use crate::messages::Sent;
use std::alloc::{AllocError, Global};
use std::iter;

// The tick of each message, by the counts of the ticks.
pub(crate) fn ticks_of(heap: Global, counts: &[u32]) -> Result<Vec<usize>, AllocError>
    ensures { IfOk result (λ v. v.items ≡ ticks_of counts.now) }
{
    counts
        .iter()
        .enumerate()
        .flat_map(|(place, count)| iter::repeat_n(place + 1, *count as usize))
        .collect(heap)
}

// The longest time between coming in and going out.
pub(crate) fn longest(ins: &[usize], outs: &[usize]) -> usize
    ensures { result ≡ longest_stay ins.now outs.now }
{
    ins.iter()
        .zip(outs)
        .map(|(since, until)| until.saturating_sub(*since))
        .fold(0, usize::max)
}

// How many cycle increments took longer than a timer waits: each of them is sent again, and counted twice.
pub(crate) fn counted_twice(sent: &[Sent], outs: &[usize], timer: usize) -> usize
    ensures { result ≡ count_by (λ p. outlasts timer p.0 p.1) (zip sent.now outs.now) }
{
    sent.iter()
        .zip(outs)
        .filter(|(sent, until)| sent.is_late(**until, timer))
        .count()
}

// How many cycle increments there are.
pub(crate) fn increments(sent: &[Sent]) -> usize
    ensures { result ≡ count_by (λ s. cycle_counted s.message.sender) sent.now }
{
    sent.iter()
        .filter(|sent| sent.message.counts_cycle())
        .count()
}
