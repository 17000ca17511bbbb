ghost use Rattle.std.specs.Prelude.{◌≡◌, ℕ, ◌≤◌, length as count_of, slice_index, sum as list_sum};
ghost use Rattle.tables.specs.Bottoms.{pair_of_slots, slotted_answer};
ghost use Rattle.tables.specs.Courses.{sum, recorded};
ghost use Rattle.tables.specs.Limits.{longest, limit};
ghost use Rattle.tables.specs.Makes.{answer};
ghost use Rattle.tables.specs.Tables.{curves, Shows};

use crate::Refusal;
use crate::combine::{growth_table, rise_table};
use crate::pair::Pair;
use crate::table::{Table, check_frame};

// The sum of the counts.
fn total(counts: &[u32]) -> u64
    requires { count_of counts.now ≤ longest }
    ensures { result ≡ list_sum counts.now }
{
    counts.iter().map(|&count| u64::from(count)).sum()
}

// Counts that are handed over in turn, with a sum that keeps the limit.
#[derive(Drop)]
struct Circle<'a> {
    counts: &'a [u32],
    ghost some: { 1 ≤ count_of counts.now },
    ghost few: { count_of counts.now ≤ longest },
    ghost low: { sum (recorded counts.now) (count_of counts.now) ≤ limit },
}

impl Circle<'_> {
    // The sum of the first k counts, for each k: one step from each to the next.
    fn running_sums(&self) -> [u32; 65]
        ensures { (k : ℕ) → k ≤ count_of self.now.counts.now → slice_index result k ≡ sum (recorded self.now.counts.now) k }
    {
        let mut sums = [0; 65];
        for (before, &count) in self.counts.iter().enumerate() {
            sums[before + 1] = sums[before] + count;
        }
        sums
    }

    // The running sums around the circle, laid out over two rounds as every table is.
    fn sums(&self) -> Table
        ensures { Shows result (count_of self.now.counts.now) (sum (recorded self.now.counts.now)) }
    {
        let sums = self.running_sums();
        Table::of(self.counts.len(), |length| sums[length])
    }

    // The largest and the smallest sum of k neighbours on the circle, for each k.
    fn pair(&self) -> Pair
        ensures { curves result ≡ pair_of_slots (count_of self.now.counts.now) (recorded self.now.counts.now) }
    {
        let sums = self.sums();
        Pair {
            most: rise_table(&sums),
            least: growth_table(&sums),
        }
    }
}

/// The pair of a flow that hands over the counts in turn, for ever: `Frame` where there are not 1 to 64,
/// `Table` where they add up to more than the limit.
pub fn slotted_pair(counts: &[u32]) -> Result<Pair, Refusal>
    ensures { answer curves result ≡ slotted_answer counts.now }
{
    check_frame(counts.len())?;
    if total(counts) > 1_000_000 {
        return Err(Refusal::Table);
    }
    Ok(Circle { counts }.pair())
}
