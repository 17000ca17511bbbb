// Runs of small networks.
ghost use Rattle.std.specs.Prelude.{◌≡◌};

use runs::Sums;

mod carries;
mod lists;
mod refusals;
mod ticks;

// The sums of a run.
fn sums(ticks: u32, arrived: u64, passed: u64, waiting: u32, greatest: u32) -> Sums
    ensures { result ≡ record { ticks = ticks; arrived = arrived; passed = passed; waiting = waiting; greatest = greatest } }
{
    Sums {
        ticks,
        arrived,
        passed,
        waiting,
        greatest,
    }
}
