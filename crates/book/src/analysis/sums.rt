ghost use Rattle.std.specs.Prelude.{◌≡◌, ◌≤◌, map, length};
ghost use Rattle.book.specs.Books.{chained};
ghost use Rattle.book.specs.Chains.{staged};
ghost use Rattle.book.specs.Text.{total_wait, total_delay};

use super::{Analysis, Totals};
use crate::line::Line;

fn totals_of(lines: &[Line]) -> Totals
    requires { length lines.now ≤ 31 }
    ensures wait { result.wait ≡ total_wait (map staged lines.now) }
    ensures delay { result.delay ≡ total_delay (map staged lines.now) }
{
    Totals {
        wait: lines.iter().map(|line| u64::from(line.wait)).sum(),
        delay: lines.iter().map(|line| u64::from(line.delay)).sum(),
    }
}

impl Analysis {
    /// The waits and the delays of all stages, added up.
    pub fn totals(&self) -> Totals
        ensures wait { result.wait ≡ total_wait (chained self.now).stages }
        ensures delay { result.delay ≡ total_delay (chained self.now).stages }
    {
        totals_of(self.lines())
    }
}
