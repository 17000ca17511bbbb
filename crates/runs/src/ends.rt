ghost use Rattle.std.specs.Prelude.{◌≡◌};
ghost use Rattle.runs.specs.Runs.{totals};

use crate::states::{Ended, Running, Sums};
use stages::Stage;

impl<P: Stage + Drop> Running<P> {
    /// What happened so far.
    pub fn sums(&self) -> Sums
        ensures { result ≡ totals P.Flow P.Stage.own self.now }
    {
        Sums {
            ticks: self.ticks,
            arrived: self.arrived,
            passed: self.passed,
            waiting: self.network.waiting(),
            greatest: self.greatest,
        }
    }

    /// Ends the run: it ticks no more.
    pub fn report(self) -> Ended<P>
        ensures sums { result.sums ≡ totals P.Flow P.Stage.own self }
        ensures network { result.network ≡ self.network }
    {
        let sums = self.sums();
        let Running {
            network,
            ticks: _,
            arrived: _,
            passed: _,
            greatest: _,
        } = self;
        Ended { network, sums }
    }
}

impl<P: Stage + Drop> Ended<P> {
    /// What happened in the run.
    pub fn sums(&self) -> Sums
        ensures { result ≡ self.now.sums }
    {
        self.sums
    }
}
