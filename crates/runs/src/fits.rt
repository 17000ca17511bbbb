ghost use Rattle.std.specs.Prelude.{◌≡◌, ℕ, []};
ghost use Rattle.flows.specs.Views.{All, Idle, look};
ghost use Rattle.runs.specs.Held.{holds};
ghost use Rattle.runs.specs.Runs.{started, EveryRun};

use crate::slots::Ring;
use crate::states::{Fitted, Running};
use flows::StageBounds;
use stages::Stage;

impl<P: Stage + Drop> Fitted<P> {
    // Whether something was drawn is told by no type: a stage that has ticked has the same one.
    /// A network from which nothing was drawn.
    pub fn new(network: P) -> Fitted<P>
        requires { All Idle (P.Flow.views network) }
        ensures { result.network ≡ network }
    {
        Fitted { network }
    }

    /// The bounds of the stage at a place, counted from 0 at the top, or how far the place lies past the
    /// last stage.
    pub fn bounds(&self, place: usize) -> Result<StageBounds, usize>
        ensures { result ≡ look (P.Flow.views self.now.network) place }
    {
        self.network.bounds(place)
    }

    /// Power-on, with a ring for the messages: every run from here on, of ticks and carries, refused or not,
    /// keeps what is promised.
    pub fn start<M: Copy>(self, ring: &Ring<M>) -> Running<P>
        ensures value { result ≡ started self.network }
        ensures network { result.network ≡ self.network }
        ensures sums { (result.ticks ≡ 0) × (result.arrived ≡ 0) × (result.passed ≡ 0) × (result.greatest ≡ 0) }
        ensures runs { holds ring.now ≡ [] → EveryRun P.Flow P.Stage.own result (holds ring.now) }
    {
        let Fitted { network } = self;
        Running {
            network,
            ticks: 0,
            arrived: 0,
            passed: 0,
            greatest: 0,
        }
    }
}
