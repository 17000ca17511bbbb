ghost use Rattle.std.specs.Prelude.{◌≡◌};
ghost use Rattle.stages.specs.ServerViews.{server_figures};
ghost use Rattle.stages.specs.Servers.{queue};

use super::Server;
use flows::{Flow, StageBounds};
use tables::{Pair, StageKind};

impl<E: Flow + Drop, S: Flow + Drop> Server<E, S> {
    // What waits; nothing in a closed server. It is one line of its own field, as in a shaper.
    pub(crate) fn held(&self) -> u32
        ensures { result ≡ queue E.Flow S.Flow self.now 0 }
    {
        self.waiting.unwrap_or(0)
    }

    // What is printed: the fields of a server's bounds, which have a rest.
    pub(crate) fn own_bounds(&self) -> StageBounds
        ensures { result ≡ server_figures self.now.bounds }
    {
        StageBounds {
            kind: StageKind::Server,
            wait: self.bounds.wait,
            delay: self.bounds.delay,
            pair: self.bounds.passed,
            rest: Some(self.bounds.rest),
        }
    }

    /// The pair of what it leaves of its service.
    pub fn rest_pair(&self) -> &Pair
        ensures { result.now ≡ self.now.bounds.rest }
    {
        &self.bounds.rest
    }
}
