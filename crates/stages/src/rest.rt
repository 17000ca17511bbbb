// What a server leaves of its service.
ghost use Rattle.stages.specs.Servers.{resting, server_views};

use crate::server::Server;
use flows::{Flow, StageBounds};
use tables::Pair;

/// The other half of a server's tick, as a flow: the places that it leaves.
#[derive(Drop)]
pub struct Rest<E: Flow + Drop, S: Flow + Drop>(pub Server<E, S>);

impl<E: Flow + Drop, S: Flow + Drop> Flow for Rest<E, S> {
    ghost pair = { λ s. s.0.bounds.rest };

    ghost course = { λ s. resting E.Flow S.Flow s.0 };

    ghost views = { λ s. server_views E.Flow S.Flow s.0 };

    ghost keeps = { λ s. s.0.fine.0.rests };

    ghost viewed = { λ s. s.0.fine };

    fn pair(&self) -> &Pair {
        self.0.rest_pair()
    }

    fn draw(&mut self) -> u32 {
        self.0.tick().1
    }

    fn bounds(&self, place: usize) -> Result<StageBounds, usize> {
        self.0.bounds(place)
    }
}
