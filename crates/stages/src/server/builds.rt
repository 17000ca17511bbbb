ghost use Rattle.std.specs.Prelude.{◌≡◌, ℕ, None};
ghost use Rattle.tables.specs.Bounds.{serving};
ghost use Rattle.flows.specs.Checks.{verdict};
ghost use Rattle.flows.specs.Views.{All, Idle};
ghost use Rattle.stages.specs.Servers.{closed_serving, fits, server_views, ServerBuilt};

use super::Server;
use flows::Flow;
use tables::{Refusal, ServerBounds, server_bounds};

impl<E: Flow + Drop, S: Flow + Drop> Server<E, S> {
    // Two lines in each stage, since each asks the tables of its own flows in its own way.
    /// `Frame` where the frames differ, `Overload` where there is no settling length.
    pub fn check(events: &E, service: &S) -> Result<(), Refusal>
        ensures { result ≡ verdict (fits E.Flow S.Flow events.now service.now) }
    {
        server_bounds(events.pair(), service.pair())?;
        Ok(())
    }

    // That nothing was drawn is asked here, since no type tells it.
    /// A server over two flows from which nothing was drawn; closed where the check refuses.
    pub fn build(events: E, service: S) -> Server<E, S>
        requires fresh { All Idle (E.Flow.views events) }
        requires idle { All Idle (S.Flow.views service) }
        ensures built { ServerBuilt E.Flow S.Flow events service result }
        ensures fresh { All Idle (server_views E.Flow S.Flow result) }
    {
        let Ok(bounds) = server_bounds(events.pair(), service.pair()) else {
            return Server::closed(events, service);
        };
        Server {
            events,
            service,
            waiting: Some(0),
            bounds,
        }
    }

    // A server that draws nothing and hands over nothing. Each stage says its own fields here.
    fn closed(events: E, service: S) -> Server<E, S>
        ensures events { result.events ≡ events }
        ensures service { result.service ≡ service }
        ensures waiting { result.waiting ≡ None }
        ensures bounds { serving result.bounds ≡ closed_serving (E.Flow.pair events).most.frame }
        ensures fresh { All Idle (server_views E.Flow S.Flow result) }
    {
        let zero = events.pair().zero_like();
        let bounds = ServerBounds {
            settling: 0,
            wait: 0,
            delay: 0,
            passed: zero,
            rest: zero,
        };
        Server {
            events,
            service,
            waiting: None,
            bounds,
        }
    }
}
