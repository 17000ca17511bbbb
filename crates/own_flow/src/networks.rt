// The burst below a server, and below a shaper over that server.
ghost use Rattle.std.specs.Prelude.{◌≤◌};

use crate::burst::Burst;
use flows::Steady;
use stages::{Server, Shaper, Stage};
use tables::Table;

/// What waits after two ticks in a server with so many places in each, and the most that ever can.
pub fn served(count: u32, places: u32) -> (u32, u32)
    ensures { result.0 ≤ result.1 }
{
    let mut server = Server::build(Burst::build(count), Steady::build(4, places));
    let _ = server.tick();
    let _ = server.tick();
    (server.waiting(), server.figures().wait)
}

/// The same of a shaper over that server.
pub fn smoothed(count: u32, places: u32, table: Table) -> (u32, u32)
    ensures { result.0 ≤ result.1 }
{
    let server = Server::build(Burst::build(count), Steady::build(4, places));
    let mut shaper = Shaper::build(server, table);
    let _ = shaper.tick();
    let _ = shaper.tick();
    (shaper.waiting(), shaper.figures().wait)
}
