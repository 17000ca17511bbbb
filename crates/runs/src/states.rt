// The three states of a network.
ghost use Rattle.std.specs.Prelude.{◌*◌, ◌≤◌};
ghost use Rattle.flows.specs.Views.{All, Idle, all_idle_prop};

use stages::Stage;

/// A network that is fitted and not yet started: its bounds can be read, and nothing was drawn from it.
#[derive(Drop)]
pub struct Fitted<P: Stage + Drop> {
    pub(crate) network: P,
    ghost fresh: { All Idle (P.Flow.views network) } by { all_idle_prop (P.Flow.views network) },
}

/// A network that runs: it ticks and carries.
#[derive(Drop)]
pub struct Running<P: Stage + Drop> {
    pub(crate) network: P,
    pub(crate) ticks: u32,
    pub(crate) arrived: u64,
    pub(crate) passed: u64,
    pub(crate) greatest: u32,
    ghost few: { arrived ≤ ticks * 4294967295 },
    ghost least: { passed ≤ ticks * 4294967295 },
}

/// A network whose run has ended.
#[derive(Drop)]
pub struct Ended<P: Stage + Drop> {
    pub(crate) network: P,
    pub(crate) sums: Sums,
}

/// What happened so far: the ticks, all that arrived and all that passed at the top stage, what waits
/// there, and the most that waited there after a tick.
#[derive(Clone, Copy, PartialEq, Eq, Debug)]
pub struct Sums {
    pub ticks: u32,
    pub arrived: u64,
    pub passed: u64,
    pub waiting: u32,
    pub greatest: u32,
}
