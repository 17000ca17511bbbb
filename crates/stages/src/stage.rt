// What may stand at the top of a network.
ghost use Rattle.std.specs.Prelude.{◌≡◌, ℕ, List, ◌∷◌, map};
ghost use Rattle.flows.specs.Views.{View, next_view};

use flows::{Flow, StageBounds};

/// What a tick saw at a stage: how many messages arrived, how many passed, and how many wait after it.
#[derive(Clone, Copy, PartialEq, Eq, Debug)]
pub struct Counts {
    pub arrived: u32,
    pub passed: u32,
    pub waiting: u32,
}

// Each of the three has a rule, bounds and a closed form of its own, and says its fields in each; what they share
// is this trait, and looking below.
/// A server, a shaper or a join.
pub trait Stage: Flow {
    // The stage itself, the first of the stages of its network.
    ghost top: { Self → View };

    // The stages below it.
    ghost below: { Self → List View };

    /// One tick.
    fn step(&mut self) -> Counts
        ensures arrived { result.arrived ≡ (top self.old).arrived 0 }
        ensures passed { result.passed ≡ (top self.old).passed 0 }
        ensures waiting { result.waiting ≡ (top self.old).waits 1 }
        ensures top { top self.new ≡ next_view (top self.old) }
        ensures views { Self.Flow.views self.new ≡ map next_view (Self.Flow.views self.old) };

    /// What waits.
    fn waiting(&self) -> u32
        ensures { result ≡ (top self.now).waits 0 };

    /// The most that can arrive in one tick.
    fn arriving(&self) -> u32
        ensures { result ≡ (top self.now).arriving };

    /// The bounds of the stage itself.
    fn figures(&self) -> StageBounds
        ensures { result ≡ (top self.now).bounds };

    ghost first: { (x : Self) → Self.Flow.views x ≡ top x ∷ below x };
}
