// What a flow is.
ghost use Rattle.std.specs.Prelude.{◌≡◌, ℕ, List, map};
ghost use Rattle.tables.specs.declared.pair.Pair.{Pair};
ghost use Rattle.flows.specs.Views.{View, Fine, All, KeepsPair, tail, next_view, look};

use crate::bounds::StageBounds;
use tables::Pair;

/// A flow hands over one count in each tick. Whatever keeps these promises may stand below any stage.
pub trait Flow {
    // The most and the least of the flow; they stay.
    ghost pair: { Self → Pair };

    // What each coming tick hands over, without end.
    ghost course: { Self → ℕ → ℕ };

    // The stages of the network from here down.
    ghost views: { Self → List View };

    // Each implementation owes that any neighbours of its course keep its pair.
    ghost keeps: { (x : Self) → KeepsPair (pair x) (course x) };

    // And that each stage from here down keeps its bounds for ever.
    ghost viewed: { (x : Self) → All Fine (views x) };

    /// The pair of the flow.
    fn pair(&self) -> &Pair
        ensures { result.now ≡ pair self.now };

    /// The count of this tick.
    fn draw(&mut self) -> u32
        ensures count { result ≡ course self.old 0 }
        ensures next { course self.new ≡ tail (course self.old) }
        ensures same { pair self.new ≡ pair self.old }
        ensures views { views self.new ≡ map next_view (views self.old) };

    /// The bounds of the stage at a place, counted from 0 at the top, or how far the place lies past the
    /// last stage, from where a stage over two flows goes on counting in the second.
    fn bounds(&self, place: usize) -> Result<StageBounds, usize>
        ensures { result ≡ look (views self.now) place };
}
