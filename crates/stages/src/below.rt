// Looking below a stage that stands on two flows.
ghost use Rattle.std.specs.Prelude.{◌≡◌, ◌++◌};
ghost use Rattle.flows.specs.Views.{look};

use flows::{Flow, StageBounds};

// The bounds of the stage at a place, the stages of the first flow before those of the second.
pub(crate) fn bounds_below<A: Flow, B: Flow>(
    first: &A,
    second: &B,
    place: usize,
) -> Result<StageBounds, usize>
    ensures { result ≡ look (A.Flow.views first.now ++ B.Flow.views second.now) place }
{
    first.bounds(place).or_else(|past| second.bounds(past))
}
