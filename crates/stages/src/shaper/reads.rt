ghost use Rattle.std.specs.Prelude.{◌≡◌};
ghost use Rattle.stages.specs.ShaperViews.{shaper_figures};
ghost use Rattle.stages.specs.Shapers.{shaper_queue};

use super::Shaper;
use flows::{Flow, StageBounds};
use tables::StageKind;

impl<E: Flow + Drop> Shaper<E> {
    // What waits; nothing in a closed shaper. It is one line of its own field, as in a server.
    pub(crate) fn held(&self) -> u32
        ensures { result ≡ shaper_queue E.Flow self.now 0 }
    {
        self.waiting.unwrap_or(0)
    }

    // What is printed: the fields of a shaper's bounds, which have no rest.
    pub(crate) fn own_bounds(&self) -> StageBounds
        ensures { result ≡ shaper_figures self.now.bounds }
    {
        StageBounds {
            kind: StageKind::Shaper,
            wait: self.bounds.wait,
            delay: self.bounds.delay,
            pair: self.bounds.passed,
            rest: None,
        }
    }
}
