// Flows at the bottom of a network.
ghost use Rattle.std.specs.Prelude.{◌≡◌, ℕ, [], ⊤};
ghost use Rattle.tables.specs.Tables.{curves, paired};
ghost use Rattle.flows.specs.Views.{KeepsPair, tail};

use crate::bounds::StageBounds;
use crate::flow::Flow;
use std::alloc::AllocError;
use tables::Pair;

/// What a flow hands over, tick by tick.
pub trait Course {
    // The count of each coming tick, without end.
    ghost counts: { Self → ℕ → ℕ };

    /// The count of this tick.
    fn next(&mut self) -> u32
        ensures count { result ≡ counts self.old 0 }
        ensures next { counts self.new ≡ tail (counts self.old) };
}

/// A flow with no stage below it: a course, and the pair that it keeps. Whoever makes one owes the proof that it
/// does.
pub struct Bottom<C: Course> {
    pub course: C,
    pub pair: Pair,
    ghost keeps: { KeepsPair pair (C.counts course) },
}

// By hand, since `Clone` is not derived for a generic type with a ghost field.
impl<C: Course + Copy> Clone for Bottom<C> {
    ghost is_clone = { λ x y. y ≡ x };

    ghost is_infallible = { λ _. ⊤ };

    fn clone(&self) -> Result<Self, AllocError> {
        Ok(*self)
    }
}

impl<C: Course + Copy> Copy for Bottom<C> {}

impl<C: Course> Bottom<C> {
    // A flow that hands over nothing.
    pub(crate) fn closed(course: C) -> Bottom<C>
        requires { C.counts course ≡ (λ _. 0) }
        ensures course { result.course ≡ course }
        ensures pair { curves result.pair ≡ paired 1 (λ _. 0) (λ _. 0) }
    {
        Bottom {
            course,
            pair: Pair::zero(),
        }
    }
}

impl<C: Course> Flow for Bottom<C> {
    ghost pair = { λ s. s.pair };

    ghost course = { λ s. C.counts s.course };

    ghost views = { λ _. [] };

    ghost keeps = { λ s. s.keeps };

    ghost viewed = { λ _. tt };

    fn pair(&self) -> &Pair {
        &self.pair
    }

    fn draw(&mut self) -> u32 {
        self.course.next()
    }

    fn bounds(&self, place: usize) -> Result<StageBounds, usize> {
        Err(place)
    }
}
