ghost use Rattle.std.specs.Prelude.{◌≡◌, ℕ, false};
ghost use Rattle.tables.specs.Tables.{curves, paired};
ghost use Rattle.flows.specs.Checks.{verdict};
ghost use Rattle.flows.specs.Views.{All, Idle};
ghost use Rattle.stages.specs.Joins.{join_fits, join_views, JoinBuilt};

use super::Join;
use flows::Flow;
use tables::{Refusal, joined};

impl<A: Flow + Drop, B: Flow + Drop> Join<A, B> {
    // Two lines in each stage, since each asks the tables of its own flows in its own way.
    /// `Frame` where the frames differ, `Crowd` where the sum at the frame is above the limit.
    pub fn check(left: &A, right: &B) -> Result<(), Refusal>
        ensures { result ≡ verdict (join_fits A.Flow B.Flow left.now right.now) }
    {
        joined(left.pair(), right.pair())?;
        Ok(())
    }

    // That nothing was drawn is asked here, since no type tells it.
    /// A join of two flows from which nothing was drawn; closed where the check refuses.
    pub fn build(left: A, right: B) -> Join<A, B>
        requires fresh { All Idle (A.Flow.views left) }
        requires idle { All Idle (B.Flow.views right) }
        ensures built { JoinBuilt A.Flow B.Flow left right result }
        ensures fresh { All Idle (join_views A.Flow B.Flow result) }
    {
        let Ok(pair) = joined(left.pair(), right.pair()) else {
            return Join::closed(left, right);
        };
        Join {
            left,
            right,
            pair,
            is_open: true,
        }
    }

    // A join that draws nothing and hands over nothing. Each stage says its own fields here.
    fn closed(left: A, right: B) -> Join<A, B>
        ensures left { result.left ≡ left }
        ensures right { result.right ≡ right }
        ensures opens { result.is_open ≡ false }
        ensures bounds { curves result.pair ≡ paired (A.Flow.pair left).most.frame (λ _. 0) (λ _. 0) }
        ensures fresh { All Idle (join_views A.Flow B.Flow result) }
    {
        let pair = left.pair().zero_like();
        Join {
            left,
            right,
            pair,
            is_open: false,
        }
    }
}
