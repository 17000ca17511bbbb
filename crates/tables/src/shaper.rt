// What a shaper makes of the pair of its events and its shaping table.
ghost use Rattle.std.specs.Prelude.{◌≡◌, ℕ, ◌≤◌, IfOk};
ghost use Rattle.tables.specs.Bounds.{shaped_pair, shaping, shaper_answer};
ghost use Rattle.tables.specs.Curves.{Shortest};
ghost use Rattle.tables.specs.Limits.{limit};
ghost use Rattle.tables.specs.Makes.{answer};
ghost use Rattle.tables.specs.Tables.{at, curve, curves};

use crate::Refusal;
use crate::bounds::ShaperBounds;
use crate::combine::{convolved_table, growth_table};
use crate::pair::Pair;
use crate::sweeps::{delay_of, excess_at, is_subadditive};
use crate::table::Table;

fn shaped(events: &Pair, h: &Table) -> Pair
    requires { events.now.most.frame ≡ h.now.frame }
    ensures { curves result ≡ shaped_pair (curves events.now) (curve h.now) }
{
    let growth = growth_table(h);
    Pair {
        most: convolved_table(&events.most, h),
        least: convolved_table(&events.least, &growth),
    }
}

/// The bounds of a shaper: `Frame` where the frames differ, `Shape` where the shaping rule is broken,
/// `Overload` where a frame brings more events than the shaping table lets pass.
pub fn shaper_bounds(events: &Pair, h: &Table) -> Result<ShaperBounds, Refusal>
    ensures value { answer shaping result ≡ shaper_answer (curves events.now) (curve h.now) }
    ensures shortest { IfOk result (λ b. Shortest events.now.most.frame (at events.now.most) (at h.now) b.delay) }
    ensures bound { IfOk result (λ b. b.wait ≤ limit) }
{
    let frame = events.most.frame();
    if frame != h.frame() {
        return Err(Refusal::Frame);
    }
    if !is_subadditive(h) {
        return Err(Refusal::Shape);
    }
    if events.most.near(frame) > h.near(frame) {
        return Err(Refusal::Overload);
    }
    Ok(ShaperBounds {
        wait: excess_at(&events.most, h, frame),
        delay: delay_of(&events.most, h, frame) as u32,
        passed: shaped(events, h),
    })
}
