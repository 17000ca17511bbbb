// What a server makes of the pair of its events and the pair of its service.
ghost use Rattle.std.specs.Prelude.{◌≡◌, ℕ, ◌+◌, ◌-◌, ◌<◌, ◌≤◌, min, IfOk, slice_index};
ghost use Rattle.tables.specs.Bounds.{pair_of_passed, pair_of_rest, serving, server_answer};
ghost use Rattle.tables.specs.Curves.{deconvolved, most_passed, Settles, Shortest};
ghost use Rattle.tables.specs.Limits.{longest, limit};
ghost use Rattle.tables.specs.Makes.{answer};
ghost use Rattle.tables.specs.Tables.{at, curves, Shows};

use crate::Refusal;
use crate::bounds::ServerBounds;
use crate::combine::{convolved_table, excess_table};
use crate::pair::Pair;
use crate::sweeps::{convolved_all, deconvolved_at, delay_of, excess_at, settling_of};
use crate::table::Table;

// The events of a server and its service, of one frame, and their settling length.
#[derive(Drop)]
struct Settled<'a> {
    events: &'a Pair,
    service: &'a Pair,
    settling: usize,
    ghost same: { events.now.most.frame ≡ service.now.most.frame },
    ghost some: { 1 ≤ settling },
    ghost few: { settling ≤ events.now.most.frame },
}

impl Settled<'_> {
    // The most that is passed, from the convolution of the two most tables, which is worked out once.
    fn passed_most(&self) -> Table
        ensures { Shows result self.now.events.now.most.frame (most_passed self.now.settling (at self.now.events.now.most) (at self.now.service.now.most) (at self.now.service.now.least)) }
    {
        let service = self.service;
        let carried = convolved_all(&self.events.most, &service.most);
        let last = self.settling - 1;
        Table::of(self.events.most.frame(), |length| {
            let most = service.most.near(length);
            most.min(deconvolved_at(&carried, &service.least, last, length))
        })
    }

    fn passed(&self) -> Pair
        ensures { curves result ≡ pair_of_passed (curves self.now.events.now) (curves self.now.service.now) self.now.settling }
    {
        Pair {
            most: self.passed_most(),
            least: convolved_table(&self.events.least, &self.service.least),
        }
    }

    fn rest(&self) -> Pair
        ensures { curves result ≡ pair_of_rest (curves self.now.events.now) (curves self.now.service.now) }
    {
        Pair {
            most: excess_table(&self.service.most, &self.events.least),
            least: excess_table(&self.service.least, &self.events.most),
        }
    }
}

/// The bounds of a server: `Frame` where the frames differ, `Overload` where there is no settling length.
pub fn server_bounds(events: &Pair, service: &Pair) -> Result<ServerBounds, Refusal>
    ensures value { answer serving result ≡ server_answer (curves events.now) (curves service.now) }
    ensures settles { IfOk result (λ b. Settles events.now.most.frame (at events.now.most) (at service.now.least) b.settling) }
    ensures shortest { IfOk result (λ b. Shortest b.settling (at events.now.most) (at service.now.least) b.delay) }
    ensures bound { IfOk result (λ b. b.wait ≤ limit) }
{
    if events.most.frame() != service.most.frame() {
        return Err(Refusal::Frame);
    }
    let settling = settling_of(&events.most, &service.least).ok_or(Refusal::Overload)?;
    let settled = Settled {
        events,
        service,
        settling,
    };
    Ok(ServerBounds {
        settling: settling as u32,
        wait: excess_at(&events.most, &service.least, settling),
        delay: delay_of(&events.most, &service.least, settling) as u32,
        passed: settled.passed(),
        rest: settled.rest(),
    })
}
