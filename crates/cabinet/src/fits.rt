// The bounds of the fitted cabinet.
ghost use Rattle.std.specs.Prelude.{◌≡◌, ℕ, ◌+◌, Some};
ghost use Rattle.cabinet.specs.Fits.{limit, limit_at, promised, name};

use flows::StageBounds;
use runs::Fitted;
use stages::Stage;
use std::{fmt, io};

// The stages of the cabinet, each at its place from the top.
#[derive(Clone, Copy, PartialEq, Eq, Debug)]
pub(crate) enum Place {
    Shaper,
    Controller,
    Bus,
    Traffic,
    Chargers,
    FirstTwo,
    LastTwo,
    Others,
}

// From the bottom.
const PLACES: [Place; 8] = [
    Place::Others,
    Place::LastTwo,
    Place::FirstTwo,
    Place::Chargers,
    Place::Traffic,
    Place::Bus,
    Place::Controller,
    Place::Shaper,
];

impl fmt::Display for Place {
    ghost output = { λ p. Some (name p) };

    fn fmt<W: fmt::Write>(&self, f: &mut fmt::Formatter<W>) -> fmt::Result {
        f.write_str(match self {
            Place::Shaper => "shaper",
            Place::Controller => "controller",
            Place::Bus => "bus",
            Place::Traffic => "all traffic",
            Place::Chargers => "the four chargers",
            Place::FirstTwo => "chargers 1 and 2",
            Place::LastTwo => "chargers 3 and 4",
            Place::Others => "temperature and door",
        })
    }
}

// How many messages wait at a stage at most, and how long.
#[derive(Clone, Copy)]
pub(crate) struct Limit {
    pub wait: u32,
    pub delay: u32,
}

impl From<StageBounds> for Limit {
    ghost from_gives = { λ b l. l ≡ limit b };

    fn from(bounds: StageBounds) -> Limit {
        Limit {
            wait: bounds.wait,
            delay: bounds.delay,
        }
    }
}

// The bounds of the stages that a message comes through.
#[derive(Clone, Copy)]
pub(crate) struct Promised {
    pub bus: Limit,
    pub controller: Limit,
    pub shaper: Limit,
}

impl Promised {
    // How long a message is under way at most: as long as at all its stages together.
    pub(crate) fn way(&self) -> u64
        ensures { result ≡ self.now.bus.delay + self.now.controller.delay + self.now.shaper.delay }
    {
        let bus = u64::from(self.bus.delay);
        let controller = u64::from(self.controller.delay);
        let shaper = u64::from(self.shaper.delay);
        bus + controller + shaper
    }
}

// How many messages wait at a place at most, and how long. Below a closed stage there are no places.
fn limit_at<P: Stage + Drop>(fitted: &Fitted<P>, place: Place) -> Option<Limit>
    ensures { result ≡ limit_at (P.Flow.views fitted.now.network) place }
{
    fitted.bounds(place as usize).ok().map(Limit::from)
}

// The bounds of shaper, controller and bus. A closed stage has none below it, so where one is closed the
// lowest is missing.
pub(crate) fn promises<P: Stage + Drop>(fitted: &Fitted<P>) -> Option<Promised>
    ensures { result ≡ promised (P.Flow.views fitted.now.network) }
{
    limit_at(fitted, Place::Others)?;
    Some(Promised {
        bus: limit_at(fitted, Place::Bus)?,
        controller: limit_at(fitted, Place::Controller)?,
        shaper: limit_at(fitted, Place::Shaper)?,
    })
}

// Prints the bounds of each stage, from the bottom.
pub(crate) fn show<P: Stage + Drop>(rt: &HostRuntime, fitted: &Fitted<P>) -> io::Result<()> {
    for place in PLACES {
        if let Ok(bounds) = fitted.bounds(place as usize) {
            println!(rt;
                "  {place} ({}): wait {}, delay {}; passes at most {} in a tick, {} to {} in 32",
                bounds.kind,
                bounds.wait,
                bounds.delay,
                bounds.pair.most.at(1),
                bounds.pair.least.at(32),
                bounds.pair.most.at(32),
            )?;
        }
    }
    Ok(())
}
