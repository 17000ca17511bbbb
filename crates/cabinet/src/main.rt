// A cabinet from the fitting to the report: chargers that all start on one tick after a mains failure, their
// bus, a controller and a shaper; the resend timer by the proved bounds, and by what a bench had shown.
#![tactic(auto)]

use anyhow::{Context, Result};
use fits::Promised;
use flows::Recorded;
use layers::{bus, charger, charger_most, controller, temperature, traffic};
use runs::{Fitted, Log};
use scenes::{Tables, door_and_shaping, play};
use sheets::{LONG, Row, Sheet, beats, draws};
use stages::Shaper;

mod delays;
mod fits;
mod layers;
mod messages;
mod scenes;
mod sheets;
mod story;
mod watches;

// Fits the cabinet, and prints its bounds.
fn fit(rt: &HostRuntime, tables: &Tables, door: &Row) -> Result<Promised> {
    let below = bus(traffic(&[charger(); 4], door, &tables.door));
    let fitted = Fitted::new(Shaper::build(controller(below), tables.shaping));
    let promised = fits::promises(&fitted).context(
        "a stage is closed: the tables do not fit each other",
    )?;
    fits::show(rt, &fitted)?;
    Ok(promised)
}

fn main(rt: HostRuntime) -> Result<()> {
    let tables = door_and_shaping().context("a table is refused")?;
    let most = charger_most().context("the clock of a charger is refused")?;
    let door = beats(40, 0);
    let temperature = draws(temperature());

    story::begin(&rt)?;
    let promised = fit(&rt, &tables, &door)?;
    let timer = story::set_timer(&rt, &promised)?;

    let mut arrived = [0; LONG];
    let mut passed = [0; LONG];
    let mut waiting = [0; LONG];
    let mut log = Log {
        arrived: &mut arrived,
        passed: &mut passed,
        waiting: &mut waiting,
    };

    let bench = Sheet {
        door,
        temperature,
        packs: [4, 12, 20, 28].map(|offset| beats(32, offset)),
    };
    let chargers = bench
        .packs
        .each_ref()
        .map(|pack| Recorded::build(pack, &most));
    let seen = play(rt.alloc(), &chargers, &bench, &tables, &mut log)?;
    story::bench(&rt, &seen, &promised)?;

    let mains = Sheet {
        packs: [draws(charger()); 4],
        ..bench
    };
    let chargers = [charger(); 4];
    let scene = play(rt.alloc(), &chargers, &mains, &tables, &mut log)?;
    story::mains(&rt, &scene, &promised)?;
    story::show_log(&rt, &log)?;
    story::show_messages(&rt, log.passed, scene.sent())?;
    story::compare(&rt, log.passed, scene.sent(), seen.way, timer)
}
