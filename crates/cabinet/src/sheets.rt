// What each sender hands over, tick by tick.
ghost use Rattle.std.specs.Prelude.{◌≡◌, ℕ, ◌%◌, ◌<◌, ◌≤◌, if◌then◌else◌, nat_eq, slice_index};

use flows::Flow;

// The ticks for which messages are lined up: a frame more than are run, so that a list never runs short.
pub(crate) const LONG: usize = 352;

// The counts of one sender.
pub(crate) type Row = [u32; LONG];

// The counts of each sender.
#[derive(Clone, Copy)]
pub(crate) struct Sheet {
    pub door: Row,
    pub temperature: Row,
    pub packs: [Row; 4],
}

// What a flow hands over.
pub(crate) fn draws<F: Flow + Drop>(mut flow: F) -> Row
    ensures { (k : ℕ) → k < 352 → slice_index result k ≡ F.Flow.course flow k }
{
    let mut row = [0; LONG];
    for count in row.iter_mut() {
        *count = flow.draw();
    }
    row
}

// One message in each period, at a tick of its own.
pub(crate) fn beats(period: usize, offset: usize) -> Row
    requires { 1 ≤ period }
    ensures { (k : ℕ) → k < 352 → slice_index result k ≡ (if nat_eq (k % period) offset then 1 else 0) }
{
    let mut row = [0; LONG];
    for (tick, count) in row.iter_mut().enumerate() {
        *count = u32::from(tick % period == offset);
    }
    row
}
