// The log of a run.

// Three lists, and not one of triples: they are handed in so, and each is read by itself.
/// Three lent lists: what arrived at the top stage in each tick, what passed there, and what waits there after
/// it. Tick number t writes place t, counted from 1, of each.
#[derive(Drop)]
pub struct Log<'a> {
    pub arrived: &'a mut [u32],
    pub passed: &'a mut [u32],
    pub waiting: &'a mut [u32],
}
