// A ring over lent slots.
ghost use Rattle.std.specs.Prelude.{◌≤◌, length};

/// Messages of one kind in the order in which they came, in slots that are lent, so that it needs no memory of
/// its own: the oldest stands at the head, and `held` slots are in use.
#[derive(Drop)]
pub struct Ring<'a, M> {
    pub(crate) slots: &'a mut [M],
    pub(crate) head: usize,
    pub(crate) held: usize,
    ghost begins: { head ≤ length slots.now },
    ghost few: { held ≤ length slots.now },
}
