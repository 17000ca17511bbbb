// What can be read of a ring.
ghost use Rattle.std.specs.Prelude.{◌≡◌, length};
ghost use Rattle.runs.specs.Held.{holds, room, nth};

use crate::slots::Ring;

impl<'a, M: Copy> Ring<'a, M> {
    /// How many messages it holds.
    pub fn len(&self) -> usize
        ensures value { result ≡ length (holds self.now) }
        ensures held { result ≡ self.now.held }
    {
        self.held
    }

    /// How many slots it has.
    pub fn slots(&self) -> usize
        ensures { result ≡ room self.now }
    {
        self.slots.len()
    }

    /// The message at a place, counted from 0 at the oldest.
    pub fn get(&self, place: usize) -> Option<M>
        ensures { result ≡ nth (holds self.now) place }
    {
        if place >= self.held {
            return None;
        }
        let at = self.place(place);
        let slots = &*self.slots;
        Some(slots[at])
    }
}
