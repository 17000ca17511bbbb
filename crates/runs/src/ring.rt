ghost use Rattle.std.specs.Prelude.{◌≡◌, ℕ, ◌+◌, ◌-◌, ◌<◌, ◌≤◌, true, [], ◌∷◌, ◌++◌, length, take, drop, is_some, MatchOption};
ghost use Rattle.runs.specs.Held.{holds, room};

use crate::slots::Ring;

impl<'a, M: Copy> Ring<'a, M> {
    /// An empty ring over slots.
    pub fn new(slots: &'a mut [M]) -> Self
        ensures holds { holds result ≡ [] }
        ensures held { result.held ≡ 0 }
        ensures room { room result ≡ length slots.old }
    {
        Ring {
            slots,
            head: 0,
            held: 0,
        }
    }

    // The slot of the message number i, counted from the oldest.
    pub(crate) fn place(&self, i: usize) -> usize
        requires { i < room self.now }
        ensures near { i < room self.now - self.now.head → result ≡ self.now.head + i }
        ensures round { room self.now - self.now.head ≤ i → result ≡ i - (room self.now - self.now.head) }
        ensures within { result < room self.now }
    {
        let room = self.slots.len() - self.head;
        if i < room { self.head + i } else { i - room }
    }

    // One message behind the others, where there is room.
    fn push(&mut self, m: M)
        requires { self.old.held < room self.old }
        ensures taken { holds self.new ≡ holds self.old ++ m ∷ [] }
        ensures slots { room self.new ≡ room self.old }
        ensures count { self.new.held ≡ self.old.held + 1 }
    {
        let held = self.held;
        let place = self.place(held);
        self.slots[place] = m;
        self.held += 1;
    }

    // The oldest message.
    fn pop(&mut self) -> Option<M>
        ensures oldest { MatchOption result ((self.old.held ≡ 0) × (self.new ≡ self.old)) (λ m. holds self.old ≡ m ∷ holds self.new) }
        ensures some { 0 < self.old.held → is_some result ≡ true }
        ensures slots { self.new.slots.now ≡ self.old.slots.now }
        ensures count { self.new.held ≡ self.old.held - 1 }
    {
        if self.held == 0 {
            return None;
        }
        let place = self.place(0);
        let m = self.slots[place];
        self.head = place + 1;
        self.held -= 1;
        Some(m)
    }

    // Moves the n oldest to the first places of out.
    fn send(&mut self, out: &mut [M], n: usize)
        requires there { n ≤ self.old.held }
        requires places { n ≤ length out.old }
        ensures order { take n out.new ++ holds self.new ≡ holds self.old }
        ensures rest { drop n out.new ≡ drop n out.old }
        ensures slots { room self.new ≡ room self.old }
        ensures count { self.new.held ≡ self.old.held - n }
    {
        for place in &mut out[..n] {
            if let Some(m) = self.pop() {
                *place = m;
            }
        }
    }

    // Puts the fresh ones behind what the ring holds.
    fn keep(&mut self, fresh: &[M])
        requires room { self.old.held + length fresh.now ≤ room self.old }
        ensures order { holds self.new ≡ holds self.old ++ fresh.now }
        ensures slots { room self.new ≡ room self.old }
        ensures count { self.new.held ≡ self.old.held + length fresh.now }
    {
        for &m in fresh {
            self.push(m);
        }
    }

    // Takes the first a of the input, writes the first p places of out, what the ring holds first, and keeps
    // the remainder in order.
    pub(crate) fn carry(&mut self, input: &[M], a: usize, out: &mut [M], p: usize)
        requires arrived { a ≤ length input.now }
        requires places { p ≤ length out.old }
        requires there { p ≤ self.old.held + a }
        requires room { (self.old.held + a) - p ≤ room self.old }
        ensures order { take p out.new ++ holds self.new ≡ holds self.old ++ take a input.now }
        ensures rest { drop p out.new ≡ drop p out.old }
        ensures slots { room self.new ≡ room self.old }
        ensures count { self.new.held ≡ (self.old.held + a) - p }
    {
        if self.held < p {
            let old = self.held;
            let direct = p - old;
            self.send(out, old);
            out[old..p].copy_from_slice(&input[0..direct]);
            self.keep(&input[direct..a]);
        } else {
            self.send(out, p);
            self.keep(&input[0..a]);
        }
    }
}
