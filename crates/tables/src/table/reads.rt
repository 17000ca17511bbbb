ghost use Rattle.std.specs.Prelude.{◌≡◌, ◌*◌, ◌^◌, ◌<◌, ◌≤◌};
ghost use Rattle.tables.specs.Limits.{longest, limit};
ghost use Rattle.tables.specs.Tables.{at, row};

use super::Table;

impl Table {
    pub fn frame(&self) -> usize
        ensures value { result ≡ self.now.frame }
        ensures low_bound { 1 ≤ result }
        ensures high_bound { result ≤ longest }
    {
        self.frame
    }

    /// The repeated entry at any length.
    pub fn at(&self, length: u32) -> u64
        ensures value { result ≡ at self.now length }
        ensures bound { result < 2 ^ 53 }
    {
        let frames = length as usize / self.frame;
        let place = length as usize % self.frame;
        frames as u64 * u64::from(self.entries[self.frame]) + u64::from(self.entries[place])
    }

    /// The entry at length 1.
    pub fn first(&self) -> u32
        ensures value { result ≡ at self.now 1 }
        ensures bound { result ≤ limit }
    {
        self.near(1)
    }

    /// The entries at the lengths 1 to the frame.
    pub fn entries(&self) -> &[u32]
        ensures { result.now ≡ row self.now.frame (at self.now) }
    {
        &self.entries[1..self.frame + 1]
    }

    // The repeated entry at a length that is laid out.
    pub(crate) fn near(&self, length: usize) -> u32
        requires { length ≤ 128 }
        ensures value { result ≡ at self.now length }
        ensures bound { result ≤ 128 * limit }
    {
        self.entries[length]
    }
}
