// Why an input is turned down. Where several reasons hold, the one with the smallest number is given.
mod names;

#[derive(Clone, Copy, PartialEq, Eq, Debug)]
pub enum Refusal {
    /// A book has not 1 to 32 whole blocks.
    Length = 1,
    /// A block's check sums differ.
    Check,
    /// The first block is not events, a kind is unknown, or a fixed zero is not 0.
    Kind,
    /// A frame is not 1 to 64, or frames differ.
    Frame,
    /// A rule of tables or pairs is broken, other than by a join's sum.
    Table,
    /// The shaping rule is broken.
    Shape,
    /// A server has no settling length, or a shaper gets more in a frame than it may pass.
    Overload,
    /// A join's entry at the frame is above the limit.
    Crowd,
    /// A recorded list breaks its most table.
    Promise,
    /// A clock's period or jitter is out of range.
    Clock,
    /// The log is used up.
    Log,
    /// The in-list or the out-list is too short.
    List,
    /// The ring has fewer slots than messages may wait.
    Ring,
    /// The ring holds another number of messages than wait.
    Step,
}
