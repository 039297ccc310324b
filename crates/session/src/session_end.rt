//! How a session ends.

/// How a session ends.
#[derive(Clone, Copy, Debug, PartialEq, Eq)]
pub enum SessionEnd {
    /// A leave stands in the log: the performer's own, at the end of an up line, or that of whom a down line follows. A link that gave
    /// no line at all ends so too.
    Left,
    /// The bytes of an up line ended, and its performer stays.
    Away,
    /// The log took no more joins.
    Crowded,
    /// No performer with this number, which asked to go on, has joined.
    Stranger { who: u32 },
    /// The line of this number was over the limit.
    Long { line: u64 },
    /// The line of this number opens no session.
    Unfit { line: u64 },
    /// The link counted a fault.
    LinkFault,
    /// Memory was wanting.
    Memory,
}
