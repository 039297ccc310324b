//! Why an activity of a performer stopped.
use wire_json::WireReply;

/// One of a performer's two links.
#[derive(Clone, Copy, Debug, PartialEq, Eq)]
pub enum Side {
    /// The link on which calls go out and replies come.
    Up,
    /// The link on which entries come.
    Down,
}

/// What is wrong with a line that the server owed.
#[derive(Clone, Copy, Debug, PartialEq, Eq)]
pub enum What {
    /// It didn't come: the link's bytes have ended.
    Ended,
    /// It has more bytes than the limit.
    Long,
    /// It isn't in its grammar.
    Unread,
    /// Its entry stands at the position `got`, and the next one is that at `want`.
    Place { want: u64, got: u64 },
    /// The operation of its entry has the base `want`, and meets a document of `got` characters.
    Base { want: u64, got: u64 },
    /// Its entry is an edit by the performer, at this position, and isn't the one that was sent.
    NotSent { at: u64 },
}

/// Why an activity stopped.
#[derive(Clone, Copy, Debug, PartialEq, Eq)]
pub enum PerformError {
    /// The commands' count of faults rose.
    ReadFault,
    /// The output's count of faults rose.
    WriteFault,
    /// A link's count of faults rose.
    NetFault,
    /// The command line of this number isn't in the grammar, or is over the limit.
    BadInput { line: u64 },
    /// The command lines, each with its line feed, passed 2^30 bytes.
    TooMuch,
    /// The server answered this to a call, which so wasn't placed.
    Refused(WireReply),
    /// The performer's leave came, at this position, though none had been sent.
    Dropped { at: u64 },
    /// This is wrong with the line of this number on this side.
    BadPeer { side: Side, line: u64, what: What },
    /// The line of the next call has so many bytes, without its line feed: more than the server takes.
    LongRequest { bytes: u64 },
    /// Memory was wanting.
    Memory,
}
