//! What a first line asks for.
use crate::Opening;

/// What a first line asks for.
#[derive(Debug, Drop)]
pub enum Service {
    /// An up line, opened so.
    Up(Opening),
    /// A down line: the entries from this position on, up to and with this performer's leave.
    Down { start: u64, who: u32 },
    /// A down line that begins with the document behind this performer's join.
    Snap { who: u32 },
}
