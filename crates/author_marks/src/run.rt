//! Runs of marks.

/// So many neighbours with the number of one performer.
#[derive(Debug, Clone, Copy, PartialEq, Eq)]
pub struct Run {
    /// The performer's number.
    pub who: u32,
    /// How many characters.
    pub count: u64,
}
