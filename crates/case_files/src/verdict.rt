//! What came of a case.

/// Whether a case holds, and what is told of it.
#[derive(Debug, Drop)]
pub struct Verdict {
    /// Whether every run came to what the case says.
    pub holds: bool,
    /// What is printed of it.
    pub told: String,
}
