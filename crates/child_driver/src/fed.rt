//! What becomes of a block.

/// What a feed answers: what became of the block.
#[derive(Clone, Copy, Debug, PartialEq, Eq)]
pub enum Fed {
    /// A life took all of the block.
    Whole,
    /// A life took only so many bytes of the block.
    Cut { bytes: u64 },
    /// No life was fed.
    Skipped,
}
