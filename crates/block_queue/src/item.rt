//! What goes through the queue.
use troop_entry::Block;

/// A block to be run, or the end of all blocks.
#[derive(Debug, Drop)]
pub enum Item {
    /// This block is to be run.
    Block(Block),
    /// No block follows.
    End,
}
