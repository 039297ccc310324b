//! A queue of blocks, from whoever takes the log's entries to whoever feeds an interpreter.
//!
//! A contract sees each end as the list of the items that went through it; once the two ends have met, what was popped is known to
//! be what was pushed first, in order.
#![tactic(auto)]

mod item;
mod queue;
mod rule;
mod traffic;

pub use item::Item;
pub use queue::{Feeder, Queue, Taker};
