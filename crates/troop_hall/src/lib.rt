//! The log that threads share: a desk behind a ticket lock.
//!
//! A contract sees a `DeskHall` as the desk that it was made of, and a seat of it as what its owner
//! knows of the one log: the rows seen, which are a legal log and only grow at their end, and the
//! rows that were placed through it.
#![tactic(auto)]

mod hall;
mod known;

pub use hall::{DeskHall, DeskSeat};
pub use known::Known;
