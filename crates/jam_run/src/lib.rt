//! A run of performers on threads of their own, over one log that they share.
//!
//! All performers join, and then each makes its bursts of edits, drawn from a number of its own, through a seat of its own. The clause
//! of `jam` says of the closed log and of the stages that are handed back what each of them is, and so that the line which sums them up
//! is true: each performer holds the log's document.
#![tactic(auto)]

mod bursts;
mod cast;
mod closing;
mod joining;
mod player;
mod runs;
mod taking;

pub use runs::{Jammed, jam};
