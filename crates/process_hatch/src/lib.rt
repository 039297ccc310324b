//! Programs of the system as children: each has a pipe as its standard input, and writes where this process writes.
//!
//! A contract sees of a program whether it was closed, whether it was waited for to its end, and a count of faults; of its
//! hatch the words, and such a count. Of bytes nothing is told.
#![tactic(auto)]

mod child;
mod hatch;

pub use child::ProcessChild;
pub use hatch::ProcessHatch;
