//! The run of a script from an input to an output.
//!
//! A script is played line by line in a world of its own, and what a step prints is written before the next line is read. The clause
//! of `replay` is the table of its statuses: each with its cause and with what was written. Beside it stands the headline: with status
//! 0 all was written that the lines print, and the world after them is sound. The laws say that the statuses are exact.
#![tactic(auto)]

mod laws;
mod meaning;
mod outcome;
mod report;
mod runs;
mod shown;
mod steps;

pub use laws::{faults_exactly, first_stop_law, replays_exactly};
pub use outcome::Outcome;
pub use report::{report_number, report_parts};
pub use runs::{replay, replay_upto};
