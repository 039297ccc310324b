//! The performers' numbers of the characters of a text.
//!
//! A contract sees a `Marks` as the list of the numbers, one for each character, and
//! `ready`, the room for what the next operation puts in without memory.
#![tactic(auto)]

mod edits;
mod joined;
mod laws;
mod marks;
mod run;
mod seek;
mod walk;

pub use laws::runs_law;
pub use marks::Marks;
pub use run::Run;
