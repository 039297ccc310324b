//! Wraps: the bytes that an interpreter gets of a block, so that it takes them as one command; and where a command ends.
#![tactic(auto)]

mod command;
mod laws;
mod line;
mod wraps;

pub use command::first_command;
pub use laws::wrap_law;
pub use wraps::wrap;
