//! The run of a script that is drawn from a number.
//!
//! Three performers join, and then each step is drawn, by what the world has come to: so the number and the count of steps determine
//! the whole run. Behind the last step the world is drained, and one line sums it up. The clause of `drill` says that this line is
//! written with status 0, and that its `equal` is true: each performer then holds the log's document.
#![tactic(auto)]

mod drained;
mod kind;
mod laws;
mod runs;
mod script;
mod summary;
mod turn;

pub use laws::drain_law;
pub use runs::drill;
pub use script::script_line;
