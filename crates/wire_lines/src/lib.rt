//! Lines, from the pieces that a source gives.
//!
//! A contract sees what a reader holds, and says of each answer which bytes it stands for, so that the lines are
//! those of the bytes however a source cuts them. A reader keeps no more than the front of one line and one piece.
#![tactic(auto)]

mod laws;
mod reader;

pub use laws::{cutting_law, lines_law};
pub use reader::{Line, LineReader};
