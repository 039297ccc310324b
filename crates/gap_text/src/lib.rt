//! A text that operations change in place, over a gap buffer.
//!
//! A contract sees a `GapText` as the list of its characters, and how many more of them it takes without memory.
#![tactic(auto)]

mod text;

pub use text::GapText;
