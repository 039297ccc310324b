//! A list with spare room in it, its gap: a gap buffer.
//!
//! What is put in and taken out lies next to the gap, so many edits at one place, and at places close to it, move
//! few elements. A contract sees a `GapBuffer` as the elements in front of the gap, those behind it, and how many more the
//! gap takes.
#![tactic(auto)]

mod buffer;

pub use buffer::GapBuffer;
