//! Numbers drawn from a seed, and edits drawn by them.
//!
//! A contract sees `Draws` as the number that they hold. Each draw moves it on, and what was drawn is a function of it: so whoever
//! knows the seed knows all that is drawn.
#![tactic(auto)]

mod draws;
mod edits;
mod laws;

pub use draws::Draws;
pub use laws::edit_law;
