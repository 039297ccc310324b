//! The world of a script: one log, and the performers over it with their stages and interpreters, moved step by step.
//!
//! A contract sees a `World` as its log and its performers, and the state of that moves as `world_after` says. Each step is one event:
//! so a script is one interleaving of what performers, the log and the interpreters do, and whatever the script, the world
//! stays sound.
#![tactic(auto)]

mod alone;
mod feeding;
mod performer;
mod serving;
mod taking;
mod told;
mod waiting;
mod world;

pub use performer::Performer;
pub use told::Told;
pub use waiting::Waiting;
pub use world::World;
