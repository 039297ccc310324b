//! A queue of links, from one thread to others: each link that was put in comes out once.
//!
//! A contract sees of an end which queue's it is, the links that were put and taken through it, and its parts of the right to
//! know the whole: the end that has all parts can tell that all that was put was taken.
#![tactic(auto)]

mod moves;
mod permits;
mod queue;
mod rule;

pub use queue::{LinkEnd, LinkQueue};
pub use rule::{Balances, Numbered, Parts, Puts, Takes, View};
