//! The driver of an interpreter: it gives blocks to one life after the other, and notes in a journal what became of them.
#![tactic(auto)]

mod driver;
mod fed;
mod feeding;
mod give;
mod journal;
mod opening;

pub use driver::Driver;
pub use fed::Fed;
