//! The document that the performers write: each character with the number of who put it in.
//!
//! A contract sees a `Doc` as the list of pairs of a character and a performer's number, and the
//! room `ready` for what the next operation puts in without memory.
#![tactic(auto)]

mod block;
mod doc;
mod laws;

pub use doc::Doc;
pub use laws::{block_law, lines_law};
