//! What is asked of the log, what it answers, its rows, and what everybody is told of them.
//!
//! A contract sees these types as they are declared, with each text in them as the list of its
//! characters and each operation as what it does to a text.
#![tactic(auto)]

mod block;
mod call;
mod entry;
mod laws;
mod note;
mod reply;
mod row;

pub use block::Block;
pub use call::{Call, Lang, Request};
pub use entry::{Deed, Entry, entry_of};
pub use laws::same_call_law;
pub use note::Note;
pub use reply::Reply;
pub use row::Row;
