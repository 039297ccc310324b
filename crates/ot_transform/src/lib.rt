//! Operations made at the same time, and operations in a row.
//!
//! A contract sees an operation as `ot_text` does. Definitions say what the calls answer: `left`
//! and `right` for two operations on one base, each moved through the other; `through` for an
//! operation moved through a chain of others; and `comp` for two operations in a row. Laws tie these
//! to the merge of two operations, to gaps and to images: each law is the contract of an empty
//! function.
//!
//! The crate keeps nothing. Its calls borrow operations and make new ones, and where memory is
//! wanting nothing has changed.
#![tactic(auto)]

mod chain;
mod composite;
mod laws;
mod pair;
mod rest;
mod step;
mod walk;

pub use chain::{left_of, left_through, try_left_of};
pub use composite::compose;
pub use laws::{
    chain_law, composed_image_law, composition_law, diamond_law, lengths_law, merge_law,
    places_law, transform_gaps_law,
};
pub use pair::{transform, try_transform};
