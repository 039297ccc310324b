//! Case files: which files they are, how their lines and signs are read, and what is told of a case.
#![tactic(auto)]

mod names;
mod sheet;
mod verdict;

pub use names::case_names;
pub use sheet::{Sheet, read_sheet};
pub use verdict::Verdict;
