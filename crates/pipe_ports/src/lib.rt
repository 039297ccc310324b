//! Where a driver's bytes go: children, to which bytes are written, and hatches, which start and bury them.
//!
//! A contract sees of a child the bytes taken, where they are told, and a count of faults that never falls; of a hatch the
//! bytes of the children buried, where they are told, and such a count.
#![tactic(auto)]

mod child;
mod hatch;
mod script_child;
mod script_hatch;

pub use child::{Child, Closing};
pub use hatch::{Hatch, Started};
pub use script_child::ScriptChild;
pub use script_hatch::ScriptHatch;
