//! The lines of Troop, read: what asks, what answers, what is told, and what scripts and performers say.
//!
//! The grammar of each kind of line is a definition, over the value that `serde_json` reads from the line. A reader answers a
//! value exactly where the line is in its grammar.
#![tactic(auto)]

mod commands;
mod entries;
mod fields;
mod operations;
mod read;
mod replies;
mod requests;
mod snapshots;
mod steps;
mod values;

pub use commands::{Command, read_command};
pub use entries::read_entry;
pub use read::{Read, is_blank_line};
pub use replies::{WireReply, read_reply};
pub use requests::read_request;
pub use snapshots::{Snapshot, read_snapshot};
pub use steps::{Step, read_step};
