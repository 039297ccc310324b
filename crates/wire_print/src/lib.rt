//! The lines of Troop, printed: each a compact JSON object with its keys in byte order, and a line feed.
//!
//! What is printed of a value is a definition. Within the limits of the wire, a printed request, reply, entry or snapshot is
//! read back as the same value.
#![tactic(auto)]

mod documents;
mod entries;
mod journal;
mod laws;
mod line;
mod replies;
mod requests;
mod summaries;
mod texts;

pub use documents::{print_desk, print_snapshot, print_stage};
pub use entries::print_entry;
pub use journal::{print_journal, print_lives};
pub use laws::{one_line_law, read_back_law, read_within_law};
pub use replies::{print_blank, print_reply};
pub use requests::print_request;
pub use summaries::{DrillSummary, JamSummary, print_drill, print_jam};
