//! Sessions: what a server and one link say to each other, from the link's first line to its end.
//!
//! An up line places a performer's calls, a down line writes the log's entries. A contract sees a session as what it wrote of which
//! lines, as replies that one thread gives at logs that begin with one another, and as the rows that its seat gained.
#![tactic(auto)]

mod attend;
mod down;
mod join;
mod laws;
mod opening;
mod replies;
mod serve;
mod service;
mod session_end;
mod snap;
mod up;

pub use down::serve_down;
pub use laws::{denied_law, later_law, truth_law};
pub use opening::Opening;
pub use serve::serve_link;
pub use session_end::SessionEnd;
pub use snap::serve_snap;
pub use up::serve_up;
