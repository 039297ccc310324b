//! The four activities of a performer, which share a stage behind a hall.
//!
//! The down line takes entries and pushes their blocks, the driver feeds these, the up line sends calls, and the commands are done. Each is a function
//! whose contract speaks of its own seat, its own link, input or output, and its own end of the queue.
#![tactic(auto)]

mod asking;
mod commands;
mod down;
mod driving;
mod ending;
mod errors;
mod reading;
mod stage_hall;
mod up;

pub use asking::print_performer;
pub use commands::{Flow, type_commands};
pub use down::take_down;
pub use driving::drive;
pub use errors::{PerformError, Side, What};
pub use stage_hall::StageSeat;
pub use up::{Placing, send_call, send_up};
