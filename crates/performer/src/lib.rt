//! A performer: it joins, and runs four activities over one stage behind a lock until each has ended.
#![tactic(auto)]

mod joined;
mod opening;
mod report;
mod running;

pub use activities::{Flow, PerformError, Side, What};
pub use report::{Ends, Report, perform};
