//! A server: an acceptor beside its workers, who serve one log's links until the door is closed or so many were served.
//!
//! A contract sees which links were taken from the door and came back to it, what each one's session says, and that the closed
//! log's rows are what these sessions gained.
#![tactic(auto)]

mod acceptor;
mod closing;
mod crew;
mod gate;
mod gated;
mod hire;
mod serve_error;
mod server;
mod shift;
mod worker;

pub use gate::{Gate, NoGate};
pub use serve_error::ServeError;
pub use server::serve;
