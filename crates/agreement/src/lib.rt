//! How a performer's stage agrees with the log: definitions, and their laws.
//!
//! The definitions stand in `specs/`. Each law is the contract of a function that does nothing.
#![tactic(auto)]

mod laws;

pub use laws::{
    aligned_law, drained_law, lane_law, outstanding_law, run_law, stages_law, take_law, waiting_law,
};
