//! A ticket lock with a counted history: a state that threads share, and the list of all rows that it ever gained.
//!
//! A contract sees a `Hall` as the state that it was made of, and a `Seat` of it as what its owner
//! knows of the one history: the rows seen, which only grow at their end, the rows that were placed
//! through it, and the seats that were made through it.
#![tactic(auto)]

mod board;
mod hall;
mod played;
mod plays;
mod seat;
mod steps;
mod turn;
mod wait;

pub use hall::Hall;
pub use played::Played;
pub use seat::{Seat, SeatOf};
