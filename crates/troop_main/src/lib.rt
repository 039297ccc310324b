//! The program, but for its real streams, its real net, its real files and its real interpreter: what its words ask.
//!
//! The clause of `troop` on the word `replay` is that of `replay`: the table of its statuses. On the word `serve` it is the table of
//! a server's: the door that the net tells as shut was served as `serve` of server_crew says, and the line of the closed log was
//! written where the status is 0. On the word `perform` it is the table of a performer's: the links that the net tells as retired, the
//! input, the output and the hatch are as `perform` of performer says, and behind a run its last lines were written. Either word asks the
//! net for the address behind it, and for no other. On the words `drill` and `jam` it is that of the call of this name.
#![tactic(auto)]

mod billing;
mod performing;
mod reports;
mod serving;
mod top;
mod words;

pub use billing::program_words;
pub use top::troop;
