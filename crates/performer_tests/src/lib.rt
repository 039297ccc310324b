//! Tests of the layer Performer: rows of a client's and of a stage's life, each with what they answer and hold; laws.
#![tactic(auto)]

#[cfg(test)]
mod agreements;
#[cfg(test)]
mod client;
#[cfg(test)]
mod halls;
#[cfg(test)]
mod queue;
#[cfg(test)]
mod shape;
#[cfg(test)]
mod stage;
