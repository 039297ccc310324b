//! Tests of the layer Text: worked rows of operations, of pairs of them, and of the texts and marks that they change.
#![tactic(auto)]

#[cfg(test)]
mod buffers;
#[cfg(test)]
mod edits;
#[cfg(test)]
mod operations;
#[cfg(test)]
mod pairs;
#[cfg(test)]
mod plain;
#[cfg(test)]
mod spelled;
