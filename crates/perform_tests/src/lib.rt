//! Tests of performers over links in memory.
#![tactic(auto)]

#[cfg(test)]
mod alone;
#[cfg(test)]
mod runs;
