//! Tests of drills: what seeds come to, failing outputs, and the first steps of a generated script.
#![tactic(auto)]

#[cfg(test)]
mod lines;
#[cfg(test)]
mod summaries;
