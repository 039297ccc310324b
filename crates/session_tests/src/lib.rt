//! Tests of sessions: links in memory over one hall, one after the other and side by side.
#![tactic(auto)]

#[cfg(test)]
mod crowds;
#[cfg(test)]
mod evenings;
#[cfg(test)]
mod faults;
#[cfg(test)]
mod laws;
#[cfg(test)]
mod lines;
#[cfg(test)]
mod links;
#[cfg(test)]
mod meetings;
