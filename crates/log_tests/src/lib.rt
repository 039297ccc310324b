//! Tests of the layer Log: entries, desks, and halls that threads share.
#![tactic(auto)]

#[cfg(test)]
mod desks;
#[cfg(test)]
mod entries;
#[cfg(test)]
mod halls;
#[cfg(test)]
mod locks;
#[cfg(test)]
mod logs;
