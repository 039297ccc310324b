//! Tests of a server: its links over a door in memory, a gate that holds one of them, and one link over TCP.
#![tactic(auto)]

#[cfg(test)]
mod gates;
#[cfg(test)]
mod queues;
#[cfg(test)]
mod servers;
