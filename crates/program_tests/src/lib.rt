//! Tests of whole runs that no case file shows: failing streams, limits, and pieces of a script; what a world tells of steps; servers and performers by their words.
#![tactic(auto)]

#[cfg(test)]
mod held;
#[cfg(test)]
mod performed;
#[cfg(test)]
mod programs;
#[cfg(test)]
mod scripts;
#[cfg(test)]
mod served;
#[cfg(test)]
mod worlds;
