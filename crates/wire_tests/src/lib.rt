//! Tests of the layer Wire: bytes, lines, what they mean and how they are printed; interpreters and their drivers.
#![tactic(auto)]

#[cfg(test)]
mod drivers;
#[cfg(test)]
mod lines;
#[cfg(test)]
mod links;
#[cfg(test)]
mod pipes;
#[cfg(test)]
mod ports;
#[cfg(test)]
mod printers;
#[cfg(test)]
mod programs;
#[cfg(test)]
mod readers;
#[cfg(test)]
mod wraps;
