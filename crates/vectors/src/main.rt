//! Holds `ot_text` and `ot_transform` against vectors that another program worked out, and prints a line for each.
//!
//! It fails where something else comes of a vector's operations than the vector says.
#![tactic(auto)]

mod judge;
mod vector;

use anyhow::{Context, Result, bail};
use judge::{Fault, judge};
use std::alloc::Global;
use std::{fs, io};
use vector::Vector;

fn main(rt: HostRuntime) -> Result<()> {
    let file = fs::read_to_string(&rt, "operations.jsonl").context("reading the vectors")?;
    let mut failed = 0u64;
    for line in file.lines() {
        if !holds(&rt, line)? {
            failed = failed.saturating_add(1);
        }
    }
    if failed > 0 {
        bail!("{failed} vectors failed");
    }
    Ok(())
}

// Prints what comes of a line's vector, and answers whether it is what the vector says.
fn holds(rt: &HostRuntime, line: &str) -> Result<bool> {
    let vector = read(rt.alloc(), line)?;
    print_judged(rt, &vector)
}

// The same of a vector.
fn print_judged(rt: &HostRuntime, vector: &Vector) -> Result<bool> {
    let fault = judge(rt.alloc(), vector)?;
    print_fault(rt, vector.name.as_str(), fault)?;
    Ok(fault.is_none())
}

fn print_fault(rt: &HostRuntime, name: &str, fault: Option<Fault>) -> io::Result<()> {
    match fault {
        None => println!(rt; "{name}: as worked out"),
        Some(fault) => println!(rt; "{name}: NOT as worked out: {fault}"),
    }
}

// The vector of a line.
fn read(alloc: Global, line: &str) -> Result<Vector> {
    match Vector::read(alloc, line)? {
        Some(vector) => Ok(vector),
        None => bail!("a line that is no vector: {line}"),
    }
}
