//! Plays each case file of the folder that it runs in through `perform`, over links in memory, and prints a line for each.
//!
//! It fails where a performance came to something else than its file says.
#![tactic(auto)]

mod case;
mod pace;
mod play;
mod port;
mod script;
mod sign;
mod verdict;

use anyhow::{Context, Result, bail};
use case_files::case_names;
use std::fs;
use verdict::judge;

fn main(rt: HostRuntime) -> Result<()> {
    let mut failed = 0u64;
    for name in case_names(&rt)? {
        let file = fs::read(&rt, name.as_str()).context("reading a case")?;
        let verdict = judge(&rt, rt.alloc(), &file)?;
        if !verdict.holds {
            failed = failed.saturating_add(1);
        }
        let told = verdict.told.as_str();
        println!(rt; "{name}: {told}")?;
    }
    if failed > 0 {
        bail!("{failed} cases failed");
    }
    Ok(())
}
