//! What came of a case.

use crate::case::{Case, Outcome};
use crate::play::{Played, play};
use case_files::Verdict;
use std::alloc::{AllocError, Global};
use std::sync::Wait;
use std::thread::Threads;
use std::time::Clock;

/// Plays the performance of a file, and compares what came of it with what the file says.
pub fn judge<R: Threads + Wait + Clock + Sync>(
    rt: &R,
    alloc: Global,
    file: &[u8],
) -> Result<Verdict, AllocError> {
    let Some(case) = Case::read(alloc, file)? else {
        return failed(alloc, "it can't be read");
    };
    match play(rt, alloc, &case)? {
        Played::Outcome(outcome) => compare(alloc, &case.outcome, &outcome),
        Played::Stuck => failed(alloc, "a port waited in vain"),
        Played::Nameless => failed(alloc, "nobody has this name"),
    }
}

// The verdict on a file of which nothing came.
fn failed(alloc: Global, why: &str) -> Result<Verdict, AllocError> {
    Ok(Verdict {
        holds: false,
        told: String::from_str(alloc, why)?,
    })
}

// Compares what came of a performance with what was to come.
fn compare(alloc: Global, wanted: &Outcome, came: &Outcome) -> Result<Verdict, AllocError> {
    let holds = wanted.up == came.up
        && wanted.down == came.down
        && wanted.out == came.out
        && wanted.report == came.report
        && wanted.end == came.end;
    let end = came.end.as_str();
    if holds {
        let told = if end.is_empty() {
            String::from_str(alloc, "as written")?
        } else {
            format!(in alloc; "{end}, as written")?
        };
        return Ok(Verdict { holds, told });
    }
    let up = String::from_utf8_lossy(alloc, &came.up)?;
    let down = String::from_utf8_lossy(alloc, &came.down)?;
    let out = String::from_utf8_lossy(alloc, &came.out)?;
    let report = String::from_utf8_lossy(alloc, &came.report)?;
    let told = format!(in alloc;
        "NOT as written\nend {end}\nwritten up\n{up}written down\n{down}printed\n{out}report\n{report}"
    )?;
    Ok(Verdict { holds, told })
}
