//! What came of a case.

use crate::case::Case;
use case_files::Verdict;
use replay_run::replay;
use std::alloc::{AllocError, Global};
use troop_ports::{BytesSink, BytesSource};

/// How many bytes a run may print on each of its streams.
const ROOM: u64 = 2_000_000;

/// The verdict on a file that has no case.
pub fn unreadable(alloc: Global) -> Result<Verdict, AllocError> {
    Ok(Verdict {
        holds: false,
        told: String::from_str(alloc, "it can't be read")?,
    })
}

/// Plays each run of a case, up to the first that differs from what the case says.
pub fn judge(alloc: Global, case: &Case) -> Result<Verdict, AllocError> {
    if case.turns.is_empty() {
        return judge_run(alloc, case, b"");
    }
    for (i, turn) in case.turns.iter().enumerate() {
        let verdict = judge_run(alloc, case, turn)?;
        if !verdict.holds {
            let number = i + 1;
            let told = verdict.told.as_str();
            return Ok(Verdict {
                holds: false,
                told: format!(in alloc; "run {number}: {told}")?,
            });
        }
    }
    let status = case.status;
    let runs = case.turns.len();
    Ok(Verdict {
        holds: true,
        told: format!(in alloc; "status {status}, as written, in {runs} runs")?,
    })
}

// Plays the run that has this line between those in front and those behind.
fn judge_run(alloc: Global, case: &Case, turn: &[u8]) -> Result<Verdict, AllocError> {
    let mut script = Vec::from_slice(alloc, &case.front)?;
    script.extend_from_slice(turn)?;
    script.extend_from_slice(&case.back)?;
    let mut input = BytesSource::new(alloc, &script, &[], &[])?;
    let mut out = BytesSink::new(alloc, ROOM, &[])?;
    let mut err = BytesSink::new(alloc, ROOM, &[])?;
    let status = replay(alloc, &mut input, &mut out, &mut err);
    compare(alloc, case, status.code, out.bytes(), err.bytes())
}

// Compares what a run printed with what the case says.
fn compare(
    alloc: Global,
    case: &Case,
    status: u8,
    out: &[u8],
    err: &[u8],
) -> Result<Verdict, AllocError> {
    if status == case.status && out == case.out.as_slice() && err == case.err.as_slice() {
        return Ok(Verdict {
            holds: true,
            told: format!(in alloc; "status {status}, as written")?,
        });
    }
    let out = String::from_utf8_lossy(alloc, out)?;
    let err = String::from_utf8_lossy(alloc, err)?;
    Ok(Verdict {
        holds: false,
        told: format!(in alloc;
            "NOT as written: status {status}, output\n{out}and error line\n{err}"
        )?,
    })
}
