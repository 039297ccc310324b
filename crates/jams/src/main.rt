//! Makes runs of performers on threads, and prints the line that sums up each of them.
//!
//! It fails where a run ends with another status than 0.
#![tactic(auto)]

use jam_run::jam;
use std::process::ExitCode;
use troop_ports::StdSink;

/// How many performers, how many bursts, and the seed.
const RUNS: [(u64, u64, u64); 5] = [
    (2, 3, 7),
    (1, 0, 1),
    (1, 1000, 18_446_744_073_709_551_615),
    (5, 40, 9),
    (64, 20, 1),
];

fn main(rt: HostRuntime) -> ExitCode {
    let mut out = StdSink::new(rt.stdout());
    let mut err = StdSink::new(rt.stderr());
    for (performers, calls, seed) in RUNS {
        let (status, _jammed) = jam(&rt, rt.alloc(), performers, calls, seed, &mut out, &mut err);
        if status.code != 0 {
            return ExitCode::from(status.code);
        }
    }
    ExitCode::from(0)
}
