//! Feeds blocks to real programs, each through a driver over a hatch of processes, and prints what became of the blocks.
//!
//! What a program prints comes first: it was waited for, or has ended by itself, before a line of its run is printed.
#![tactic(auto)]

mod run;
mod told;

use anyhow::Result;
use run::{Piece, Run, play};

/// A shell's boot text, which lets it greet.
const GREET: Piece = Piece::Text("greet() { echo \"hello, $1\"; }\n");

/// What is played.
const RUNS: [Run; 6] = [
    Run {
        name: "cat",
        words: &["cat"],
        boot: Piece::Text(""),
        blocks: &[Piece::Text("one\ntwo"), Piece::Text("three\n")],
    },
    Run {
        name: "a shell, whose status is no fault",
        words: &["sh"],
        boot: GREET,
        blocks: &[Piece::Text("greet ann"), Piece::Text("greet bo; exit 3")],
    },
    Run {
        name: "a shell with words of its own",
        words: &["sh", "-s", "ann and bo"],
        boot: Piece::Text(""),
        blocks: &[Piece::Text("echo \"$1\""), Piece::Text("echo \"$#\"")],
    },
    Run {
        name: "a shell that exits at its second block",
        words: &["sh"],
        boot: GREET,
        blocks: &[
            Piece::Text("greet ann"),
            Piece::Text("exit"),
            Piece::Flood,
            Piece::Text("greet bo"),
        ],
    },
    Run {
        name: "a program that reads nothing",
        words: &["true"],
        boot: Piece::Flood,
        blocks: &[Piece::Text("one")],
    },
    Run {
        name: "a program that isn't there",
        words: &["./no-such-program"],
        boot: Piece::Text(""),
        blocks: &[Piece::Text("one"), Piece::Text("two")],
    },
];

fn main(rt: HostRuntime) -> Result<()> {
    for run in &RUNS {
        play(&rt, run)?;
    }
    Ok(())
}
