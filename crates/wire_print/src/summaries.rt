//! The printed summaries of generated runs.
ghost use Rattle.std.specs.Prelude.{◌≡◌, IfOk};
ghost use Rattle.serde_json.specs.View.{view};
ghost use Rattle.wire_print.specs.Printed.{printed_line, drill_data, jam_data};

use crate::line::print_value;
use serde_json::{Value, json};
use std::alloc::{AllocError, Global};

/// What generated steps of a script came to.
#[derive(Clone, Copy, Debug, PartialEq, Eq)]
pub struct DrillSummary {
    /// How many rows of the log are evaluations.
    pub blocks: u64,
    /// How many rows the log has.
    pub entries: u64,
    /// Whether each performer holds the log's document.
    pub equal: bool,
    /// How many lives all interpreters had.
    pub lives: u64,
    /// How many notes all journals have.
    pub notes: u64,
    /// What the steps were drawn from.
    pub seed: u64,
    /// How many steps were drawn.
    pub steps: u64,
    /// How many of them did nothing.
    pub unfit: u64,
}

/// What performers on threads came to.
#[derive(Clone, Copy, Debug, PartialEq, Eq)]
pub struct JamSummary {
    /// How many bursts of calls each performer made.
    pub calls: u64,
    /// How many rows the log has.
    pub entries: u64,
    /// Whether each performer holds the log's document.
    pub equal: bool,
    /// How many performers there were.
    pub performers: u64,
}

/// The line of a summary of generated steps.
pub fn print_drill(alloc: Global, summary: &DrillSummary) -> Result<Vec<u8>, AllocError>
    ensures { IfOk result (λ line. line.items ≡ printed_line (drill_data summary.now)) }
{
    let value = drill_value(alloc, summary)?;
    print_value(alloc, &value)
}

/// The line of a summary of performers on threads.
pub fn print_jam(alloc: Global, summary: &JamSummary) -> Result<Vec<u8>, AllocError>
    ensures { IfOk result (λ line. line.items ≡ printed_line (jam_data summary.now)) }
{
    let value = jam_value(alloc, summary)?;
    print_value(alloc, &value)
}

// The summary of generated steps as an object.
fn drill_value(alloc: Global, summary: &DrillSummary) -> Result<Value, AllocError>
    ensures { IfOk result (λ v. view v ≡ drill_data summary.now) }
{
    json!(in alloc; {
        "blocks": summary.blocks,
        "entries": summary.entries,
        "equal": summary.equal,
        "lives": summary.lives,
        "notes": summary.notes,
        "seed": summary.seed,
        "steps": summary.steps,
        "unfit": summary.unfit
    })
}

// The summary of performers on threads as an object.
fn jam_value(alloc: Global, summary: &JamSummary) -> Result<Value, AllocError>
    ensures { IfOk result (λ v. view v ≡ jam_data summary.now) }
{
    json!(in alloc; {
        "calls": summary.calls,
        "entries": summary.entries,
        "equal": summary.equal,
        "performers": summary.performers
    })
}
