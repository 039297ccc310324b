//! Snapshots, read from their lines.
ghost use Rattle.std.specs.Prelude.{◌≡◌, ◌<◌, ◌^◌, ◌++◌, IfOk, OnOk, length, map, option_map};
ghost use Rattle.serde_json.specs.View.{view};
ghost use Rattle.ot_text.specs.Marked.{char_by};
ghost use Rattle.author_marks.specs.Runs.{run_of};
ghost use Rattle.wire_json.specs.Building.{pair_of};
ghost use Rattle.wire_json.specs.Snapshots.{run_of_pair, run_of_list, run_value, runs_of_list, runs_value, marked_of, marked_field, snapshot_of_data, snapshot_of_line, snapshot_told, AnswersSnapshot};

use crate::fields::{count_field, text_field};
use crate::read::{Read, read_value};
use crate::values::{read_count, read_performer};
use author_marks::Run;
use ot_text::{OpBuilder, Text};
use serde_json::Value;
use std::alloc::{AllocError, Global};
use troop_doc::Doc;

/// What a down line may begin with, in place of the entries in front of it.
#[derive(Debug, Drop)]
pub struct Snapshot {
    /// How many entries made the document.
    pub at: u64,
    /// The document.
    pub doc: Doc,
}

/// The snapshot of a line. Neighbouring runs of its marks may have one number.
pub fn read_snapshot(alloc: Global, line: &[u8]) -> Read<Snapshot>
    ensures { AnswersSnapshot result (snapshot_of_line line.now) }
{
    match snapshot_in(alloc, line) {
        Ok(Some(snapshot)) => Read::Value(snapshot),
        Ok(None) => Read::Bad,
        Err(_) => Read::Memory,
    }
}

// The snapshot of a line, if it is one.
fn snapshot_in(alloc: Global, line: &[u8]) -> Result<Option<Snapshot>, AllocError>
    ensures { IfOk result (λ snapshot. option_map snapshot_told snapshot ≡ snapshot_of_line line.now) }
{
    match read_value(alloc, line)? {
        Some(value) => read_snapshot_value(alloc, &value),
        None => Ok(None),
    }
}

// The snapshot of a value.
fn read_snapshot_value(alloc: Global, value: &Value) -> Result<Option<Snapshot>, AllocError>
    ensures { IfOk result (λ snapshot. option_map snapshot_told snapshot ≡ snapshot_of_data (view value.now)) }
{
    let Some(at) = count_field(value, "at") else {
        return Ok(None);
    };
    Ok(read_marked(alloc, value)?.map(|doc| Snapshot { at, doc }))
}

// The document of a value, by the keys `marks` and `text`.
fn read_marked(alloc: Global, value: &Value) -> Result<Option<Doc>, AllocError>
    ensures { IfOk result (λ doc. option_map (λ d. d.pairs) doc ≡ marked_field (view value.now)) }
{
    let Some(runs) = value.get("marks") else {
        return Ok(None);
    };
    let Some(runs) = read_runs(alloc, runs)? else {
        return Ok(None);
    };
    match text_field(alloc, value, "text")? {
        Some(text) => marked_doc(alloc, &runs, &text),
        None => Ok(None),
    }
}

// The runs of a value.
fn read_runs(alloc: Global, value: &Value) -> Result<Option<Vec<Run>>, AllocError>
    ensures { IfOk result (λ runs. option_map (λ v. map pair_of v.items) runs ≡ runs_value (view value.now)) }
{
    match value.as_array() {
        Some(items) => runs_in(alloc, items.as_slice()),
        None => Ok(None),
    }
}

// The runs of these elements.
fn runs_in(alloc: Global, items: &[Value]) -> Result<Option<Vec<Run>>, AllocError>
    ensures { IfOk result (λ runs. option_map (λ v. map pair_of v.items) runs ≡ runs_of_list (map view items.now)) }
{
    let mut runs = Vec::new(alloc);
    for item in items {
        let Some(run) = read_run(item) else {
            return Ok(None);
        };
        runs.push(run)?;
    }
    Ok(Some(runs))
}

// A run of marks: an array of two.
fn read_run(value: &Value) -> Option<Run>
    ensures { option_map pair_of result ≡ run_value (view value.now) }
{
    match value.as_array() {
        Some(items) => run_in(items.as_slice()),
        None => None,
    }
}

// The run of these elements, which are two.
fn run_in(items: &[Value]) -> Option<Run>
    ensures { option_map pair_of result ≡ run_of_list (map view items.now) }
{
    match items {
        [who, count] => run_of_pair(who, count),
        _ => None,
    }
}

// A run of this number and count.
fn run_of_pair(who: &Value, count: &Value) -> Option<Run>
    ensures { option_map pair_of result ≡ run_of_pair (view who.now) (view count.now) }
{
    let who = read_performer(who)?;
    let count = read_count(count).filter(|count| 1 <= *count)?;
    Some(Run { who, count })
}

// The text with the marks of these runs, if they have as many characters.
fn marked_doc(alloc: Global, runs: &[Run], text: &Text) -> Result<Option<Doc>, AllocError>
    ensures { IfOk result (λ doc. option_map (λ d. d.pairs) doc ≡ marked_of (map pair_of runs.now) text.now) }
{
    let mut doc = Doc::new(alloc);
    let mut rest = text.chars();
    for run in runs {
        if run.count > rest.len() as u64 {
            return Ok(None);
        }
        let (front, others) = rest.split_at(run.count as usize);
        put_behind(alloc, &mut doc, front, run.who)?;
        rest = others;
    }
    if rest.is_empty() {
        Ok(Some(doc))
    } else {
        Ok(None)
    }
}

// Puts these characters of this performer behind the document's.
fn put_behind(alloc: Global, doc: &mut Doc, chars: &[char], who: u32) -> Result<(), AllocError>
    requires { length chars.now < 2 ^ 61 }
    ensures { OnOk result (doc.new.pairs ≡ doc.old.pairs ++ map (char_by who) chars.now) }
{
    let mut builder = OpBuilder::new(alloc);
    builder.retain(doc.len())?;
    builder.insert_chars(chars)?;
    let op = builder.finish();
    doc.reserve_for(&op)?;
    doc.apply(&op, who);
    Ok(())
}
