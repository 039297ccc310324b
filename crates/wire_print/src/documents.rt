//! The printed lines of documents: of a log, of a performer, and a snapshot.
ghost use Rattle.std.specs.Prelude.{◌≡◌, Some, All, IfOk, OnOk, map, encode_utf8_all, string_bytes};
ghost use Rattle.serde_json.specs.Data.{array};
ghost use Rattle.serde_json.specs.View.{view, items_of};
ghost use Rattle.ot_text.specs.Marked.{marks_of, runs_of, text_of};
ghost use Rattle.author_marks.specs.Runs.{run_of};
ghost use Rattle.wire_json.specs.Snapshots.{snapshot_of_line};
ghost use Rattle.wire_print.specs.Within.{IsSpelled, IsWho, SnapshotIsWithin};
ghost use Rattle.wire_print.specs.Printed.{printed_text, printed_line, run_data, runs_data, server_data, performer_data, snapshot_data};

use crate::line::print_value;
use crate::texts::utf8_of;
use author_marks::Run;
use ot_text::Text;
use serde_json::{Value, json};
use std::alloc::{AllocError, Global};
use troop_doc::Doc;

/// The server's line: how many entries the log has, and its document.
pub fn print_desk(alloc: Global, entries: u64, doc: &Doc) -> Result<Vec<u8>, AllocError>
    ensures { IfOk result (λ line. line.items ≡ printed_line (server_data entries doc.now.pairs)) }
{
    let value = server_value(alloc, entries, doc)?;
    print_value(alloc, &value)
}

/// A performer's line: its name and number, how many operations it awaits and holds back, how many entries it took, and the
/// document that it holds.
pub fn print_stage(
    alloc: Global,
    name: &Text,
    who: u32,
    awaits: u64,
    taken: u64,
    doc: &Doc,
) -> Result<Vec<u8>, AllocError>
    ensures { IfOk result (λ line. line.items ≡ printed_line (performer_data name.now who awaits taken doc.now.pairs)) }
{
    let value = performer_value(alloc, name, who, awaits, taken, doc)?;
    print_value(alloc, &value)
}

/// The line of a snapshot: how many entries made the document, and the document. Within the limits it is read back as the
/// same number and the same characters with their marks.
pub fn print_snapshot(alloc: Global, at: u64, doc: &Doc) -> Result<Vec<u8>, AllocError>
    ensures line { IfOk result (λ line. line.items ≡ printed_line (snapshot_data at doc.now.pairs)) }
    ensures reads_back { OnOk result (SnapshotIsWithin at doc.now.pairs
        → snapshot_of_line (printed_text (snapshot_data at doc.now.pairs)) ≡ Some (at, doc.now.pairs)) }
{
    let value = snapshot_value(alloc, at, doc)?;
    print_value(alloc, &value)
}

// The server's object.
fn server_value(alloc: Global, entries: u64, doc: &Doc) -> Result<Value, AllocError>
    ensures { IfOk result (λ v. view v ≡ server_data entries doc.now.pairs) }
{
    let marks = marks_value(alloc, doc)?;
    let text = text_of(alloc, doc)?;
    json!(in alloc; {"entries": entries, "marks": marks, "text": text})
}

// A performer's object.
fn performer_value(
    alloc: Global,
    name: &Text,
    who: u32,
    awaits: u64,
    taken: u64,
    doc: &Doc,
) -> Result<Value, AllocError>
    ensures { IfOk result (λ v. view v ≡ performer_data name.now who awaits taken doc.now.pairs) }
{
    let marks = marks_value(alloc, doc)?;
    let name = utf8_of(alloc, name)?;
    let text = text_of(alloc, doc)?;
    json!(in alloc; {"awaits": awaits, "marks": marks, "name": name, "taken": taken, "text": text, "who": who})
}

// A snapshot's object.
fn snapshot_value(alloc: Global, at: u64, doc: &Doc) -> Result<Value, AllocError>
    ensures value { IfOk result (λ v. view v ≡ snapshot_data at doc.now.pairs) }
    ensures text { OnOk result (IsSpelled (text_of doc.now.pairs)) }
    ensures marks { OnOk result (All (λ run. IsWho run.who) (map run_of (runs_of (marks_of doc.now.pairs)))) }
{
    let marks = marks_value(alloc, doc)?;
    let text = text_of(alloc, doc)?;
    json!(in alloc; {"at": at, "marks": marks, "text": text})
}

// A document's text in UTF-8.
fn text_of(alloc: Global, doc: &Doc) -> Result<String, AllocError>
    ensures value { IfOk result (λ string. string_bytes string ≡ encode_utf8_all (text_of doc.now.pairs)) }
    ensures spelled { OnOk result (IsSpelled (text_of doc.now.pairs)) }
{
    let text = doc.text()?;
    utf8_of(alloc, &text)
}

// The runs of a document's marks.
fn marks_value(alloc: Global, doc: &Doc) -> Result<Value, AllocError>
    ensures value { IfOk result (λ v. view v ≡ runs_data doc.now.pairs) }
    ensures numbers { OnOk result (All (λ run. IsWho run.who) (map run_of (runs_of (marks_of doc.now.pairs)))) }
{
    let runs = doc.runs()?;
    runs_value(alloc, &runs)
}

// The runs of marks as an array of pairs.
fn runs_value(alloc: Global, runs: &[Run]) -> Result<Value, AllocError>
    ensures value { IfOk result (λ v. view v ≡ array (items_of (map run_data runs.now))) }
    ensures numbers { OnOk result (All (λ run. IsWho run.who) runs.now) }
{
    let mut items = Vec::new(alloc);
    for run in runs {
        items.push(run_value(alloc, run)?)?;
    }
    Ok(Value::Array(items))
}

// A run of marks as a pair.
fn run_value(alloc: Global, run: &Run) -> Result<Value, AllocError>
    ensures value { IfOk result (λ v. view v ≡ run_data run.now) }
    ensures number { OnOk result (IsWho run.now.who) }
{
    json!(in alloc; [run.who, run.count])
}
