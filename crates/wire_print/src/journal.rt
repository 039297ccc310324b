//! The printed lines of an interpreter's lives and of its journal.
ghost use Rattle.std.specs.Prelude.{◌≡◌, IfOk, map};
ghost use Rattle.serde_json.specs.Data.{array};
ghost use Rattle.serde_json.specs.View.{view, items_of};
ghost use Rattle.wire_print.specs.Printed.{printed_line, life_data, lives_data, note_data, journal_data};

use crate::line::print_value;
use serde_json::{Value, json};
use std::alloc::{AllocError, Global};
use troop_entry::Note;

/// The line of the lives of a performer's interpreter: the bytes of each, in order.
pub fn print_lives(alloc: Global, who: u32, lives: &[Vec<u8>]) -> Result<Vec<u8>, AllocError>
    ensures { IfOk result (λ line. line.items ≡ printed_line (lives_data who (map (λ life. life.items) lives.now))) }
{
    let value = lives_object(alloc, who, lives)?;
    print_value(alloc, &value)
}

/// The line of the journal of a performer's interpreter.
pub fn print_journal(alloc: Global, who: u32, notes: &[Note]) -> Result<Vec<u8>, AllocError>
    ensures { IfOk result (λ line. line.items ≡ printed_line (journal_data who notes.now)) }
{
    let value = journal_object(alloc, who, notes)?;
    print_value(alloc, &value)
}

// The object of the lives.
fn lives_object(alloc: Global, who: u32, lives: &[Vec<u8>]) -> Result<Value, AllocError>
    ensures { IfOk result (λ v. view v ≡ lives_data who (map (λ life. life.items) lives.now)) }
{
    let lives = lives_value(alloc, lives)?;
    json!(in alloc; {"lives": lives, "who": who})
}

// The object of the journal.
fn journal_object(alloc: Global, who: u32, notes: &[Note]) -> Result<Value, AllocError>
    ensures { IfOk result (λ v. view v ≡ journal_data who notes.now) }
{
    let notes = notes_value(alloc, notes)?;
    json!(in alloc; {"journal": notes, "who": who})
}

// The lives as an array.
fn lives_value(alloc: Global, lives: &[Vec<u8>]) -> Result<Value, AllocError>
    ensures { IfOk result (λ v. view v ≡ array (items_of (map life_data (map (λ life. life.items) lives.now)))) }
{
    let mut items = Vec::new(alloc);
    for life in lives {
        items.push(life_value(alloc, life)?)?;
    }
    Ok(Value::Array(items))
}

// The bytes of a life in lower-case hexadecimal.
fn life_value(alloc: Global, life: &[u8]) -> Result<Value, AllocError>
    ensures { IfOk result (λ v. view v ≡ life_data life.now) }
{
    Ok(Value::String(hex::encode(alloc, life)?))
}

// The notes as an array.
fn notes_value(alloc: Global, notes: &[Note]) -> Result<Value, AllocError>
    ensures { IfOk result (λ v. view v ≡ array (items_of (map note_data notes.now))) }
{
    let mut items = Vec::new(alloc);
    for note in notes {
        items.push(note_value(alloc, note)?)?;
    }
    Ok(Value::Array(items))
}

// A note as an array.
fn note_value(alloc: Global, note: &Note) -> Result<Value, AllocError>
    ensures { IfOk result (λ v. view v ≡ note_data note.now) }
{
    match *note {
        Note::Born { life, place } => json!(in alloc; ["born", life, place]),
        Note::BootCut { life, bytes } => json!(in alloc; ["bootcut", life, bytes]),
        Note::Cut { life, place, bytes } => json!(in alloc; ["cut", life, place, bytes]),
        Note::Skipped { place } => json!(in alloc; ["skipped", place]),
        Note::Unclosed { life } => json!(in alloc; ["unclosed", life]),
    }
}
