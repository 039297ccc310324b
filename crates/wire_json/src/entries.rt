//! Entries, read from their lines.
ghost use Rattle.std.specs.Prelude.{◌≡◌, IfOk};
ghost use Rattle.serde_json.specs.View.{view};
ghost use Rattle.wire_json.specs.Reads.{Answers};
ghost use Rattle.wire_json.specs.Entries.{join_deed, deed_of_word, deed_field, entry_of_data, entry_of_line};

use crate::fields::{
    count_field, lang_field, name_field, op_field, performer_field, text_field, word_field,
};
use crate::read::{Read, answer, read_value};
use serde_json::Value;
use std::alloc::{AllocError, Global};
use troop_entry::{Deed, Entry};

/// The entry of a line.
pub fn read_entry(alloc: Global, line: &[u8]) -> Read<Entry>
    ensures { Answers result (entry_of_line line.now) }
{
    answer(entry_in(alloc, line))
}

// The entry of a line, if it is one.
fn entry_in(alloc: Global, line: &[u8]) -> Result<Option<Entry>, AllocError>
    ensures { IfOk result (λ entry. entry ≡ entry_of_line line.now) }
{
    match read_value(alloc, line)? {
        Some(value) => read_entry_value(alloc, &value),
        None => Ok(None),
    }
}

// The entry of a value.
fn read_entry_value(alloc: Global, value: &Value) -> Result<Option<Entry>, AllocError>
    ensures { IfOk result (λ entry. entry ≡ entry_of_data (view value.now)) }
{
    let Some(at) = count_field(value, "at") else {
        return Ok(None);
    };
    let Some(who) = performer_field(value, "who") else {
        return Ok(None);
    };
    let Some(seen) = count_field(value, "seen") else {
        return Ok(None);
    };
    match read_deed(alloc, value)? {
        Some(deed) => Ok(Some(Entry {
            at,
            who,
            seen,
            deed,
        })),
        None => Ok(None),
    }
}

// The deed of an entry.
fn read_deed(alloc: Global, value: &Value) -> Result<Option<Deed>, AllocError>
    ensures { IfOk result (λ deed. deed ≡ deed_field (view value.now)) }
{
    match word_field(value, "deed") {
        Some(word) => read_deed_of(alloc, word, value),
        None => Ok(None),
    }
}

// The deed of this word.
fn read_deed_of(alloc: Global, word: &str, value: &Value) -> Result<Option<Deed>, AllocError>
    ensures { IfOk result (λ deed. deed ≡ deed_of_word word.now (view value.now)) }
{
    match word {
        "join" => read_join(alloc, value),
        "leave" => Ok(Some(Deed::Leave)),
        "edit" => Ok(op_field(alloc, value, "op")?.map(Deed::Edit)),
        "eval" => Ok(text_field(alloc, value, "text")?.map(Deed::Eval)),
        "reset" => Ok(op_field(alloc, value, "op")?.map(Deed::Reset)),
        _ => Ok(None),
    }
}

// A join, by the keys `name` and `lang`.
fn read_join(alloc: Global, value: &Value) -> Result<Option<Deed>, AllocError>
    ensures { IfOk result (λ deed. deed ≡ join_deed (view value.now)) }
{
    let Some(name) = name_field(alloc, value, "name")? else {
        return Ok(None);
    };
    Ok(lang_field(value, "lang").map(|lang| Deed::Join { name, lang }))
}
