//! Texts, languages and operations, as JSON values.
ghost use Rattle.std.specs.Prelude.{◌≡◌, ◌≤◌, map, All, IfOk, OnOk, encode_utf8_all, string_bytes};
ghost use Rattle.serde_json.specs.Data.{array};
ghost use Rattle.serde_json.specs.View.{view, items_of};
ghost use Rattle.ot_text.specs.Parts.{part_base, base_of};
ghost use Rattle.wire_print.specs.Printed.{lang_word, part_data, op_data};
ghost use Rattle.wire_print.specs.Within.{IsSpelled, PartIsSpelled, OpIsSpelled};

use ot_text::{MAX_LEN, Op, Part, Text};
use serde_json::Value;
use std::alloc::{AllocError, Global};
use troop_entry::Lang;

/// The text in UTF-8.
pub fn utf8_of(alloc: Global, text: &Text) -> Result<String, AllocError>
    ensures value { IfOk result (λ string. string_bytes string ≡ encode_utf8_all text.now) }
    ensures spelled { IsSpelled text.now }
{
    text.chars().iter().copied().collect(alloc)
}

/// The word of a language.
pub fn lang_word(lang: Lang) -> &'static str
    ensures { result.now ≡ lang_word lang }
{
    match lang {
        Lang::Lines => "lines",
        Lang::Ghci => "ghci",
    }
}

/// An operation as an array.
pub fn op_value(alloc: Global, op: &Op) -> Result<Value, AllocError>
    ensures value { IfOk result (λ v. view v ≡ op_data op.now) }
    ensures spelled { OnOk result (OpIsSpelled op.now) }
{
    parts_value(alloc, op.parts())
}

// Parts as an array.
fn parts_value(alloc: Global, parts: &[Part]) -> Result<Value, AllocError>
    requires { base_of parts.now ≤ MAX_LEN }
    ensures value { IfOk result (λ v. view v ≡ array (items_of (map part_data parts.now))) }
    ensures spelled { OnOk result (All PartIsSpelled parts.now) }
{
    let mut items = Vec::new(alloc);
    for part in parts {
        items.push(part_value(alloc, part)?)?;
    }
    Ok(Value::Array(items))
}

// A part as a number or a string.
fn part_value(alloc: Global, part: &Part) -> Result<Value, AllocError>
    requires { part_base part.now ≤ MAX_LEN }
    ensures value { IfOk result (λ v. view v ≡ part_data part.now) }
    ensures spelled { OnOk result (PartIsSpelled part.now) }
{
    match part {
        Part::Retain(count) => Ok(Value::from(*count)),
        Part::Insert(text) => Ok(Value::String(utf8_of(alloc, text)?)),
        Part::Delete(count) => Ok(Value::from(-(*count as i64))),
    }
}
