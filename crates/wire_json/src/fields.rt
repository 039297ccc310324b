//! The fields of an object.
ghost use Rattle.std.specs.Prelude.{◌≡◌, IfOk, option_map};
ghost use Rattle.serde_json.specs.View.{view};
ghost use Rattle.serde_json.specs.Find.{as_str, as_bool};
ghost use Rattle.wire_json.specs.Values.{count_of, who_of, performer_of, text_value, name_of, lang_of};
ghost use Rattle.wire_json.specs.Operations.{op_of};
ghost use Rattle.wire_json.specs.Fields.{field};
ghost use Rattle.wire_json.specs.Replies.{is_set};

use crate::operations::read_op;
use crate::values::{read_count, read_lang, read_name, read_performer, read_text, read_who};
use ot_text::{Op, Text};
use serde_json::Value;
use std::alloc::{AllocError, Global};
use troop_entry::Lang;

/// The word at a key.
pub fn word_field<'a>(object: &'a Value, key: &str) -> Option<&'a str>
    ensures { option_map (λ word. word.now) result ≡ field as_str key.now (view object.now) }
{
    object.get(key)?.as_str()
}

/// The count at a key.
pub fn count_field(object: &Value, key: &str) -> Option<u64>
    ensures { result ≡ field count_of key.now (view object.now) }
{
    read_count(object.get(key)?)
}

/// Whether `true` stands at a key.
pub fn flag_field(object: &Value, key: &str) -> bool
    ensures { result ≡ is_set (field as_bool key.now (view object.now)) }
{
    match object.get(key) {
        Some(value) => value.as_bool() == Some(true),
        None => false,
    }
}

/// The number of a performer at a key.
pub fn who_field(object: &Value, key: &str) -> Option<u32>
    ensures { result ≡ field who_of key.now (view object.now) }
{
    read_who(object.get(key)?)
}

/// The number of a performer at a key, at least 1.
pub fn performer_field(object: &Value, key: &str) -> Option<u32>
    ensures { result ≡ field performer_of key.now (view object.now) }
{
    read_performer(object.get(key)?)
}

/// The language at a key.
pub fn lang_field(object: &Value, key: &str) -> Option<Lang>
    ensures { result ≡ field lang_of key.now (view object.now) }
{
    read_lang(object.get(key)?)
}

/// The name at a key.
pub fn name_field(alloc: Global, object: &Value, key: &str) -> Result<Option<Text>, AllocError>
    ensures { IfOk result (λ name. name ≡ field name_of key.now (view object.now)) }
{
    match object.get(key) {
        Some(value) => read_name(alloc, value),
        None => Ok(None),
    }
}

/// The text at a key.
pub fn text_field(alloc: Global, object: &Value, key: &str) -> Result<Option<Text>, AllocError>
    ensures { IfOk result (λ text. text ≡ field text_value key.now (view object.now)) }
{
    match object.get(key) {
        Some(value) => read_text(alloc, value),
        None => Ok(None),
    }
}

/// The operation at a key.
pub fn op_field(alloc: Global, object: &Value, key: &str) -> Result<Option<Op>, AllocError>
    ensures { IfOk result (λ op. op ≡ field op_of key.now (view object.now)) }
{
    match object.get(key) {
        Some(value) => read_op(alloc, value),
        None => Ok(None),
    }
}
