//! Requests, read from their lines.
ghost use Rattle.std.specs.Prelude.{◌≡◌, IfOk};
ghost use Rattle.serde_json.specs.View.{view};
ghost use Rattle.wire_json.specs.Reads.{Answers};
ghost use Rattle.wire_json.specs.Requests.{num_of, edit_of, eval_of, reset_of, call_of_word, call_of, join_request, member_request, down_request, snap_request, stay_request, back_request, request_of_word, request_of_data, request_of_line};

use crate::fields::{
    count_field, lang_field, name_field, op_field, text_field, who_field, word_field,
};
use crate::read::{Read, answer, read_value};
use crate::values::read_count;
use serde_json::Value;
use std::alloc::{AllocError, Global};
use troop_entry::{Call, Request};

/// The request of a line, with its number; 0 is none.
pub fn read_request(alloc: Global, line: &[u8]) -> Read<Request>
    ensures { Answers result (request_of_line line.now) }
{
    answer(request_in(alloc, line))
}

// The request of a line, if it is one.
fn request_in(alloc: Global, line: &[u8]) -> Result<Option<Request>, AllocError>
    ensures { IfOk result (λ request. request ≡ request_of_line line.now) }
{
    match read_value(alloc, line)? {
        Some(value) => read_request_value(alloc, &value),
        None => Ok(None),
    }
}

// The request of a value.
fn read_request_value(alloc: Global, value: &Value) -> Result<Option<Request>, AllocError>
    ensures { IfOk result (λ request. request ≡ request_of_data (view value.now)) }
{
    match word_field(value, "call") {
        Some(word) => read_request_of(alloc, word, value),
        None => Ok(None),
    }
}

// The request of this word.
fn read_request_of(alloc: Global, word: &str, value: &Value) -> Result<Option<Request>, AllocError>
    ensures { IfOk result (λ request. request ≡ request_of_word word.now (view value.now)) }
{
    match word {
        "join" => read_join(alloc, value),
        "down" => Ok(read_down(value)),
        "snap" => Ok(read_snap(value)),
        "stay" => read_stay(alloc, value),
        "back" => Ok(read_back(value)),
        _ => read_member_request(alloc, word, value),
    }
}

// A join, by the keys `name` and `lang`.
fn read_join(alloc: Global, value: &Value) -> Result<Option<Request>, AllocError>
    ensures { IfOk result (λ request. request ≡ join_request (view value.now)) }
{
    let Some(name) = name_field(alloc, value, "name")? else {
        return Ok(None);
    };
    Ok(lang_field(value, "lang").map(|lang| Request::Call {
        num: 0,
        call: Call::Join { name, lang },
    }))
}

// A member's call under its number.
fn read_member_request(
    alloc: Global,
    word: &str,
    value: &Value,
) -> Result<Option<Request>, AllocError>
    ensures { IfOk result (λ request. request ≡ member_request word.now (view value.now)) }
{
    let Some(num) = read_num(value) else {
        return Ok(None);
    };
    Ok(read_call_of(alloc, word, value)?.map(|call| Request::Call { num, call }))
}

// A down line, by the keys `from` and `who`.
fn read_down(value: &Value) -> Option<Request>
    ensures { result ≡ down_request (view value.now) }
{
    let start = count_field(value, "from")?;
    let who = who_field(value, "who")?;
    Some(Request::Down { start, who })
}

// A down line that begins with a snapshot, by the key `who`.
fn read_snap(value: &Value) -> Option<Request>
    ensures { result ≡ snap_request (view value.now) }
{
    let who = who_field(value, "who")?;
    Some(Request::Snap { who })
}

// A join that stays, by the keys `name` and `lang`.
fn read_stay(alloc: Global, value: &Value) -> Result<Option<Request>, AllocError>
    ensures { IfOk result (λ request. request ≡ stay_request (view value.now)) }
{
    let Some(name) = name_field(alloc, value, "name")? else {
        return Ok(None);
    };
    Ok(lang_field(value, "lang").map(|lang| Request::Stay { name, lang }))
}

// A performer that goes on, by the key `who`.
fn read_back(value: &Value) -> Option<Request>
    ensures { result ≡ back_request (view value.now) }
{
    let who = who_field(value, "who")?;
    Some(Request::Back { who })
}

/// A member's call: a leave, an edit, an evaluation or a reset.
pub fn read_call(alloc: Global, value: &Value) -> Result<Option<Call>, AllocError>
    ensures { IfOk result (λ call. call ≡ call_of (view value.now)) }
{
    match word_field(value, "call") {
        Some(word) => read_call_of(alloc, word, value),
        None => Ok(None),
    }
}

/// The number under which a call is asked; 0 is none, and stands for a key that isn't there.
pub fn read_num(value: &Value) -> Option<u64>
    ensures { result ≡ num_of (view value.now) }
{
    match value.get("num") {
        Some(value) => read_count(value),
        None => Some(0),
    }
}

// A member's call of this word.
fn read_call_of(alloc: Global, word: &str, value: &Value) -> Result<Option<Call>, AllocError>
    ensures { IfOk result (λ call. call ≡ call_of_word word.now (view value.now)) }
{
    match word {
        "leave" => Ok(Some(Call::Leave)),
        "edit" => read_edit(alloc, value),
        "eval" => read_eval(alloc, value),
        "reset" => read_reset(alloc, value),
        _ => Ok(None),
    }
}

// An edit, by the keys `seen` and `op`.
fn read_edit(alloc: Global, value: &Value) -> Result<Option<Call>, AllocError>
    ensures { IfOk result (λ call. call ≡ edit_of (view value.now)) }
{
    let Some(seen) = count_field(value, "seen") else {
        return Ok(None);
    };
    Ok(op_field(alloc, value, "op")?.map(|op| Call::Edit { seen, op }))
}

// An evaluation, by the keys `seen` and `text`.
fn read_eval(alloc: Global, value: &Value) -> Result<Option<Call>, AllocError>
    ensures { IfOk result (λ call. call ≡ eval_of (view value.now)) }
{
    let Some(seen) = count_field(value, "seen") else {
        return Ok(None);
    };
    Ok(text_field(alloc, value, "text")?.map(|text| Call::Eval { seen, text }))
}

// A reset, by the keys `seen` and `text`.
fn read_reset(alloc: Global, value: &Value) -> Result<Option<Call>, AllocError>
    ensures { IfOk result (λ call. call ≡ reset_of (view value.now)) }
{
    let Some(seen) = count_field(value, "seen") else {
        return Ok(None);
    };
    Ok(text_field(alloc, value, "text")?.map(|text| Call::Reset { seen, text }))
}
