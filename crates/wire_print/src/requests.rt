//! The printed lines of requests.
ghost use Rattle.std.specs.Prelude.{◌≡◌, Some, IfOk, OnOk};
ghost use Rattle.serde_json.specs.View.{view};
ghost use Rattle.troop_entry.specs.declared.call.Call.TheVariants as call;
ghost use Rattle.troop_entry.specs.declared.call.Request.TheVariants as request;
ghost use Rattle.wire_json.specs.Requests.{request_of_line};
ghost use Rattle.wire_print.specs.Within.{RequestIsSpelled, RequestIsWithin};
ghost use Rattle.wire_print.specs.Printed.{printed_text, printed_line, request_data};

use crate::line::print_value;
use crate::texts::{lang_word, op_value, utf8_of};
use ot_text::{Op, Text};
use serde_json::{Value, json};
use std::alloc::{AllocError, Global};
use troop_entry::{Call, Lang, Request};

/// The line of a request. A number of at least 1 is printed; a join has none. Within the limits it is read back as the same
/// request.
pub fn print_request(alloc: Global, request: &Request) -> Result<Vec<u8>, AllocError>
    ensures line { IfOk result (λ line. line.items ≡ printed_line (request_data request.now)) }
    ensures reads_back { OnOk result (RequestIsWithin request.now
        → request_of_line (printed_text (request_data request.now)) ≡ Some request.now) }
{
    let value = request_value(alloc, request)?;
    print_value(alloc, &value)
}

// A request as an object.
fn request_value(alloc: Global, request: &Request) -> Result<Value, AllocError>
    ensures value { IfOk result (λ v. view v ≡ request_data request.now) }
    ensures spelled { OnOk result (RequestIsSpelled request.now) }
{
    match request {
        Request::Call { num, call } => call_value(alloc, *num, call),
        Request::Stay { name, lang } => stay_value(alloc, name, *lang),
        Request::Back { who } => back_value(alloc, *who),
        Request::Down { start, who } => down_value(alloc, *start, *who),
        Request::Snap { who } => snap_value(alloc, *who),
    }
}

// A call under its number.
fn call_value(alloc: Global, num: u64, call: &Call) -> Result<Value, AllocError>
    ensures value { IfOk result (λ v. view v ≡ request_data (request.Call num call.now)) }
    ensures spelled { OnOk result (RequestIsSpelled (request.Call num call.now)) }
{
    match call {
        Call::Join { name, lang } => join_value(alloc, num, name, *lang),
        Call::Leave => leave_value(alloc, num),
        Call::Edit { seen, op } => edit_value(alloc, num, *seen, op),
        Call::Eval { seen, text } => eval_value(alloc, num, *seen, text),
        Call::Reset { seen, text } => reset_value(alloc, num, *seen, text),
    }
}

// A join, whose number isn't printed.
fn join_value(alloc: Global, _num: u64, name: &Text, lang: Lang) -> Result<Value, AllocError>
    ensures value { IfOk result (λ v. view v ≡ request_data (request.Call _num (call.Join name.now lang))) }
    ensures spelled { OnOk result (RequestIsSpelled (request.Call _num (call.Join name.now lang))) }
{
    let name = utf8_of(alloc, name)?;
    json!(in alloc; {"call": "join", "lang": lang_word(lang), "name": name})
}

// A leave.
fn leave_value(alloc: Global, num: u64) -> Result<Value, AllocError>
    ensures { IfOk result (λ v. view v ≡ request_data (request.Call num call.Leave)) }
{
    if 1 <= num {
        json!(in alloc; {"call": "leave", "num": num})
    } else {
        json!(in alloc; {"call": "leave"})
    }
}

// An edit.
fn edit_value(alloc: Global, num: u64, seen: u64, op: &Op) -> Result<Value, AllocError>
    ensures value { IfOk result (λ v. view v ≡ request_data (request.Call num (call.Edit seen op.now))) }
    ensures spelled { OnOk result (RequestIsSpelled (request.Call num (call.Edit seen op.now))) }
{
    let op = op_value(alloc, op)?;
    if 1 <= num {
        json!(in alloc; {"call": "edit", "num": num, "op": op, "seen": seen})
    } else {
        json!(in alloc; {"call": "edit", "op": op, "seen": seen})
    }
}

// An evaluation.
fn eval_value(alloc: Global, num: u64, seen: u64, text: &Text) -> Result<Value, AllocError>
    ensures value { IfOk result (λ v. view v ≡ request_data (request.Call num (call.Eval seen text.now))) }
    ensures spelled { OnOk result (RequestIsSpelled (request.Call num (call.Eval seen text.now))) }
{
    let text = utf8_of(alloc, text)?;
    if 1 <= num {
        json!(in alloc; {"call": "eval", "num": num, "seen": seen, "text": text})
    } else {
        json!(in alloc; {"call": "eval", "seen": seen, "text": text})
    }
}

// A reset.
fn reset_value(alloc: Global, num: u64, seen: u64, text: &Text) -> Result<Value, AllocError>
    ensures value { IfOk result (λ v. view v ≡ request_data (request.Call num (call.Reset seen text.now))) }
    ensures spelled { OnOk result (RequestIsSpelled (request.Call num (call.Reset seen text.now))) }
{
    let text = utf8_of(alloc, text)?;
    if 1 <= num {
        json!(in alloc; {"call": "reset", "num": num, "seen": seen, "text": text})
    } else {
        json!(in alloc; {"call": "reset", "seen": seen, "text": text})
    }
}

// A join that stays.
fn stay_value(alloc: Global, name: &Text, lang: Lang) -> Result<Value, AllocError>
    ensures value { IfOk result (λ v. view v ≡ request_data (request.Stay name.now lang)) }
    ensures spelled { OnOk result (RequestIsSpelled (request.Stay name.now lang)) }
{
    let name = utf8_of(alloc, name)?;
    json!(in alloc; {"call": "stay", "lang": lang_word(lang), "name": name})
}

// A performer that goes on.
fn back_value(alloc: Global, who: u32) -> Result<Value, AllocError>
    ensures value { IfOk result (λ v. view v ≡ request_data (request.Back who)) }
    ensures spelled { OnOk result (RequestIsSpelled (request.Back who)) }
{
    json!(in alloc; {"call": "back", "who": who})
}

// A down line.
fn down_value(alloc: Global, start: u64, who: u32) -> Result<Value, AllocError>
    ensures value { IfOk result (λ v. view v ≡ request_data (request.Down start who)) }
    ensures spelled { OnOk result (RequestIsSpelled (request.Down start who)) }
{
    json!(in alloc; {"call": "down", "from": start, "who": who})
}

// A down line that begins with a snapshot.
fn snap_value(alloc: Global, who: u32) -> Result<Value, AllocError>
    ensures value { IfOk result (λ v. view v ≡ request_data (request.Snap who)) }
    ensures spelled { OnOk result (RequestIsSpelled (request.Snap who)) }
{
    json!(in alloc; {"call": "snap", "who": who})
}
