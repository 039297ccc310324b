//! The steps of a script, read from its lines.
ghost use Rattle.std.specs.Prelude.{◌≡◌, IfOk, map};
ghost use Rattle.serde_json.specs.View.{view};
ghost use Rattle.wire_json.specs.Reads.{Answers};
ghost use Rattle.wire_json.specs.Steps.{guest_step, call_step, join_step, snap_step, edit_step, eval_step, reset_step, feed_step, deaf_step, step_alone, step_of_one, step_of_two, step_of_three, step_of_word, step_of_data, step_of_line};

use crate::operations::read_op;
use crate::read::{Read, answer, read_value};
use crate::requests::{read_call, read_num};
use crate::values::{read_count, read_lang, read_name, read_text, read_who};
use ot_text::{Op, Text};
use serde_json::Value;
use std::alloc::{AllocError, Global};
use troop_entry::{Call, Lang};

/// A step of a script.
#[derive(Debug, Drop)]
pub enum Step {
    /// A performer of this name joins, and is played by the script's calls.
    Guest { name: Text, lang: Lang },
    /// A call by the performer of this number, other than a join, under the number `num`; 0 is none.
    Call { who: u32, num: u64, call: Call },
    /// A performer of this name joins, with an interpreter that is given the boot text first.
    Join { name: Text, lang: Lang, boot: Text },
    /// The same, and its stage begins behind the join with the document there.
    SnapJoin { name: Text, lang: Lang, boot: Text },
    /// The performer types this.
    Edit { who: u32, op: Op },
    /// The performer evaluates the block round this place.
    Eval { who: u32, place: u64 },
    /// The performer resets its text.
    Reset { who: u32, text: Text },
    /// The performer's next call goes to the log.
    Serve { who: u32 },
    /// The performer takes the next entry.
    Take { who: u32 },
    /// The performer's interpreter is fed, and perhaps dies after so many bytes.
    Feed { who: u32, fail_after: Option<u64> },
    /// So many further starts of the performer's interpreter fail.
    Deaf { who: u32, starts: u64 },
    /// The performer wants to leave.
    Leave { who: u32 },
    /// The performer's last call is asked once more, under its number.
    Again { who: u32 },
    /// All is printed.
    Show,
}

/// The step of a line.
pub fn read_step(alloc: Global, line: &[u8]) -> Read<Step>
    ensures { Answers result (step_of_line line.now) }
{
    answer(step_in(alloc, line))
}

// The step of a line, if it is one.
fn step_in(alloc: Global, line: &[u8]) -> Result<Option<Step>, AllocError>
    ensures { IfOk result (λ step. step ≡ step_of_line line.now) }
{
    match read_value(alloc, line)? {
        Some(value) => read_array(alloc, &value),
        None => Ok(None),
    }
}

// The step of a value.
fn read_array(alloc: Global, value: &Value) -> Result<Option<Step>, AllocError>
    ensures { IfOk result (λ step. step ≡ step_of_data (view value.now)) }
{
    let Some(items) = value.as_array() else {
        return Ok(None);
    };
    let Some((first, others)) = items.split_first() else {
        return Ok(None);
    };
    match first.as_str() {
        Some(word) => read_others(alloc, word, others),
        None => Ok(None),
    }
}

// The step that a word and the elements behind it make.
fn read_others(alloc: Global, word: &str, others: &[Value]) -> Result<Option<Step>, AllocError>
    ensures { IfOk result (λ step. step ≡ step_of_word word.now (map view others.now)) }
{
    match others {
        [] => Ok(read_alone(word)),
        [who] => Ok(read_one(word, who)),
        [x, y] => read_two(alloc, word, x, y),
        [x, y, z] => read_three(alloc, word, x, y, z),
        _ => Ok(None),
    }
}

// The step of a word with nothing behind it.
fn read_alone(word: &str) -> Option<Step>
    ensures { result ≡ step_alone word.now }
{
    match word {
        "show" => Some(Step::Show),
        _ => None,
    }
}

// The step of a word with one element behind it.
fn read_one(word: &str, who: &Value) -> Option<Step>
    ensures { result ≡ step_of_one word.now (view who.now) }
{
    match word {
        "serve" => read_who(who).map(|who| Step::Serve { who }),
        "take" => read_who(who).map(|who| Step::Take { who }),
        "feed" => read_who(who).map(|who| Step::Feed {
            who,
            fail_after: None,
        }),
        "leave" => read_who(who).map(|who| Step::Leave { who }),
        "again" => read_who(who).map(|who| Step::Again { who }),
        _ => None,
    }
}

// The step of a word with two elements behind it.
fn read_two(alloc: Global, word: &str, x: &Value, y: &Value) -> Result<Option<Step>, AllocError>
    ensures { IfOk result (λ step. step ≡ step_of_two word.now (view x.now) (view y.now)) }
{
    match word {
        "guest" => read_guest(alloc, x, y),
        "call" => read_call_step(alloc, x, y),
        "edit" => read_edit(alloc, x, y),
        "eval" => Ok(read_eval(x, y)),
        "reset" => read_reset(alloc, x, y),
        "feed" => Ok(read_feed(x, y)),
        "deaf" => Ok(read_deaf(x, y)),
        _ => Ok(None),
    }
}

// The step of a word with three elements behind it.
fn read_three(
    alloc: Global,
    word: &str,
    x: &Value,
    y: &Value,
    z: &Value,
) -> Result<Option<Step>, AllocError>
    ensures { IfOk result (λ step. step ≡ step_of_three word.now (view x.now) (view y.now) (view z.now)) }
{
    match word {
        "join" => read_join(alloc, x, y, z),
        "snapjoin" => read_snap_join(alloc, x, y, z),
        _ => Ok(None),
    }
}

// A guest.
fn read_guest(alloc: Global, name: &Value, lang: &Value) -> Result<Option<Step>, AllocError>
    ensures { IfOk result (λ step. step ≡ guest_step (view name.now) (view lang.now)) }
{
    let Some(name) = read_name(alloc, name)? else {
        return Ok(None);
    };
    Ok(read_lang(lang).map(|lang| Step::Guest { name, lang }))
}

// A call under the number of its request.
fn read_call_step(alloc: Global, who: &Value, request: &Value) -> Result<Option<Step>, AllocError>
    ensures { IfOk result (λ step. step ≡ call_step (view who.now) (view request.now)) }
{
    let Some(who) = read_who(who) else {
        return Ok(None);
    };
    let Some(num) = read_num(request) else {
        return Ok(None);
    };
    Ok(read_call(alloc, request)?.map(|call| Step::Call { who, num, call }))
}

// A join with a boot text.
fn read_join(
    alloc: Global,
    name: &Value,
    lang: &Value,
    boot: &Value,
) -> Result<Option<Step>, AllocError>
    ensures { IfOk result (λ step. step ≡ join_step (view name.now) (view lang.now) (view boot.now)) }
{
    let Some(name) = read_name(alloc, name)? else {
        return Ok(None);
    };
    let Some(lang) = read_lang(lang) else {
        return Ok(None);
    };
    Ok(read_text(alloc, boot)?.map(|boot| Step::Join { name, lang, boot }))
}

// A join whose stage begins at the document.
fn read_snap_join(
    alloc: Global,
    name: &Value,
    lang: &Value,
    boot: &Value,
) -> Result<Option<Step>, AllocError>
    ensures { IfOk result (λ step. step ≡ snap_step (view name.now) (view lang.now) (view boot.now)) }
{
    let Some(name) = read_name(alloc, name)? else {
        return Ok(None);
    };
    let Some(lang) = read_lang(lang) else {
        return Ok(None);
    };
    Ok(read_text(alloc, boot)?.map(|boot| Step::SnapJoin { name, lang, boot }))
}

// An edit.
fn read_edit(alloc: Global, who: &Value, op: &Value) -> Result<Option<Step>, AllocError>
    ensures { IfOk result (λ step. step ≡ edit_step (view who.now) (view op.now)) }
{
    let Some(who) = read_who(who) else {
        return Ok(None);
    };
    Ok(read_op(alloc, op)?.map(|op| Step::Edit { who, op }))
}

// An evaluation.
fn read_eval(who: &Value, place: &Value) -> Option<Step>
    ensures { result ≡ eval_step (view who.now) (view place.now) }
{
    let who = read_who(who)?;
    let place = read_count(place)?;
    Some(Step::Eval { who, place })
}

// A reset.
fn read_reset(alloc: Global, who: &Value, text: &Value) -> Result<Option<Step>, AllocError>
    ensures { IfOk result (λ step. step ≡ reset_step (view who.now) (view text.now)) }
{
    let Some(who) = read_who(who) else {
        return Ok(None);
    };
    Ok(read_text(alloc, text)?.map(|text| Step::Reset { who, text }))
}

// A feeding of a life that takes so many bytes more.
fn read_feed(who: &Value, bytes: &Value) -> Option<Step>
    ensures { result ≡ feed_step (view who.now) (view bytes.now) }
{
    let who = read_who(who)?;
    let bytes = read_count(bytes)?;
    Some(Step::Feed {
        who,
        fail_after: Some(bytes),
    })
}

// Starts that fail.
fn read_deaf(who: &Value, starts: &Value) -> Option<Step>
    ensures { result ≡ deaf_step (view who.now) (view starts.now) }
{
    let who = read_who(who)?;
    let starts = read_count(starts)?;
    Some(Step::Deaf { who, starts })
}
