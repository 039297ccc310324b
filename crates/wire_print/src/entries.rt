//! The printed lines of entries.
ghost use Rattle.std.specs.Prelude.{◌≡◌, Some, IfOk, OnOk};
ghost use Rattle.serde_json.specs.View.{view};
ghost use Rattle.troop_entry.specs.declared.entry.Deed.TheVariants as deed;
ghost use Rattle.wire_json.specs.Entries.{entry_of_line};
ghost use Rattle.wire_print.specs.Within.{IsWho, DeedIsSpelled, EntryIsWithin};
ghost use Rattle.wire_print.specs.Printed.{printed_text, printed_line, deed_data, entry_data};

use crate::line::print_value;
use crate::texts::{lang_word, op_value, utf8_of};
use ot_text::{Op, Text};
use serde_json::{Value, json};
use std::alloc::{AllocError, Global};
use troop_entry::{Deed, Entry, Lang};

/// The line of an entry. Within the limits it is read back as the same entry.
pub fn print_entry(alloc: Global, entry: &Entry) -> Result<Vec<u8>, AllocError>
    ensures line { IfOk result (λ line. line.items ≡ printed_line (entry_data entry.now)) }
    ensures reads_back { OnOk result (EntryIsWithin entry.now
        → entry_of_line (printed_text (entry_data entry.now)) ≡ Some entry.now) }
{
    let value = entry_value(alloc, entry)?;
    print_value(alloc, &value)
}

// An entry as an object.
fn entry_value(alloc: Global, entry: &Entry) -> Result<Value, AllocError>
    ensures value { IfOk result (λ v. view v ≡ entry_data entry.now) }
    ensures spelled { OnOk result (DeedIsSpelled entry.now.deed) }
    ensures who { OnOk result (IsWho entry.now.who) }
{
    let Entry {
        at,
        who,
        seen,
        deed,
    } = entry;
    match deed {
        Deed::Join { name, lang } => join_entry(alloc, *at, *seen, *who, name, *lang),
        Deed::Leave => leave_entry(alloc, *at, *seen, *who),
        Deed::Edit(op) => edit_entry(alloc, *at, *seen, *who, op),
        Deed::Eval(text) => eval_entry(alloc, *at, *seen, *who, text),
        Deed::Reset(op) => reset_entry(alloc, *at, *seen, *who, op),
    }
}

// A join.
fn join_entry(
    alloc: Global,
    at: u64,
    seen: u64,
    who: u32,
    name: &Text,
    lang: Lang,
) -> Result<Value, AllocError>
    ensures value { IfOk result (λ v. view v ≡ deed_data (deed.Join name.now lang) at seen who) }
    ensures spelled { OnOk result (DeedIsSpelled (deed.Join name.now lang)) }
{
    let name = utf8_of(alloc, name)?;
    json!(in alloc; {"at": at, "deed": "join", "lang": lang_word(lang), "name": name, "seen": seen, "who": who})
}

// A leave.
fn leave_entry(alloc: Global, at: u64, seen: u64, who: u32) -> Result<Value, AllocError>
    ensures { IfOk result (λ v. view v ≡ deed_data deed.Leave at seen who) }
{
    json!(in alloc; {"at": at, "deed": "leave", "seen": seen, "who": who})
}

// An edit.
fn edit_entry(alloc: Global, at: u64, seen: u64, who: u32, op: &Op) -> Result<Value, AllocError>
    ensures value { IfOk result (λ v. view v ≡ deed_data (deed.Edit op.now) at seen who) }
    ensures spelled { OnOk result (DeedIsSpelled (deed.Edit op.now)) }
{
    let op = op_value(alloc, op)?;
    json!(in alloc; {"at": at, "deed": "edit", "op": op, "seen": seen, "who": who})
}

// An evaluation.
fn eval_entry(alloc: Global, at: u64, seen: u64, who: u32, text: &Text) -> Result<Value, AllocError>
    ensures value { IfOk result (λ v. view v ≡ deed_data (deed.Eval text.now) at seen who) }
    ensures spelled { OnOk result (DeedIsSpelled (deed.Eval text.now)) }
{
    let text = utf8_of(alloc, text)?;
    json!(in alloc; {"at": at, "deed": "eval", "seen": seen, "text": text, "who": who})
}

// A reset.
fn reset_entry(alloc: Global, at: u64, seen: u64, who: u32, op: &Op) -> Result<Value, AllocError>
    ensures value { IfOk result (λ v. view v ≡ deed_data (deed.Reset op.now) at seen who) }
    ensures spelled { OnOk result (DeedIsSpelled (deed.Reset op.now)) }
{
    let op = op_value(alloc, op)?;
    json!(in alloc; {"at": at, "deed": "reset", "op": op, "seen": seen, "who": who})
}
