//! The printed lines of replies.
ghost use Rattle.std.specs.Prelude.{◌≡◌, Some, IfOk, OnOk};
ghost use Rattle.serde_json.specs.View.{view};
ghost use Rattle.troop_entry.specs.declared.reply.Reply.TheVariants as desk;
ghost use Rattle.wire_json.specs.declared.replies.WireReply.TheVariants as reply;
ghost use Rattle.wire_json.specs.Replies.{reply_of_line};
ghost use Rattle.wire_print.specs.Within.{ReplyIsSpelled, ReplyIsWithin};
ghost use Rattle.wire_print.specs.Printed.{printed_text, printed_line, reply_data, blank_data};

use crate::line::print_value;
use serde_json::{Value, json};
use std::alloc::{AllocError, Global};
use troop_entry::Reply;
use wire_json::WireReply;

/// The line of a reply. Within the limits it is read back as the same reply.
pub fn print_reply(alloc: Global, reply: &WireReply) -> Result<Vec<u8>, AllocError>
    ensures line { IfOk result (λ line. line.items ≡ printed_line (reply_data reply.now)) }
    ensures reads_back { OnOk result (ReplyIsWithin reply.now
        → reply_of_line (printed_text (reply_data reply.now)) ≡ Some reply.now) }
{
    let value = reply_value(alloc, reply)?;
    print_value(alloc, &value)
}

/// The line of an evaluation at a place round which no block stands.
pub fn print_blank(alloc: Global, place: u64) -> Result<Vec<u8>, AllocError>
    ensures { IfOk result (λ line. line.items ≡ printed_line (blank_data place)) }
{
    let value = blank_value(alloc, place)?;
    print_value(alloc, &value)
}

// A reply as an object.
fn reply_value(alloc: Global, reply: &WireReply) -> Result<Value, AllocError>
    ensures value { IfOk result (λ v. view v ≡ reply_data reply.now) }
    ensures spelled { OnOk result (ReplyIsSpelled reply.now) }
{
    match *reply {
        WireReply::Desk(answer) => desk_value(alloc, answer),
        WireReply::Bad { line } => bad_value(alloc, line),
        WireReply::Long { line } => long_value(alloc, line),
        WireReply::Unfit { line } => unfit_value(alloc, line),
    }
}

// What the log answers.
fn desk_value(alloc: Global, answer: Reply) -> Result<Value, AllocError>
    ensures value { IfOk result (λ v. view v ≡ reply_data (reply.Desk answer)) }
    ensures spelled { OnOk result (ReplyIsSpelled (reply.Desk answer)) }
{
    match answer {
        Reply::Placed { at, who } => placed_value(alloc, at, who),
        Reply::Kept { at, who } => kept_value(alloc, at, who),
        Reply::Clash { num, at } => clash_value(alloc, num, at),
        Reply::NotMember { who } => member_value(alloc, who),
        Reply::Ahead { seen, length } => ahead_value(alloc, seen, length),
        Reply::BadBase { want, got } => base_value(alloc, want, got),
        Reply::Crowded { joins } => crowded_value(alloc, joins),
    }
}

// The call was placed.
fn placed_value(alloc: Global, at: u64, who: u32) -> Result<Value, AllocError>
    ensures value { IfOk result (λ v. view v ≡ reply_data (reply.Desk (desk.Placed at who))) }
    ensures spelled { OnOk result (ReplyIsSpelled (reply.Desk (desk.Placed at who))) }
{
    json!(in alloc; {"at": at, "who": who})
}

// The call stands since an earlier time.
fn kept_value(alloc: Global, at: u64, who: u32) -> Result<Value, AllocError>
    ensures value { IfOk result (λ v. view v ≡ reply_data (reply.Desk (desk.Kept at who))) }
    ensures spelled { OnOk result (ReplyIsSpelled (reply.Desk (desk.Kept at who))) }
{
    json!(in alloc; {"at": at, "kept": true, "who": who})
}

// Another call stands under the number.
fn clash_value(alloc: Global, num: u64, at: u64) -> Result<Value, AllocError>
    ensures { IfOk result (λ v. view v ≡ reply_data (reply.Desk (desk.Clash num at))) }
{
    json!(in alloc; {"at": at, "no": "clash", "num": num})
}

// The performer is no member.
fn member_value(alloc: Global, who: u32) -> Result<Value, AllocError>
    ensures value { IfOk result (λ v. view v ≡ reply_data (reply.Desk (desk.NotMember who))) }
    ensures spelled { OnOk result (ReplyIsSpelled (reply.Desk (desk.NotMember who))) }
{
    json!(in alloc; {"no": "member", "who": who})
}

// The call has seen more rows than there are.
fn ahead_value(alloc: Global, seen: u64, length: u64) -> Result<Value, AllocError>
    ensures { IfOk result (λ v. view v ≡ reply_data (reply.Desk (desk.Ahead seen length))) }
{
    json!(in alloc; {"length": length, "no": "ahead", "seen": seen})
}

// The edit is for a text of another length.
fn base_value(alloc: Global, want: u64, got: u64) -> Result<Value, AllocError>
    ensures { IfOk result (λ v. view v ≡ reply_data (reply.Desk (desk.BadBase want got))) }
{
    json!(in alloc; {"got": got, "no": "base", "want": want})
}

// The log takes no more joins.
fn crowded_value(alloc: Global, joins: u64) -> Result<Value, AllocError>
    ensures { IfOk result (λ v. view v ≡ reply_data (reply.Desk (desk.Crowded joins))) }
{
    json!(in alloc; {"joins": joins, "no": "crowded"})
}

// The line isn't a request that stands here.
fn bad_value(alloc: Global, line: u64) -> Result<Value, AllocError>
    ensures { IfOk result (λ v. view v ≡ reply_data (reply.Bad line)) }
{
    json!(in alloc; {"line": line, "no": "bad"})
}

// The line is over the limit.
fn long_value(alloc: Global, line: u64) -> Result<Value, AllocError>
    ensures { IfOk result (λ v. view v ≡ reply_data (reply.Long line)) }
{
    json!(in alloc; {"line": line, "no": "long"})
}

// The line opens no session.
fn unfit_value(alloc: Global, line: u64) -> Result<Value, AllocError>
    ensures { IfOk result (λ v. view v ≡ reply_data (reply.Unfit line)) }
{
    json!(in alloc; {"line": line, "no": "unfit"})
}

// No block stands round the place.
fn blank_value(alloc: Global, place: u64) -> Result<Value, AllocError>
    ensures { IfOk result (λ v. view v ≡ blank_data place) }
{
    json!(in alloc; {"no": "blank", "place": place})
}
