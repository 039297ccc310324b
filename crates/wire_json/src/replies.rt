//! Replies, read from their lines.
ghost use Rattle.std.specs.Prelude.{◌≡◌, IfOk};
ghost use Rattle.serde_json.specs.View.{view};
ghost use Rattle.wire_json.specs.Reads.{Answers};
ghost use Rattle.wire_json.specs.Replies.{placed_reply, kept_reply, clash_reply, member_reply, ahead_reply, base_reply, crowded_reply, line_field, refusal_of_word, accepted_of, reply_of_data, reply_of_line};

use crate::fields::{count_field, flag_field, performer_field, who_field};
use crate::read::{Read, answer, read_value};
use serde_json::Value;
use std::alloc::{AllocError, Global};
use troop_entry::Reply;

/// What a line from the server answers.
#[derive(Clone, Copy, Debug, PartialEq, Eq)]
pub enum WireReply {
    /// The log answers this.
    Desk(Reply),
    /// The line of this number isn't a request that stands here.
    Bad { line: u64 },
    /// The line of this number is over the limit.
    Long { line: u64 },
    /// The line of this number, the first one, opens no session.
    Unfit { line: u64 },
}

/// The reply of a line.
pub fn read_reply(alloc: Global, line: &[u8]) -> Read<WireReply>
    ensures { Answers result (reply_of_line line.now) }
{
    answer(reply_in(alloc, line))
}

// The reply of a line, if it is one.
fn reply_in(alloc: Global, line: &[u8]) -> Result<Option<WireReply>, AllocError>
    ensures { IfOk result (λ reply. reply ≡ reply_of_line line.now) }
{
    match read_value(alloc, line)? {
        Some(value) => Ok(read_reply_value(&value)),
        None => Ok(None),
    }
}

// The reply of a value.
fn read_reply_value(value: &Value) -> Option<WireReply>
    ensures { result ≡ reply_of_data (view value.now) }
{
    match value.get("no") {
        Some(no) => read_refusal(no.as_str()?, value),
        None => read_accepted(value),
    }
}

// A reply that refuses nothing.
fn read_accepted(value: &Value) -> Option<WireReply>
    ensures { result ≡ accepted_of (view value.now) }
{
    if flag_field(value, "kept") {
        read_kept(value)
    } else {
        read_placed(value)
    }
}

// A refusal of this word.
fn read_refusal(word: &str, value: &Value) -> Option<WireReply>
    ensures { result ≡ refusal_of_word word.now (view value.now) }
{
    match word {
        "member" => read_not_member(value),
        "ahead" => read_ahead(value),
        "base" => read_bad_base(value),
        "crowded" => read_crowded(value),
        "clash" => read_clash(value),
        "bad" => read_line_number(value).map(|line| WireReply::Bad { line }),
        "long" => read_line_number(value).map(|line| WireReply::Long { line }),
        "unfit" => read_line_number(value).map(|line| WireReply::Unfit { line }),
        _ => None,
    }
}

// The number of the line that is refused.
fn read_line_number(value: &Value) -> Option<u64>
    ensures { result ≡ line_field (view value.now) }
{
    count_field(value, "line")
}

// The call was placed.
fn read_placed(value: &Value) -> Option<WireReply>
    ensures { result ≡ placed_reply (view value.now) }
{
    let at = count_field(value, "at")?;
    let who = performer_field(value, "who")?;
    Some(WireReply::Desk(Reply::Placed { at, who }))
}

// The call stands since an earlier time.
fn read_kept(value: &Value) -> Option<WireReply>
    ensures { result ≡ kept_reply (view value.now) }
{
    let at = count_field(value, "at")?;
    let who = who_field(value, "who")?;
    Some(WireReply::Desk(Reply::Kept { at, who }))
}

// Another call stands under the number.
fn read_clash(value: &Value) -> Option<WireReply>
    ensures { result ≡ clash_reply (view value.now) }
{
    let num = count_field(value, "num")?;
    let at = count_field(value, "at")?;
    Some(WireReply::Desk(Reply::Clash { num, at }))
}

// The performer is no member.
fn read_not_member(value: &Value) -> Option<WireReply>
    ensures { result ≡ member_reply (view value.now) }
{
    let who = who_field(value, "who")?;
    Some(WireReply::Desk(Reply::NotMember { who }))
}

// The call has seen more rows than there are.
fn read_ahead(value: &Value) -> Option<WireReply>
    ensures { result ≡ ahead_reply (view value.now) }
{
    let seen = count_field(value, "seen")?;
    let length = count_field(value, "length")?;
    Some(WireReply::Desk(Reply::Ahead { seen, length }))
}

// The edit is for a text of another length.
fn read_bad_base(value: &Value) -> Option<WireReply>
    ensures { result ≡ base_reply (view value.now) }
{
    let want = count_field(value, "want")?;
    let got = count_field(value, "got")?;
    Some(WireReply::Desk(Reply::BadBase { want, got }))
}

// The log takes no more joins.
fn read_crowded(value: &Value) -> Option<WireReply>
    ensures { result ≡ crowded_reply (view value.now) }
{
    let joins = count_field(value, "joins")?;
    Some(WireReply::Desk(Reply::Crowded { joins }))
}
