//! Laws of the printed lines, each the contract of a function that does nothing.
ghost use Rattle.std.specs.Prelude.{◌≡◌, ℕ, List, Some, false};
ghost use Rattle.serde_json.specs.Data.{Data};
ghost use Rattle.ot_text.specs.Marked.{Marked};
ghost use Rattle.troop_entry.specs.declared.call.Request.{Request};
ghost use Rattle.troop_entry.specs.declared.entry.Entry.{Entry};
ghost use Rattle.wire_json.specs.declared.replies.WireReply.{WireReply};
ghost use Rattle.wire_json.specs.Requests.{request_of_line};
ghost use Rattle.wire_json.specs.Replies.{reply_of_line};
ghost use Rattle.wire_json.specs.Entries.{entry_of_line};
ghost use Rattle.wire_json.specs.Snapshots.{snapshot_of_line};
ghost use Rattle.wire_print.specs.Printed.{printed_text, has_line_feed, request_data, reply_data, entry_data, snapshot_data};
ghost use Rattle.wire_print.specs.Within.{IsWho, RequestIsSpelled, RequestIsWithin, ReplyIsSpelled, ReplyIsWithin, DeedIsSpelled, EntryIsWithin, DocIsSpelled, SnapshotIsWithin};

/// What is printed within the limits is read back as the same value.
pub fn read_back_law()
    ensures request { (r : Request) → RequestIsSpelled r → RequestIsWithin r
        → request_of_line (printed_text (request_data r)) ≡ Some r }
    ensures reply { (r : WireReply) → ReplyIsSpelled r → ReplyIsWithin r
        → reply_of_line (printed_text (reply_data r)) ≡ Some r }
    ensures entry { (e : Entry) → IsWho e.who → DeedIsSpelled e.deed → EntryIsWithin e
        → entry_of_line (printed_text (entry_data e)) ≡ Some e }
    ensures snapshot { (at : ℕ) (m : Marked) → DocIsSpelled m → SnapshotIsWithin at m
        → snapshot_of_line (printed_text (snapshot_data at m)) ≡ Some (at, m) }
{}

/// What is printed of any data is one line: no line feed stands in front of the one at its end. Each printer's line is one of these.
pub fn one_line_law()
    ensures { (d : Data) → has_line_feed (printed_text d) ≡ false }
{}

/// A reply that was read is within the limits: so it can be printed, and is read back as the same reply.
pub fn read_within_law()
    ensures { (line : List ℕ) (r : WireReply) → reply_of_line line ≡ Some r → ReplyIsSpelled r × ReplyIsWithin r }
{}
