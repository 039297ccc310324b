//! A line of each kind and its value, and lines outside the grammars.
use author_marks::Run;
use ot_text::{Op, Text};
use std::alloc::{AllocError, Global};
use std::process::Abort;
use std::test::Fail;
use troop_doc::Doc;
use troop_entry::{Call, Deed, Entry, Lang, Reply, Request};
use wire_json::*;

// Whether the text has the characters of the string.
fn has(alloc: Global, text: &Text, string: &str) -> Result<bool, AllocError> {
    Ok(text.same(&Text::of(alloc, string)?))
}

// Base, target, how many new characters and how many parts the operation has.
fn sizes(op: &Op) -> (u64, u64, u64, usize) {
    (op.base(), op.target(), op.inserted(), op.parts().len())
}

/// The kinds of lines.
#[derive(Clone, Copy)]
enum Kind {
    Request,
    Reply,
    Entry,
    Step,
    Command,
    Snapshot,
}

// Whether a reader took the line, unless memory was wanting.
fn is_value<T>(read: &Read<T>) -> Option<bool> {
    match read {
        Read::Value(_) => Some(true),
        Read::Bad => Some(false),
        Read::Memory => None,
    }
}

fn is_request(alloc: Global, line: &[u8]) -> Option<bool> {
    is_value(&read_request(alloc, line))
}

fn is_reply(alloc: Global, line: &[u8]) -> Option<bool> {
    is_value(&read_reply(alloc, line))
}

fn is_entry(alloc: Global, line: &[u8]) -> Option<bool> {
    is_value(&read_entry(alloc, line))
}

fn is_step(alloc: Global, line: &[u8]) -> Option<bool> {
    is_value(&read_step(alloc, line))
}

fn is_command(alloc: Global, line: &[u8]) -> Option<bool> {
    is_value(&read_command(alloc, line))
}

fn is_snapshot(alloc: Global, line: &[u8]) -> Option<bool> {
    is_value(&read_snapshot(alloc, line))
}

// Whether the line is one of the kind, unless memory was wanting.
fn is_kind(alloc: Global, kind: Kind, line: &[u8]) -> Option<bool> {
    match kind {
        Kind::Request => is_request(alloc, line),
        Kind::Reply => is_reply(alloc, line),
        Kind::Entry => is_entry(alloc, line),
        Kind::Step => is_step(alloc, line),
        Kind::Command => is_command(alloc, line),
        Kind::Snapshot => is_snapshot(alloc, line),
    }
}

// Looks whether each line is one of the kind, or each is none.
fn are_kind(rt: &impl Abort, alloc: Global, kind: Kind, lines: &[&str], wanted: bool) {
    for line in lines {
        let is_so = is_kind(alloc, kind, line.as_bytes());
        assert_eq!(rt; (*line, is_so), (*line, Some(wanted)));
    }
}

const EDIT: &str = "{\"call\":\"edit\",\"num\":7,\"op\":[1,0,-1,\"a\",\"\",-1],\"seen\":3}";

// The number of a line that is an edit, how many rows it had seen, and the sizes of its operation.
fn edit_of(alloc: Global, line: &[u8]) -> Option<(u64, u64, (u64, u64, u64, usize))> {
    match &read_request(alloc, line) {
        Read::Value(
            Request::Call {
                num,
                call: Call::Edit { seen, op },
            },
        ) => Some((*num, *seen, sizes(op))),
        _ => None,
    }
}

#[test]
fn an_edit_has_its_number_and_a_normal_operation(rt: HostRuntime) -> Result<(), Fail> {
    let edit = edit_of(rt.alloc(), EDIT.as_bytes());
    assert_eq!(rt; edit, Some((7, 3, (3, 2, 1, 3))));
    Ok(())
}

// Looks that no front of the line is a request.
fn has_no_front(rt: &impl Abort, alloc: Global, line: &[u8]) {
    for end in 0..line.len() {
        assert_eq!(rt; is_kind(alloc, Kind::Request, &line[..end]), Some(false));
    }
}

#[test]
fn no_front_of_a_request_is_one(rt: HostRuntime) {
    has_no_front(&rt, rt.alloc(), EDIT.as_bytes());
    has_no_front(&rt, rt.alloc(), b"{\"call\":\"leave\"}");
}

const REQUESTS: &[&str] = &[
    " {\"name\":\"ann\",\"call\":\"join\",\"lang\":\"ghci\",\"num\":true}\r",
    "{\"call\":\"leave\",\"call\":\"leave\"}",
    "{\"call\":\"edit\",\"op\":[],\"seen\":9007199254740991}",
    "{\"call\":\"edit\",\"op\":[-9007199254740991],\"seen\":0}",
    "{\"call\":\"eval\",\"seen\":0,\"text\":\"\",\"other\":-0}",
    "{\"call\":\"reset\",\"num\":0,\"seen\":0,\"text\":\"\\ud83d\\ude00\"}",
    "{\"call\":\"down\",\"from\":0,\"who\":4294967295}",
    "{\"call\":\"snap\",\"who\":0}",
    "{\"call\":\"stay\",\"lang\":\"lines\",\"name\":\"abcdefghijklmnopqrstuvwxyzabcdef\"}",
];

const NO_REQUESTS: &[&str] = &[
    "",
    "[[[[[[[[[[[[[[[[[[[[[[[[[[[[[[[[[[[[[[[[[[[[[[[[[[[[[[[[[[[[[[[[[[[[[[[[[[[[[[[[[[[[[[[[[[[[[[[[[[[[[[[[[[[[[[[[[[[[[[[[[[[[[[[[]]]]]]]]]]]]]]]]]]]]]]]]]]]]]]]]]]]]]]]]]]]]]]]]]]]]]]]]]]]]]]]]]]]]]]]]]]]]]]]]]]]]]]]]]]]]]]]]]]]]]]]]]]]]]]]]]]]]]]]]]]]]]]]]",
    "{\"call\":\"edit\",\"op\":[9007199254740992],\"seen\":0}",
    "{\"call\":\"edit\",\"op\":[9007199254740991,-1],\"seen\":0}",
    "null",
    "[\"call\"]",
    "{\"call\":\"stop\"}",
    "{\"call\":\"leave\"} 1",
    "{\"call\":\"leave\",\"other\":1e999}",
    "{\"call\":\"leave\",\"num\":-1}",
    "{\"call\":\"leave\",\"num\":\"1\"}",
    "{\"call\":\"leave\",\"num\":9007199254740992}",
    "{\"call\":\"leave\",\"call\":\"stop\"}",
    "{\"call\":\"edit\",\"op\":[]}",
    "{\"call\":\"edit\",\"op\":{},\"seen\":0}",
    "{\"call\":\"edit\",\"op\":[1.0],\"seen\":0}",
    "{\"call\":\"edit\",\"op\":[1e0],\"seen\":0}",
    "{\"call\":\"edit\",\"op\":[-0],\"seen\":0}",
    "{\"call\":\"edit\",\"op\":[null],\"seen\":0}",
    "{\"call\":\"edit\",\"op\":[9007199254740991,\"a\",-1],\"seen\":0}",
    "{\"call\":\"eval\",\"seen\":1.0,\"text\":\"\"}",
    "{\"call\":\"eval\",\"seen\":0,\"text\":\"\\ud83d\"}",
    "{\"call\":\"down\",\"from\":0,\"who\":4294967296}",
    "{\"call\":\"join\",\"lang\":\"ghci\",\"name\":\"\"}",
    "{\"call\":\"join\",\"lang\":\"ruby\",\"name\":\"ann\"}",
    "{\"call\":\"stay\",\"lang\":\"lines\",\"name\":\"abcdefghijklmnopqrstuvwxyzabcdefg\"}",
    "{\"call\":\"back\",\"who\":-1}",
];

#[test]
fn lines_are_requests_or_bad(rt: HostRuntime) {
    are_kind(&rt, rt.alloc(), Kind::Request, REQUESTS, true);
    are_kind(&rt, rt.alloc(), Kind::Request, NO_REQUESTS, false);
    let lines = [
        b"\xff\xfe".as_slice(),
        b"{\"call\":\"leave\",\"other\":\"\xff\"}",
    ];
    for line in lines {
        assert_eq!(rt; is_kind(rt.alloc(), Kind::Request, line), Some(false));
    }
}

// A leave with arrays, so many deep, under a key that is ignored.
fn nested(alloc: Global, depth: usize) -> Result<Vec<u8>, AllocError> {
    let mut line = Vec::from_slice(alloc, b"{\"call\":\"leave\",\"other\":")?;
    for _ in 0..depth {
        line.push(b'[')?;
    }
    for _ in 0..depth {
        line.push(b']')?;
    }
    line.push(b'}')?;
    Ok(line)
}

// Whether a leave with arrays, so many deep, is a request.
fn nests(alloc: Global, depth: usize) -> Result<Option<bool>, AllocError> {
    Ok(is_kind(alloc, Kind::Request, &nested(alloc, depth)?))
}

#[test]
fn values_nest_at_most_127_deep(rt: HostRuntime) -> Result<(), Fail> {
    let nests = (nests(rt.alloc(), 126)?, nests(rt.alloc(), 127)?);
    assert_eq!(rt; nests, (Some(true), Some(false)));
    Ok(())
}

const REPLIES: &[(&str, WireReply)] = &[
    (
        "{\"at\":5,\"who\":2}",
        WireReply::Desk(Reply::Placed { at: 5, who: 2 }),
    ),
    (
        "{\"at\":5,\"kept\":1,\"who\":2}",
        WireReply::Desk(Reply::Placed { at: 5, who: 2 }),
    ),
    (
        "{\"at\":5,\"kept\":true,\"who\":0}",
        WireReply::Desk(Reply::Kept { at: 5, who: 0 }),
    ),
    (
        "{\"at\":5,\"no\":\"clash\",\"num\":3}",
        WireReply::Desk(Reply::Clash { num: 3, at: 5 }),
    ),
    (
        "{\"no\":\"member\",\"who\":2}",
        WireReply::Desk(Reply::NotMember { who: 2 }),
    ),
    (
        "{\"length\":4,\"no\":\"ahead\",\"seen\":9}",
        WireReply::Desk(Reply::Ahead { seen: 9, length: 4 }),
    ),
    (
        "{\"got\":1,\"no\":\"base\",\"want\":2}",
        WireReply::Desk(Reply::BadBase { want: 2, got: 1 }),
    ),
    (
        "{\"joins\":4096,\"no\":\"crowded\"}",
        WireReply::Desk(Reply::Crowded { joins: 4096 }),
    ),
    ("{\"line\":3,\"no\":\"bad\"}", WireReply::Bad { line: 3 }),
    ("{\"line\":3,\"no\":\"long\"}", WireReply::Long { line: 3 }),
    (
        "{\"line\":1,\"no\":\"unfit\"}",
        WireReply::Unfit { line: 1 },
    ),
];

const NO_REPLIES: &[&str] = &[
    "{\"at\":5,\"who\":0}",
    "{\"at\":5,\"no\":null,\"who\":2}",
    "{\"no\":\"bad\"}",
    "{\"line\":3,\"no\":\"worse\"}",
];

// The reply of the line, if it is one.
fn reply_of(alloc: Global, line: &[u8]) -> Option<WireReply> {
    match read_reply(alloc, line) {
        Read::Value(reply) => Some(reply),
        _ => None,
    }
}

#[test]
fn the_key_no_decides_what_a_reply_is(rt: HostRuntime) {
    for row in REPLIES {
        let reply = reply_of(rt.alloc(), row.0.as_bytes());
        assert_eq!(rt; (row.0, reply), (row.0, Some(row.1)));
    }
    are_kind(&rt, rt.alloc(), Kind::Reply, NO_REPLIES, false);
}

const ENTRIES: &[&str] = &[
    "{\"at\":0,\"deed\":\"join\",\"lang\":\"lines\",\"name\":\"ann\",\"seen\":0,\"who\":1}",
    "{\"at\":4,\"deed\":\"leave\",\"seen\":4,\"who\":1}",
    "{\"at\":3,\"deed\":\"eval\",\"seen\":1,\"text\":\"hush\",\"who\":4294967295}",
    "{\"at\":3,\"deed\":\"reset\",\"op\":[\"x\",-2],\"seen\":1,\"who\":1}",
];

const NO_ENTRIES: &[&str] = &[
    "{\"at\":4,\"deed\":\"leave\",\"seen\":4,\"who\":0}",
    "{\"at\":4,\"deed\":\"leave\",\"who\":1}",
    "{\"at\":3,\"deed\":\"edit\",\"seen\":1,\"who\":1}",
    "{\"at\":3,\"deed\":\"reset\",\"seen\":1,\"text\":\"x\",\"who\":1}",
];

// Where the entry of a line stands, whose it is, how many rows had been seen and the sizes of its operation, if it is an edit.
fn edit_told(alloc: Global, line: &[u8]) -> Option<((u64, u32, u64), (u64, u64, u64, usize))> {
    match &read_entry(alloc, line) {
        Read::Value(
            Entry {
                at,
                who,
                seen,
                deed: Deed::Edit(op),
            },
        ) => Some(((*at, *who, *seen), sizes(op))),
        _ => None,
    }
}

#[test]
fn an_entry_has_its_numbers_and_its_deed(rt: HostRuntime) {
    let line = b"{\"at\":3,\"deed\":\"edit\",\"op\":[2,\"hi\"],\"seen\":1,\"who\":2}";
    let wanted = Some(((3, 2, 1), (2, 4, 2, 2)));
    assert_eq!(rt; edit_told(rt.alloc(), line), wanted);
    are_kind(&rt, rt.alloc(), Kind::Entry, ENTRIES, true);
    are_kind(&rt, rt.alloc(), Kind::Entry, NO_ENTRIES, false);
}

const STEPS: &[&str] = &[
    "[\"guest\",\"ann\",\"lines\"]",
    "[\"join\",\"ann\",\"lines\",\"\"]",
    "[\"snapjoin\",\"ann\",\"lines\",\"go\"]",
    "[\"edit\",1,[\"a\"]]",
    "[\"eval\",1,0]",
    "[\"reset\",1,\"x\"]",
    "[\"serve\",1]",
    "[\"take\",0]",
    "[\"feed\",1]",
    "[\"deaf\",1,2]",
    "[\"leave\",1]",
    "[\"again\",1]",
    "\t[\"show\"] ",
];

const NO_STEPS: &[&str] = &[
    "{}",
    "[]",
    "[[\"show\"]]",
    "[\"show\",1]",
    "[\"call\",1,{\"call\":\"join\",\"lang\":\"lines\",\"name\":\"ann\"}]",
    "[\"call\",1,{\"call\":\"down\",\"from\":0,\"who\":1}]",
    "[\"call\",1,{\"call\":\"leave\",\"num\":0.0}]",
    "[\"join\",\"ann\",\"lines\"]",
    "[\"snapjoin\",\"\",\"lines\",\"go\"]",
    "[\"serve\",4294967296]",
    "[\"feed\",1,-1]",
    "[\"again\",1,2]",
];

// Whose evaluation the step of a line is, its number and how many rows had been seen, if its text is this.
fn eval_of(alloc: Global, line: &[u8], text: &str) -> Result<Option<(u32, u64, u64)>, AllocError> {
    match &read_step(alloc, line) {
        Read::Value(
            Step::Call {
                who,
                num,
                call: Call::Eval { seen, text: of },
            },
        ) => Ok(has(alloc, of, text)?.then_some((*who, *num, *seen))),
        _ => Ok(None),
    }
}

// Whose interpreter is fed by the step of a line, and behind how many bytes it dies.
fn feed_of(alloc: Global, line: &[u8]) -> Option<(u32, Option<u64>)> {
    match &read_step(alloc, line) {
        Read::Value(Step::Feed { who, fail_after }) => Some((*who, *fail_after)),
        _ => None,
    }
}

#[test]
fn steps_tell_their_values(rt: HostRuntime) -> Result<(), Fail> {
    let line = b"[\"call\",2,{\"call\":\"eval\",\"num\":9,\"seen\":3,\"text\":\"hush\"}]";
    assert_eq!(rt; eval_of(rt.alloc(), line, "hush")?, Some((2, 9, 3)));
    let feed = feed_of(rt.alloc(), b"[\"feed\",1,0]");
    assert_eq!(rt; feed, Some((1, Some(0))));
    Ok(())
}

#[test]
fn steps_have_their_exact_elements(rt: HostRuntime) {
    are_kind(&rt, rt.alloc(), Kind::Step, STEPS, true);
    are_kind(&rt, rt.alloc(), Kind::Step, NO_STEPS, false);
    assert!(rt; is_blank_line(b" \t\r") && !is_blank_line(b" 0"));
}

const COMMANDS: &[&str] = &[
    "[\"edit\",[1,\"a\"]]",
    "[\"eval\",3]",
    "[\"reset\",\"x\"]",
    "[\"show\"]",
    "[\"leave\"]",
];

const NO_COMMANDS: &[&str] = &[
    "[\"leave\",1]",
    "[\"until\",\"3\"]",
    "[\"edit\",1,[\"a\"]]",
    "[\"serve\",1]",
];

// For how many entries the command of a line waits.
fn wait_of(alloc: Global, line: &[u8]) -> Option<u64> {
    match &read_command(alloc, line) {
        Read::Value(Command::Until(count)) => Some(*count),
        _ => None,
    }
}

#[test]
fn commands_have_their_exact_elements(rt: HostRuntime) {
    assert_eq!(rt; wait_of(rt.alloc(), b"[\"until\",3]"), Some(3));
    are_kind(&rt, rt.alloc(), Kind::Command, COMMANDS, true);
    are_kind(&rt, rt.alloc(), Kind::Command, NO_COMMANDS, false);
}

const NO_SNAPSHOTS: &[&str] = &[
    "{\"at\":3,\"marks\":[[1,2]],\"text\":\"abc\"}",
    "{\"at\":3,\"marks\":[[1,2],[2,2]],\"text\":\"abc\"}",
    "{\"at\":3,\"marks\":[[0,3]],\"text\":\"abc\"}",
    "{\"at\":3,\"marks\":[[1,3],[2,0]],\"text\":\"abc\"}",
    "{\"at\":3,\"marks\":[[1,3,1]],\"text\":\"abc\"}",
    "{\"at\":3,\"marks\":[1,3],\"text\":\"abc\"}",
    "{\"marks\":[],\"text\":\"\"}",
];

// Whether the document has these characters.
fn is_text(alloc: Global, doc: &Doc, text: &str) -> Result<bool, AllocError> {
    has(alloc, &doc.text()?, text)
}

// Whether the document has the marks of these runs.
fn are_runs(doc: &Doc, runs: &[Run]) -> Result<bool, AllocError> {
    Ok(doc.runs()?.as_slice() == runs)
}

const RUNS: &[Run] = &[Run { who: 2, count: 1 }, Run { who: 1, count: 3 }];

// Whether the snapshot has five entries behind it, these characters and the marks of two runs.
fn is_told(alloc: Global, snapshot: &Snapshot) -> Result<bool, AllocError> {
    Ok(snapshot.at == 5 && is_text(alloc, &snapshot.doc, "abcd")? && are_runs(&snapshot.doc, RUNS)?)
}

// Whether the line is a snapshot that tells this.
fn is_read(alloc: Global, line: &[u8]) -> Result<bool, AllocError> {
    match &read_snapshot(alloc, line) {
        Read::Value(snapshot) => is_told(alloc, snapshot),
        _ => Ok(false),
    }
}

#[test]
fn a_snapshot_has_marks_for_each_character(rt: HostRuntime) -> Result<(), Fail> {
    let line = b"{\"at\":5,\"marks\":[[2,1],[1,1],[1,2]],\"text\":\"abcd\"}";
    assert!(rt; is_read(rt.alloc(), line)?);
    are_kind(&rt, rt.alloc(), Kind::Snapshot, NO_SNAPSHOTS, false);
    Ok(())
}
