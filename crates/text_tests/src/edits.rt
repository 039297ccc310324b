//! The same edits on a text, on marks and on a document; and blocks.
use crate::spelled::Spelled::{self, Cut, Keep, Put};
use crate::spelled::op;
use author_marks::{Marks, Run, runs_law};
use gap_text::GapText;
use ot_text::{Op, Text};
use std::alloc::{AllocError, Global};
use std::test::Fail;
use troop_doc::{Doc, block_law, lines_law};

/// A performer's edit of what the row above it made; then the text, and its runs of marks as performers and counts.
struct Row(u32, &'static [Spelled], &'static str, &'static [(u32, u64)]);

const ROWS: &[Row] = &[
    Row(1, &[Put("abc")], "abc", &[(1, 3)]),
    Row(2, &[Put("new"), Cut(3)], "new", &[(2, 3)]),
    Row(1, &[Keep(3), Put("X")], "newX", &[(2, 3), (1, 1)]),
    // Inside a run, and where two runs meet: by the number of the one, of the other, and of neither.
    Row(
        1,
        &[Keep(1), Put("y"), Keep(3)],
        "nyewX",
        &[(2, 1), (1, 1), (2, 2), (1, 1)],
    ),
    Row(
        2,
        &[Keep(1), Put("z"), Keep(4)],
        "nzyewX",
        &[(2, 2), (1, 1), (2, 2), (1, 1)],
    ),
    Row(
        1,
        &[Keep(2), Put("w"), Keep(4)],
        "nzwyewX",
        &[(2, 2), (1, 2), (2, 2), (1, 1)],
    ),
    Row(
        3,
        &[Keep(4), Put("q"), Keep(3)],
        "nzwyqewX",
        &[(2, 2), (1, 2), (3, 1), (2, 2), (1, 1)],
    ),
    // What stood between two runs of one number goes.
    Row(3, &[Keep(2), Cut(3), Keep(3)], "nzewX", &[(2, 4), (1, 1)]),
    // At the ends, and across the place of the last edit.
    Row(1, &[Keep(5), Put("e")], "nzewXe", &[(2, 4), (1, 2)]),
    Row(3, &[Cut(1), Keep(5)], "zewXe", &[(2, 3), (1, 2)]),
    Row(3, &[Put("f"), Keep(5)], "fzewXe", &[(3, 1), (2, 3), (1, 2)]),
    Row(3, &[Cut(5), Keep(1)], "e", &[(1, 1)]),
    // Two places at once.
    Row(
        2,
        &[Put("g"), Keep(1), Put("h")],
        "geh",
        &[(2, 1), (1, 1), (2, 1)],
    ),
    Row(1, &[Cut(1), Keep(1), Cut(1)], "e", &[(1, 1)]),
];

// Each edit makes room and applies; want of memory, too, where the operation has another base.
fn edit_text(text: &mut GapText, op: &Op) -> Result<(), AllocError> {
    if op.base() != text.len() {
        return Err(AllocError);
    }
    text.reserve(op.inserted())?;
    text.apply(op);
    Ok(())
}

fn edit_marks(marks: &mut Marks, op: &Op, who: u32) -> Result<(), AllocError> {
    if op.base() != marks.len() {
        return Err(AllocError);
    }
    marks.reserve_for(op)?;
    marks.apply(op, who);
    Ok(())
}

fn edit_doc(doc: &mut Doc, op: &Op, who: u32) -> Result<(), AllocError> {
    if op.base() != doc.len() {
        return Err(AllocError);
    }
    doc.reserve_for(op)?;
    doc.apply(op, who);
    Ok(())
}

fn are_runs(found: &[Run], want: &[(u32, u64)]) -> bool {
    let mut pairs = found.iter().zip(want);
    found.len() == want.len() && pairs.all(|(run, pair)| (run.who, run.count) == *pair)
}

// Whether the text, and the slice of all of it, is the one that is wanted.
fn is_whole(text: &GapText, want: &Text) -> Result<bool, AllocError> {
    let whole = text.to_text()?;
    let slice = text.slice(0, text.len())?;
    Ok(whole.same(want) && slice.same(want))
}

// Whether both end with one character, which there is.
fn end_alike(text: &GapText, want: &Text) -> bool {
    match (text.len().checked_sub(1), want.chars().last()) {
        (Some(last), Some(want)) => text.at(last as usize) == *want,
        _ => false,
    }
}

fn is_text(text: &GapText, want: &Text) -> Result<bool, AllocError> {
    let is_whole = is_whole(text, want)?;
    let copy = text.try_clone()?;
    let is_as_long = text.len() == want.len() && !text.is_empty();
    Ok(is_whole && is_as_long && end_alike(text, want) && text.same(&copy))
}

fn are_marks(marks: &Marks, want: &[(u32, u64)]) -> Result<bool, AllocError> {
    let runs = marks.runs()?;
    let copy = marks.try_clone()?;
    Ok(are_runs(runs.as_slice(), want) && !marks.is_empty() && marks.same(&copy))
}

fn is_written(doc: &Doc, want: &Text) -> Result<bool, AllocError> {
    let text = doc.text()?;
    Ok(text.same(want) && doc.len() == want.len())
}

fn is_marked(doc: &Doc, want: &[(u32, u64)]) -> Result<bool, AllocError> {
    let runs = doc.runs()?;
    Ok(are_runs(runs.as_slice(), want))
}

fn is_copied(doc: &Doc) -> Result<bool, AllocError> {
    let copy = doc.try_clone()?;
    Ok(doc.same(&copy))
}

// Whether the text is the row's behind the row's edit.
fn takes_text(alloc: Global, text: &mut GapText, row: &Row) -> Result<bool, AllocError> {
    let op = op(alloc, row.1)?;
    edit_text(text, &op)?;
    let want = Text::of(alloc, row.2)?;
    is_text(text, &want)
}

// The same of marks.
fn takes_marks(alloc: Global, marks: &mut Marks, row: &Row) -> Result<bool, AllocError> {
    let op = op(alloc, row.1)?;
    edit_marks(marks, &op, row.0)?;
    are_marks(marks, row.3)
}

// The same of a document.
fn takes_doc(alloc: Global, doc: &mut Doc, row: &Row) -> Result<bool, AllocError> {
    let op = op(alloc, row.1)?;
    edit_doc(doc, &op, row.0)?;
    let want = Text::of(alloc, row.2)?;
    Ok(is_written(doc, &want)? && is_marked(doc, row.3)? && is_copied(doc)?)
}

#[test]
fn edits_change_a_text_in_place(rt: HostRuntime) -> Result<(), Fail> {
    let alloc = rt.alloc();
    let mut text = GapText::new(alloc);
    for row in ROWS {
        assert_eq!(rt; (row.2, takes_text(alloc, &mut text, row)?), (row.2, true));
    }
    Ok(())
}

// What is typed in three edits, one behind the other.
const TYPED: &[&[Spelled]] = &[&[Put("a")], &[Keep(1), Put("bc")], &[Keep(3), Put("z")]];

fn type_in(alloc: Global, text: &mut GapText, parts: &[Spelled]) -> Result<(), AllocError> {
    let op = op(alloc, parts)?;
    edit_text(text, &op)
}

// Whether the text is four characters long, and the two in its middle are these.
fn has_middle(alloc: Global, text: &GapText, middle: &str) -> Result<bool, AllocError> {
    if text.len() != 4 {
        return Ok(false);
    }
    let found = text.slice(1, 3)?;
    let wanted = Text::of(alloc, middle)?;
    Ok(found.same(&wanted))
}

#[test]
fn a_slice_of_what_was_typed(rt: HostRuntime) -> Result<(), Fail> {
    let alloc = rt.alloc();
    let mut text = GapText::new(alloc);
    for parts in TYPED {
        type_in(alloc, &mut text, parts)?;
    }
    assert!(rt; has_middle(alloc, &text, "bc")?);
    Ok(())
}

#[test]
fn new_characters_are_marked_with_their_performer(rt: HostRuntime) -> Result<(), Fail> {
    runs_law();
    let alloc = rt.alloc();
    let mut marks = Marks::new(alloc);
    for row in ROWS {
        assert_eq!(rt;
            (row.2, takes_marks(alloc, &mut marks, row)?),
            (row.2, true)
        );
    }
    Ok(())
}

#[test]
fn new_characters_belong_to_their_performer(rt: HostRuntime) -> Result<(), Fail> {
    let alloc = rt.alloc();
    let mut doc = Doc::new(alloc);
    for row in ROWS {
        assert_eq!(rt; (row.2, takes_doc(alloc, &mut doc, row)?), (row.2, true));
    }
    Ok(())
}

// A document with this text, all of it by one performer.
fn doc_of(alloc: Global, text: &'static str, who: u32) -> Result<Doc, AllocError> {
    let op = op(alloc, &[Put(text)])?;
    let mut doc = Doc::new(alloc);
    edit_doc(&mut doc, &op, who)?;
    Ok(doc)
}

// Whether the documents have one text, by other performers.
fn differ_in_marks(one: &Doc, other: &Doc) -> Result<bool, AllocError> {
    let one_text = one.text()?;
    let other_text = other.text()?;
    Ok(!one.same(other) && one_text.same(&other_text))
}

#[test]
fn documents_of_other_performers_differ(rt: HostRuntime) -> Result<(), Fail> {
    let by_one = doc_of(rt.alloc(), "hi", 1)?;
    let by_two = doc_of(rt.alloc(), "hi", 2)?;
    assert!(rt; differ_in_marks(&by_one, &by_two)?);
    Ok(())
}

const BD_HUSH: &str = "d1 $ s \"bd\"\n\nhush";
// A line of a space, a tab and a carriage return stands in the middle, and an empty one at the end.
const TWO_BLOCKS: &str = "a\nb\n \t\r\nc d\n";

// A text, a place of it, and the block round the place.
const BLOCKS: &[(&'static str, u64, Option<&'static str>)] = &[
    (BD_HUSH, 3, Some("d1 $ s \"bd\"")),
    (BD_HUSH, 11, Some("d1 $ s \"bd\"")),
    (BD_HUSH, 12, None),
    (BD_HUSH, 13, Some("hush")),
    (BD_HUSH, 17, Some("hush")),
    (BD_HUSH, 18, None),
    (TWO_BLOCKS, 0, Some("a\nb")),
    (TWO_BLOCKS, 3, Some("a\nb")),
    (TWO_BLOCKS, 5, None),
    (TWO_BLOCKS, 9, Some("c d")),
    (TWO_BLOCKS, 12, None),
    ("x\ny\n\tz", 2, Some("x\ny\n\tz")),
];

fn is_block(alloc: Global, found: &Option<Text>, want: Option<&str>) -> Result<bool, AllocError> {
    match (found, want) {
        (Some(found), Some(want)) => Ok(found.same(&Text::of(alloc, want)?)),
        (None, None) => Ok(true),
        _ => Ok(false),
    }
}

// Whether the block of a row stands round the row's place.
fn is_block_round(
    alloc: Global,
    row: &(&'static str, u64, Option<&'static str>),
) -> Result<bool, AllocError> {
    let doc = doc_of(alloc, row.0, 1)?;
    let found = doc.block_at(row.1)?;
    is_block(alloc, &found, row.2)
}

#[test]
fn a_block_ends_at_blank_lines(rt: HostRuntime) -> Result<(), Fail> {
    lines_law();
    block_law();
    let alloc = rt.alloc();
    for row in BLOCKS {
        assert_eq!(rt;
            (row.0, row.1, is_block_round(alloc, row)?),
            (row.0, row.1, true)
        );
    }
    Ok(())
}
