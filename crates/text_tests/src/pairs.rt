//! Pairs and rows of operations: each row has what a person worked out for it by hand.
use crate::plain::{gaps_of, image_of, moved};
use crate::spelled::Spelled::{self, Cut, Keep, Put};
use crate::spelled::op;
use ot_text::{ApplyError, Op, Text, apply};
use ot_transform::{
    chain_law, compose, composed_image_law, composition_law, diamond_law, left_of, left_through,
    lengths_law, merge_law, places_law, transform, transform_gaps_law, try_left_of, try_transform,
};
use std::alloc::{AllocError, Global};
use std::test::Fail;

// Whether the operation makes this of the text.
fn makes(alloc: Global, op: &Op, text: &Text, made: &Text) -> Result<bool, AllocError> {
    match apply(alloc, op, text) {
        Ok(found) => Ok(found.same(made)),
        Err(ApplyError::Memory) => Err(AllocError),
        Err(ApplyError::BadBase { .. }) => Ok(false),
    }
}

// Whether the two operations, one behind the other, make this of the text.
fn make_in_a_row(
    alloc: Global,
    ops: (&Op, &Op),
    text: &Text,
    made: &Text,
) -> Result<bool, AllocError> {
    match apply(alloc, ops.0, text) {
        Ok(between) => makes(alloc, ops.1, &between, made),
        Err(ApplyError::Memory) => Err(AllocError),
        Err(ApplyError::BadBase { .. }) => Ok(false),
    }
}

// The two operations as one; want of memory, too, where the second is for another text.
fn composed(alloc: Global, first: &Op, second: &Op) -> Result<Op, AllocError> {
    if first.target() != second.base() {
        return Err(AllocError);
    }
    compose(alloc, first, second)
}

// Whether the operation is the one of these parts.
fn is_op(alloc: Global, found: &Op, parts: &[Spelled]) -> Result<bool, AllocError> {
    let wanted = op(alloc, parts)?;
    Ok(found.same(&wanted))
}

// Two operations on a text, each moved through the other, and the text that both make of it.
struct Row {
    text: &'static str,
    a: &'static [Spelled],
    b: &'static [Spelled],
    left: &'static [Spelled],
    right: &'static [Spelled],
    both: &'static str,
}

const ROWS: &[Row] = &[
    // The first one's text stands first.
    Row {
        text: "",
        a: &[Put("a")],
        b: &[Put("b")],
        left: &[Put("a"), Keep(1)],
        right: &[Keep(1), Put("b")],
        both: "ab",
    },
    // An insert comes to stand behind a delete, and crosses it.
    Row {
        text: "pqr",
        a: &[Cut(1), Keep(1), Put("X"), Keep(1)],
        b: &[Keep(1), Cut(1), Keep(1)],
        left: &[Put("X"), Cut(1), Keep(1)],
        right: &[Cut(1), Keep(2)],
        both: "Xr",
    },
    // An insert splits a deleted run.
    Row {
        text: "xy",
        a: &[Cut(2)],
        b: &[Keep(1), Put("z"), Keep(1)],
        left: &[Cut(1), Keep(1), Cut(1)],
        right: &[Put("z")],
        both: "z",
    },
    // What both delete is deleted once.
    Row {
        text: "abcde",
        a: &[Keep(1), Cut(3), Keep(1)],
        b: &[Keep(2), Cut(3)],
        left: &[Keep(1), Cut(1)],
        right: &[Keep(1), Cut(1)],
        both: "a",
    },
    // Both put a text in, in front of a place that the first one deletes.
    Row {
        text: "abc",
        a: &[Keep(1), Put("X"), Cut(1), Keep(1)],
        b: &[Keep(1), Put("Y"), Keep(2)],
        left: &[Keep(1), Put("X"), Keep(1), Cut(1), Keep(1)],
        right: &[Keep(2), Put("Y"), Keep(1)],
        both: "aXYc",
    },
    // Both put a text in, at the two ends.
    Row {
        text: "ab",
        a: &[Keep(2), Put("!")],
        b: &[Put("?"), Keep(2)],
        left: &[Keep(3), Put("!")],
        right: &[Put("?"), Keep(3)],
        both: "?ab!",
    },
    // An insert stays when all round it is deleted.
    Row {
        text: "abc",
        a: &[Keep(1), Put("X"), Keep(2)],
        b: &[Put("new"), Cut(3)],
        left: &[Keep(3), Put("X")],
        right: &[Put("new"), Cut(1), Keep(1), Cut(2)],
        both: "newX",
    },
    // An operation that keeps all changes nothing.
    Row {
        text: "ab",
        a: &[Keep(2)],
        b: &[Keep(1), Cut(1)],
        left: &[Keep(1)],
        right: &[Keep(1), Cut(1)],
        both: "a",
    },
    // Characters count, not bytes.
    Row {
        text: "é",
        a: &[Put("😀"), Keep(1)],
        b: &[Keep(1), Put("ß")],
        left: &[Put("😀"), Keep(2)],
        right: &[Keep(2), Put("ß")],
        both: "😀éß",
    },
];

// The operations moved through each other; want of memory, too, where they are for two texts.
fn moved_through(alloc: Global, a: &Op, b: &Op) -> Result<(Op, Op), AllocError> {
    if a.base() != b.base() {
        return Err(AllocError);
    }
    try_transform(alloc, a, b)
}

// Whether the first one moved through the second, alone, is this.
fn is_left_of(alloc: Global, a: &Op, b: &Op, left: &Op) -> Result<bool, AllocError> {
    if a.base() != b.base() {
        return Ok(false);
    }
    let found = try_left_of(alloc, a, b)?;
    Ok(found.same(left))
}

// Whether the operations, one after the other and composed, make the row's wanted text.
fn make_both(alloc: Global, row: &Row, ops: (&Op, &Op), whole: &Op) -> Result<bool, AllocError> {
    let text = Text::of(alloc, row.text)?;
    let both = Text::of(alloc, row.both)?;
    let in_a_row = make_in_a_row(alloc, ops, &text, &both)?;
    let as_one = makes(alloc, whole, &text, &both)?;
    Ok(in_a_row && as_one)
}

// Whether the operations, and behind each the other one moved, are one operation both ways round, and make the row's wanted text.
fn meet(
    alloc: Global,
    row: &Row,
    a_first: (&Op, &Op),
    b_first: (&Op, &Op),
) -> Result<bool, AllocError> {
    let a_whole = composed(alloc, a_first.0, a_first.1)?;
    let b_whole = composed(alloc, b_first.0, b_first.1)?;
    let a_makes = make_both(alloc, row, a_first, &a_whole)?;
    let b_makes = make_both(alloc, row, b_first, &b_whole)?;
    Ok(a_makes && b_makes && a_whole.same(&b_whole))
}

// Whether the row's operations transform to what is wanted, and are one operation both ways round.
fn is_row(alloc: Global, row: &Row) -> Result<bool, AllocError> {
    let a = op(alloc, row.a)?;
    let b = op(alloc, row.b)?;
    let (left, right) = moved_through(alloc, &a, &b)?;
    Ok(
        is_op(alloc, &left, row.left)?
            && is_op(alloc, &right, row.right)?
            && is_left_of(alloc, &a, &b, &left)?
            && meet(alloc, row, (&a, &right), (&b, &left))?,
    )
}

#[test]
fn both_ways_round_make_one_text(rt: HostRuntime) -> Result<(), Fail> {
    let alloc = rt.alloc();
    for row in ROWS {
        assert_eq!(rt; (row.text, is_row(alloc, row)?), (row.text, true));
    }
    Ok(())
}

// The same as `moved_through`, of short operations: want of memory, too, where they are longer.
fn short_moved_through(alloc: Global, a: &Op, b: &Op) -> Result<(Op, Op), AllocError> {
    if a.base() != b.base() || a.base() >= 100 || a.inserted() >= 100 || b.inserted() >= 100 {
        return Err(AllocError);
    }
    transform(alloc, a, b)
}

// Whether what was moved is its own operation moved through the other one gap by gap.
fn is_gap_by_gap(
    alloc: Global,
    found: &Op,
    own: &Op,
    other: &Op,
    own_text_first: bool,
) -> Result<bool, AllocError> {
    let own = gaps_of(alloc, own)?;
    let other = gaps_of(alloc, other)?;
    let wanted = moved(alloc, &own, &other, own_text_first)?;
    let image = image_of(alloc, found)?;
    Ok(image.as_slice() == wanted.as_slice())
}

// Whether the row's operations move through each other as gap by gap.
fn is_row_gap_by_gap(alloc: Global, row: &Row) -> Result<bool, AllocError> {
    let a = op(alloc, row.a)?;
    let b = op(alloc, row.b)?;
    let (left, right) = short_moved_through(alloc, &a, &b)?;
    Ok(is_gap_by_gap(alloc, &left, &a, &b, true)? && is_gap_by_gap(alloc, &right, &b, &a, false)?)
}

#[test]
fn the_walk_does_what_is_said_gap_by_gap(rt: HostRuntime) -> Result<(), Fail> {
    let alloc = rt.alloc();
    for row in ROWS {
        assert_eq!(rt;
            (row.text, is_row_gap_by_gap(alloc, row)?),
            (row.text, true)
        );
    }
    Ok(())
}

// The edit moved through a run of none.
fn behind_none(alloc: Global, edit: &Op) -> Result<Op, AllocError> {
    left_through(alloc, edit, &[])
}

// The edit moved through a run of one; want of memory, too, where it is for another text or they are long.
fn behind_one(alloc: Global, edit: &Op, run: &[Op; 2]) -> Result<Op, AllocError> {
    let reset = &run[0];
    if edit.base() != reset.base() || edit.inserted() >= 100 || reset.target() >= 100 {
        return Err(AllocError);
    }
    left_through(alloc, edit, &run[..1])
}

// The same, by the one operation itself.
fn left_of_one(alloc: Global, edit: &Op, reset: &Op) -> Result<Op, AllocError> {
    if edit.base() != reset.base() || edit.inserted() >= 100 || reset.target() >= 100 {
        return Err(AllocError);
    }
    left_of(alloc, edit, reset)
}

// The same through a run of two.
fn behind_both(alloc: Global, edit: &Op, run: &[Op; 2]) -> Result<Op, AllocError> {
    let [reset, later] = run;
    if edit.base() != reset.base() || reset.target() != later.base() {
        return Err(AllocError);
    }
    if edit.inserted() >= 100 || reset.target() >= 100 || later.target() >= 100 {
        return Err(AllocError);
    }
    left_through(alloc, edit, run)
}

// Whether the edit moves through the first of the run alike by either call, and then as it is spelled.
fn moves_through_one(alloc: Global, edit: &Op, run: &[Op; 2]) -> Result<bool, AllocError> {
    let behind = behind_one(alloc, edit, run)?;
    let left = left_of_one(alloc, edit, &run[0])?;
    let is_wanted = is_op(alloc, &behind, &[Keep(3), Put("X")])?;
    Ok(is_wanted && left.same(&behind))
}

fn moves_through_both(alloc: Global, edit: &Op, run: &[Op; 2]) -> Result<bool, AllocError> {
    let behind = behind_both(alloc, edit, run)?;
    is_op(alloc, &behind, &[Keep(2), Put("X"), Keep(1)])
}

// A text that takes the place of three characters, and a change of it.
fn reset_and_later(alloc: Global) -> Result<[Op; 2], AllocError> {
    let reset = op(alloc, &[Put("new"), Cut(3)])?;
    let later = op(alloc, &[Cut(1), Keep(2), Put("!")])?;
    Ok([reset, later])
}

#[test]
fn an_edit_moves_through_a_run(rt: HostRuntime) -> Result<(), Fail> {
    let alloc = rt.alloc();
    let edit = op(alloc, &[Keep(1), Put("X"), Keep(2)])?;
    let run = reset_and_later(alloc)?;
    assert!(&rt; behind_none(alloc, &edit)?.same(&edit));
    assert!(&rt; moves_through_one(alloc, &edit, &run)?);
    assert!(&rt; moves_through_both(alloc, &edit, &run)?);
    Ok(())
}

// Two operations in a row, and the one that they are together.
struct InARow {
    first: &'static [Spelled],
    second: &'static [Spelled],
    whole: &'static [Spelled],
}

const IN_A_ROW: &[InARow] = &[
    InARow {
        first: &[Put("a")],
        second: &[Cut(1)],
        whole: &[],
    },
    InARow {
        first: &[Keep(1), Put("bc"), Keep(1)],
        second: &[Keep(2), Put("-"), Cut(1), Keep(1)],
        whole: &[Keep(1), Put("b-"), Keep(1)],
    },
    InARow {
        first: &[Cut(1), Keep(2)],
        second: &[Keep(1), Put("!"), Cut(1)],
        whole: &[Cut(1), Keep(1), Put("!"), Cut(1)],
    },
];

// Whether the two operations in a row are the one.
fn are_one(alloc: Global, row: &InARow) -> Result<bool, AllocError> {
    let first = op(alloc, row.first)?;
    let second = op(alloc, row.second)?;
    let whole = composed(alloc, &first, &second)?;
    is_op(alloc, &whole, row.whole)
}

#[test]
fn operations_in_a_row_are_one(rt: HostRuntime) -> Result<(), Fail> {
    let alloc = rt.alloc();
    for row in IN_A_ROW {
        assert!(&rt; are_one(alloc, row)?);
    }
    Ok(())
}

#[test]
fn laws_hold_of_characters(_rt: HostRuntime) {
    merge_law::<char>();
    composition_law::<char>();
    diamond_law();
    transform_gaps_law();
    composed_image_law();
    chain_law();
    lengths_law();
    places_law();
}
