//! Operations on texts, and how they are built.
use crate::spelled::Spelled::{self, Cut, Keep, Put};
use crate::spelled::op;
use ot_text::{
    ApplyError, Op, OpBuilder, Part, Text, apply, effect_law, equal_images_law, gaps_law, map_law,
    norm_append_law, norm_law, normal_form_law, room_law, same_op_law,
};
use std::alloc::{AllocError, Global};
use std::test::Fail;

/// A spelling, the parts of the operation that it is, and what this makes of the text, or the text's length, if it is another
/// than its base.
struct Row {
    spelled: &'static [Spelled],
    parts: &'static [Spelled],
    text: &'static str,
    made: Result<&'static str, u64>,
}

const ROWS: &[Row] = &[
    Row {
        spelled: &[Keep(5), Put(" big"), Keep(6)],
        parts: &[Keep(5), Put(" big"), Keep(6)],
        text: "hello world",
        made: Ok("hello big world"),
    },
    Row {
        spelled: &[Keep(5), Put(" big"), Keep(6)],
        parts: &[Keep(5), Put(" big"), Keep(6)],
        text: "hello worl",
        made: Err(10),
    },
    Row {
        spelled: &[],
        parts: &[],
        text: "",
        made: Ok(""),
    },
    // What is put in stands in front of what is deleted there, and neighbours of one kind are one part.
    Row {
        spelled: &[Cut(2), Put("x")],
        parts: &[Put("x"), Cut(2)],
        text: "ab",
        made: Ok("x"),
    },
    Row {
        spelled: &[Keep(0), Put(""), Cut(1), Cut(1), Put("x")],
        parts: &[Put("x"), Cut(2)],
        text: "ab",
        made: Ok("x"),
    },
    Row {
        spelled: &[Keep(1), Keep(2)],
        parts: &[Keep(3)],
        text: "abc",
        made: Ok("abc"),
    },
];

// Whether a copy of the operation is the same.
fn is_copied(op: &Op) -> Result<bool, AllocError> {
    let copy = op.try_clone()?;
    Ok(op.same(&copy))
}

// Whether the part is the one that is meant, and the same as a copy of it.
fn is_part(alloc: Global, part: &Part, want: Spelled) -> Result<bool, AllocError> {
    let want = want.part(alloc)?;
    let copy = want.try_clone()?;
    Ok(part.same(&want) && copy.same(part))
}

fn has_parts(alloc: Global, op: &Op, parts: &[Spelled]) -> Result<bool, AllocError> {
    let found = op.parts();
    for (part, want) in found.iter().zip(parts) {
        if !is_part(alloc, part, *want)? {
            return Ok(false);
        }
    }
    Ok(found.len() == parts.len())
}

// Whether the operation is the row's, and tells rightly whether it leaves every text as it is.
fn is_spelled(alloc: Global, op: &Op, row: &Row) -> Result<bool, AllocError> {
    let has_parts = has_parts(alloc, op, row.parts)?;
    let changes = row.parts.iter().any(|part| !matches!(part, Keep(_)));
    Ok(has_parts && op.is_identity() != changes)
}

// Whether the operation made the text that is wanted.
fn is_made(alloc: Global, op: &Op, found: &Text, made: &str) -> Result<bool, AllocError> {
    let made = Text::of(alloc, made)?;
    let copy = found.try_clone()?;
    Ok(found.same(&made) && found.len() == op.target() && copy.same(&made))
}

fn makes(alloc: Global, op: &Op, row: &Row) -> Result<bool, AllocError> {
    let text = Text::of(alloc, row.text)?;
    match (apply(alloc, op, &text), row.made) {
        (Ok(found), Ok(made)) => is_made(alloc, op, &found, made),
        (Err(error), Err(got)) => Ok(
            error
                == ApplyError::BadBase {
                    want: op.base(),
                    got,
                },
        ),
        _ => Ok(false),
    }
}

fn is_row(alloc: Global, row: &Row) -> Result<bool, AllocError> {
    let op = op(alloc, row.spelled)?;
    Ok(is_spelled(alloc, &op, row)? && is_copied(&op)? && makes(alloc, &op, row)?)
}

#[test]
fn a_spelling_is_its_operation(rt: HostRuntime) -> Result<(), Fail> {
    let alloc = rt.alloc();
    for row in ROWS {
        assert_eq!(rt; (row.text, is_row(alloc, row)?), (row.text, true));
    }
    Ok(())
}

#[test]
fn numbers_are_told_of_an_operation(rt: HostRuntime) -> Result<(), Fail> {
    let op = op(
        rt.alloc(),
        &[Keep(5), Put(" big"), Cut(2), Keep(4), Put("!")],
    )?;
    assert_eq!(rt;
        (op.base(), op.target(), op.inserted(), op.insert_count()),
        (11, 14, 5, 2)
    );
    Ok(())
}

// A text of three characters, of which the last is put behind the others.
fn abc(alloc: Global) -> Result<Text, AllocError> {
    let mut abc = Text::from_chars(alloc, &['a', 'b'])?;
    abc.append(&Text::of(alloc, "c")?)?;
    Ok(abc)
}

fn is_abc(text: &Text) -> bool {
    text.chars() == ['a', 'b', 'c'].as_slice() && text.len() == 3
}

// Keeps one character, puts the text in and a character behind it, and removes two; want of memory, too, where the text is long.
fn built(alloc: Global, text: &Text) -> Result<OpBuilder, AllocError> {
    if text.len() > 100 {
        return Err(AllocError);
    }
    let mut builder = OpBuilder::new(alloc);
    builder.retain(1)?;
    builder.insert(text)?;
    builder.insert_chars(&['d'])?;
    builder.delete(2)?;
    Ok(builder)
}

fn is_abcd(alloc: Global, op: &Op) -> Result<bool, AllocError> {
    let abcd = self::op(alloc, &[Keep(1), Put("abcd"), Cut(2)])?;
    Ok(op.same(&abcd) && abcd.parts().len() == 3)
}

#[test]
fn what_is_put_in_side_by_side_is_one_text(rt: HostRuntime) -> Result<(), Fail> {
    let alloc = rt.alloc();
    let abc = abc(alloc)?;
    assert!(rt; is_abc(&abc));
    let builder = built(alloc, &abc)?;
    assert_eq!(rt; (builder.base(), builder.target()), (3, 5));
    assert!(rt; is_abcd(alloc, &builder.finish())?);
    Ok(())
}

#[test]
fn laws_of_operations(_rt: HostRuntime) {
    effect_law::<char>();
    equal_images_law();
    gaps_law();
    map_law::<char, u32>();
    norm_append_law();
    norm_law();
    normal_form_law();
    room_law();
    same_op_law();
}
