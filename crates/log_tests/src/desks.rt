//! Each call once, and what no case file shows: seats, members and entries.
//!
//! The tests don't own the desk that they ask, so that little is to be proved in each.
use ot_text::{Op, OpBuilder, Part, Text};
use revision_log::{Desk, growth_law};
use std::alloc::{AllocError, Global};
use std::process::Abort;
use std::test::Fail;
use troop_entry::{Call, Deed, Entry, Lang, Reply, Row};

fn join(alloc: Global, name: &str) -> Result<Call, AllocError> {
    Ok(Call::Join {
        name: Text::of(alloc, name)?,
        lang: Lang::Lines,
    })
}

fn made_of(alloc: Global, part: &Part) -> Result<Op, AllocError> {
    let mut builder = OpBuilder::new(alloc);
    if builder.try_put(part)? {
        Ok(builder.finish())
    } else {
        Err(AllocError)
    }
}

/// The operation that puts a text in.
fn typing(alloc: Global, text: &str) -> Result<Op, AllocError> {
    made_of(alloc, &Part::Insert(Text::of(alloc, text)?))
}

fn is_told(
    desk: &mut Desk,
    seat: u64,
    (who, num): (u32, u64),
    call: &Call,
    reply: Reply,
) -> Result<bool, AllocError> {
    Ok(desk.serve(seat, who, num, call)? == reply)
}

#[test]
fn a_desk_tells_its_rows_and_members(rt: HostRuntime) -> Result<(), Fail> {
    rows_and_members(&rt, rt.alloc(), &mut Desk::new(rt.alloc()))
}

fn rows_and_members(rt: &impl Abort, alloc: Global, desk: &mut Desk) -> Result<(), Fail> {
    assert!(rt; are_placed(desk, &join(alloc, "ann")?, &join(alloc, "bob")?)?);
    assert_eq!(rt; desk.leave(7, 1), Reply::Placed { at: 2, who: 1 });
    assert!(rt; is_left_to_the_second(desk));
    assert_eq!(rt; seat_of_the_last(desk.rows()), Some(7));
    Ok(())
}

fn are_placed(desk: &mut Desk, ann: &Call, bob: &Call) -> Result<bool, AllocError> {
    let is_ann = is_told(desk, 0, (0, 0), ann, Reply::Placed { at: 0, who: 1 })?;
    let is_bob = is_told(desk, 7, (1, 0), bob, Reply::Placed { at: 1, who: 2 })?;
    Ok(is_ann && is_bob)
}

fn is_left_to_the_second(desk: &Desk) -> bool {
    (desk.length(), desk.joins()) == (3, 2)
        && !desk.is_member(1)
        && desk.is_member(2)
        && !desk.is_member(3)
}

// The seat of the third row, if there are three.
fn seat_of_the_last(rows: &[Row]) -> Option<u64> {
    match rows {
        [_, _, last] => Some(last.seat),
        _ => None,
    }
}

#[test]
fn entries_tell_the_served_operation(rt: HostRuntime) -> Result<(), Fail> {
    growth_law();
    entries_tell(&rt, rt.alloc(), &mut Desk::new(rt.alloc()))
}

fn entries_tell(rt: &impl Abort, alloc: Global, desk: &mut Desk) -> Result<(), Fail> {
    let op = typing(alloc, "hi")?;
    let edit = Call::Edit { seen: 1, op };
    assert!(rt; is_kept(desk, &join(alloc, "ann")?, &edit)?);
    assert!(rt; tells(desk, &typing(alloc, "hi")?)?);
    assert_eq!(rt; desk.doc().len(), 2);
    Ok(())
}

// The edit is placed behind the join, and kept.
fn is_kept(desk: &mut Desk, join: &Call, edit: &Call) -> Result<bool, AllocError> {
    let is_join = is_told(desk, 0, (0, 0), join, Reply::Placed { at: 0, who: 1 })?;
    let is_edit = is_told(desk, 0, (1, 1), edit, Reply::Placed { at: 1, who: 1 })?;
    let is_again = is_told(desk, 0, (1, 1), edit, Reply::Kept { at: 1, who: 1 })?;
    Ok(is_join && is_edit && is_again)
}

// The second row's entry is the operation's.
fn tells(desk: &Desk, op: &Op) -> Result<bool, AllocError> {
    if desk.length() < 2 {
        return Ok(false);
    }
    let entries = desk.entries(1, 2)?;
    match entries.as_slice() {
        [entry] => Ok(is_edit(entry, op)),
        _ => Ok(false),
    }
}

fn is_edit(entry: &Entry, op: &Op) -> bool {
    let is_placed = (entry.at, entry.who, entry.seen) == (1, 1, 1);
    match &entry.deed {
        Deed::Edit(told) => is_placed && told.same(op),
        _ => false,
    }
}
