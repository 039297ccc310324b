//! Each call once.
use ot_text::{Op, OpBuilder, Text};
use std::alloc::{AllocError, Global};
use std::test::Fail;
use troop_entry::*;

fn removing(alloc: Global, count: u16) -> Result<Op, AllocError> {
    let mut builder = OpBuilder::new(alloc);
    builder.delete(u64::from(count))?;
    Ok(builder.finish())
}

fn removing_one(alloc: Global, seen: u64) -> Result<Call, AllocError> {
    Ok(Call::Edit {
        seen,
        op: removing(alloc, 1)?,
    })
}

fn join_of_ann(alloc: Global) -> Result<Call, AllocError> {
    Ok(Call::Join {
        name: Text::of(alloc, "ann")?,
        lang: Lang::Ghci,
    })
}

fn is_join_of_ann(call: &Call) -> bool {
    match call {
        Call::Join { name, lang } => {
            name.chars() == ['a', 'n', 'n'].as_slice() && *lang == Lang::Ghci
        }
        _ => false,
    }
}

fn copies_as_join_of_ann(call: &Call) -> Result<bool, AllocError> {
    Ok(is_join_of_ann(&call.try_clone()?))
}

#[test]
fn a_copy_of_a_join_has_its_name_and_language(rt: HostRuntime) -> Result<(), Fail> {
    assert!(rt; copies_as_join_of_ann(&join_of_ann(rt.alloc())?)?);
    Ok(())
}

fn same_as_its_copy(call: &Call) -> Result<bool, AllocError> {
    Ok(call.same(&call.try_clone()?))
}

fn same_as_its_copy_alone(call: &Call, later: &Call) -> Result<bool, AllocError> {
    Ok(same_as_its_copy(call)? && !call.same(later))
}

#[test]
fn a_call_equals_its_copy_and_not_one_that_has_seen_more(rt: HostRuntime) -> Result<(), Fail> {
    same_call_law();
    let call = removing_one(rt.alloc(), 3)?;
    let later = removing_one(rt.alloc(), 4)?;
    assert!(rt; same_as_its_copy_alone(&call, &later)?);
    Ok(())
}

fn row_made(alloc: Global, served: Op) -> Result<Row, AllocError> {
    Ok(Row {
        who: 2,
        num: 9,
        seat: 7,
        call: removing_one(alloc, 3)?,
        op: Some(served),
    })
}

fn tells(entry: &Entry, served: &Op) -> bool {
    let is_placed = (entry.at, entry.who, entry.seen) == (5, 2, 3);
    match &entry.deed {
        Deed::Edit(op) => is_placed && op.same(served),
        _ => false,
    }
}

fn copy_tells(entry: &Entry, served: &Op) -> Result<bool, AllocError> {
    Ok(tells(&entry.try_clone()?, served))
}

fn row_tells(alloc: Global, row: &Row, served: &Op) -> Result<bool, AllocError> {
    let is_told = copy_tells(&entry_of(alloc, 5, row)?, served)?;
    Ok(is_told && (row.num, row.seat) == (9, 7))
}

fn copied_row_tells(alloc: Global, row: &Row, served: &Op) -> Result<bool, AllocError> {
    row_tells(alloc, &row.try_clone()?, served)
}

#[test]
fn an_entry_tells_the_served_operation(rt: HostRuntime) -> Result<(), Fail> {
    let alloc = rt.alloc();
    let served = removing(alloc, 4)?;
    let row = row_made(alloc, removing(alloc, 4)?)?;
    assert!(rt; copied_row_tells(alloc, &row, &served)?);
    Ok(())
}

fn leave_made() -> Row {
    Row {
        who: 2,
        num: 0,
        seat: 0,
        call: Call::Leave,
        op: None,
    }
}

fn tells_leave(entry: &Entry) -> Result<bool, AllocError> {
    let is_no_block = entry.block_told(0)?.is_none();
    Ok(is_no_block && entry.seen == 5 && entry.is_leave_of(2) && !entry.is_leave_of(1))
}

#[test]
fn a_leave_has_seen_its_own_place(rt: HostRuntime) -> Result<(), Fail> {
    let row = leave_made();
    assert!(rt; row.call.is_leave() && !row.call.is_join());
    assert!(rt; tells_leave(&entry_of(rt.alloc(), 5, &row)?)?);
    Ok(())
}

fn copies_as_hush(block: &Block) -> Result<bool, AllocError> {
    let copy = block.try_clone()?;
    Ok(copy.place == 3 && copy.text.chars() == ['h', 'u', 's', 'h'].as_slice())
}

#[test]
fn a_copy_of_a_block_has_its_place_and_text(rt: HostRuntime) -> Result<(), Fail> {
    let text = Text::of(rt.alloc(), "hush")?;
    assert!(rt; copies_as_hush(&Block { place: 3, text })?);
    Ok(())
}
