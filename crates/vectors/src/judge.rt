//! What comes of a vector's operations, held against what the vector says.

use crate::vector::{Chained, Met, Vector};
use ot_text::{ApplyError, Op, Text, apply};
use ot_transform::{compose, try_transform};
use std::alloc::{AllocError, Global};
use std::fmt;

/// Where a vector and the operations differ.
#[derive(Clone, Copy)]
pub enum Fault {
    /// Operations that are to meet are for other texts.
    Base,
    /// The two spellings of the first operation make two operations.
    Spelling,
    /// The first operation moved through the second.
    FirstMoved,
    /// The second operation moved through the first.
    SecondMoved,
    /// The text behind both, one way round or the other.
    Merged,
    /// The composition of the first operation and the next.
    Composed,
    /// The text behind these.
    After,
}

impl fmt::Display for Fault {
    fn fmt<W: fmt::Write>(&self, f: &mut fmt::Formatter<W>) -> fmt::Result {
        f.write_str(match self {
            Fault::Base => "operations for other texts",
            Fault::Spelling => "the other spelling",
            Fault::FirstMoved => "the first one moved",
            Fault::SecondMoved => "the second one moved",
            Fault::Merged => "the text of both",
            Fault::Composed => "the composition",
            Fault::After => "the text behind the composition",
        })
    }
}

/// The first place where a vector and the operations differ, if there is one.
pub fn judge(alloc: Global, vector: &Vector) -> Result<Option<Fault>, AllocError> {
    if !vector.spelled.same(&vector.met.first) {
        return Ok(Some(Fault::Spelling));
    }
    match judge_met(alloc, &vector.met)? {
        Some(fault) => Ok(Some(fault)),
        None => judge_chained(alloc, &vector.met, &vector.chained),
    }
}

// The same of the two operations moved through each other.
fn judge_met(alloc: Global, met: &Met) -> Result<Option<Fault>, AllocError> {
    if met.first.base() != met.second.base() {
        return Ok(Some(Fault::Base));
    }
    let (first, second) = try_transform(alloc, &met.first, &met.second)?;
    judge_moved(alloc, met, &first, &second)
}

// The same of what the two operations became.
fn judge_moved(
    alloc: Global,
    met: &Met,
    first: &Op,
    second: &Op,
) -> Result<Option<Fault>, AllocError> {
    if !first.same(&met.first_moved) {
        return Ok(Some(Fault::FirstMoved));
    }
    if !second.same(&met.second_moved) {
        return Ok(Some(Fault::SecondMoved));
    }
    let one_way = is_made(alloc, &[&met.first, second], &met.text, &met.merged)?;
    let other_way = is_made(alloc, &[&met.second, first], &met.text, &met.merged)?;
    Ok(fault_unless(one_way && other_way, Fault::Merged))
}

// The same of the first operation and the next as one.
fn judge_chained(alloc: Global, met: &Met, chained: &Chained) -> Result<Option<Fault>, AllocError> {
    if met.first.target() != chained.next.base() {
        return Ok(Some(Fault::Base));
    }
    let composed = compose(alloc, &met.first, &chained.next)?;
    judge_composed(alloc, met, chained, &composed)
}

// The same of the composition.
fn judge_composed(
    alloc: Global,
    met: &Met,
    chained: &Chained,
    composed: &Op,
) -> Result<Option<Fault>, AllocError> {
    if !composed.same(&chained.composed) {
        return Ok(Some(Fault::Composed));
    }
    let in_two = is_made(
        alloc,
        &[&met.first, &chained.next],
        &met.text,
        &chained.after,
    )?;
    let in_one = is_made(alloc, &[composed], &met.text, &chained.after)?;
    Ok(fault_unless(in_two && in_one, Fault::After))
}

fn fault_unless(is_so: bool, fault: Fault) -> Option<Fault> {
    if is_so { None } else { Some(fault) }
}

// Whether the operations, one behind the other, make this of a text.
fn is_made(alloc: Global, ops: &[&Op], text: &Text, made: &Text) -> Result<bool, AllocError> {
    let mut now = text.try_clone()?;
    for op in ops {
        now = match apply(alloc, op, &now) {
            Ok(text) => text,
            Err(ApplyError::Memory) => return Err(AllocError),
            Err(ApplyError::BadBase { .. }) => return Ok(false),
        };
    }
    Ok(now.same(made))
}
