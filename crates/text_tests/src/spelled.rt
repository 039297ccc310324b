//! Operations as a table has them.
use ot_text::{Op, OpBuilder, Part, Text};
use std::alloc::{AllocError, Global};

/// A part of an operation.
#[derive(Clone, Copy)]
pub enum Spelled {
    Keep(u64),
    Put(&'static str),
    Cut(u64),
}

impl Spelled {
    /// The part that is meant.
    pub fn part(self, alloc: Global) -> Result<Part, AllocError> {
        Ok(match self {
            Spelled::Keep(count) => Part::Retain(count),
            Spelled::Put(string) => Part::Insert(Text::of(alloc, string)?),
            Spelled::Cut(count) => Part::Delete(count),
        })
    }
}

/// The operation of these parts; want of memory if they are longer than operations are.
pub fn op(alloc: Global, parts: &[Spelled]) -> Result<Op, AllocError> {
    let mut builder = OpBuilder::new(alloc);
    for part in parts {
        if !builder.try_put(&part.part(alloc)?)? {
            return Err(AllocError);
        }
    }
    Ok(builder.finish())
}
