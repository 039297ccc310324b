//! Operations and texts as a table has them.
use ot_text::{Op, OpBuilder, Part, Text};
use std::alloc::{AllocError, Global};

/// An operation that keeps so many characters, puts the text in, and keeps so many behind it.
#[derive(Clone, Copy)]
pub struct Shape(pub u64, pub &'static str, pub u64);

impl Shape {
    /// The operation; want of memory where it would be longer than operations are.
    pub fn op(self, alloc: Global) -> Result<Op, AllocError> {
        let mut builder = OpBuilder::new(alloc);
        let parts = [
            Part::Retain(self.0),
            Part::Insert(Text::of(alloc, self.1)?),
            Part::Retain(self.2),
        ];
        for part in &parts {
            if !builder.try_put(part)? {
                return Err(AllocError);
            }
        }
        Ok(builder.finish())
    }

    /// Whether this operation, and no other, is there.
    pub fn is(self, alloc: Global, found: &Option<Op>) -> Result<bool, AllocError> {
        match found {
            Some(found) => Ok(found.same(&self.op(alloc)?)),
            None => Ok(false),
        }
    }
}
