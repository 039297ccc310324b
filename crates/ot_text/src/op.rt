//! Operations, always in normal form.
ghost use Rattle.std.specs.Prelude.{◌≡◌, ◌≤◌, ◌↔◌, IsTrue, IfOk};
ghost use Rattle.ot_text.specs.Change.{base, target, inserted, nothing, retain_then};
ghost use Rattle.ot_text.specs.Parts.{norm, parts_of, IsNormal, IsNoneOrOneRetain};
ghost use Rattle.ot_text.specs.Bounds.{IsShort};
ghost use Rattle.ot_text.specs.Ready.{insert_count};

use crate::Part;
use crate::parts::{clone_parts, same_parts};
use std::alloc::AllocError;
use std::marker::Model;

/// The longest base, and the longest target, of an operation: the sum of two such lengths fits in 64 bits.
pub const MAX_LEN: u64 = 1 << 62;

/// A normal operation: what it does to a text of the length of its base.
#[derive(Debug, Drop)]
pub struct Op {
    // The normal list of its parts.
    pub(crate) parts: Vec<Part>,
    // Their base, their target and how many characters they put in.
    pub(crate) base: u64,
    pub(crate) target: u64,
    pub(crate) inserted: u64,
}

impl Model for Op {
    ghost use Rattle.ot_text.specs.Change.{Change};

    ghost Value = { Change };

    ghost use Rattle.ot_text.specs.Parts.{norm};
    ghost use Rattle.ot_text.specs.Bounds.{IsKept};

    ghost view = { λ o. norm o.parts.items };

    ghost invariant = { λ o. IsKept o.parts.items o.base o.target o.inserted };
}

impl Op {
    /// The length of a text that it applies to.
    pub fn base(&self) -> u64
        ensures value { result ≡ base self.now }
        ensures short { result ≤ MAX_LEN }
    {
        self.base
    }

    /// The length of the text that it makes.
    pub fn target(&self) -> u64
        ensures value { result ≡ target self.now }
        ensures short { result ≤ MAX_LEN }
    {
        self.target
    }

    /// The number of inserted characters.
    pub fn inserted(&self) -> u64
        ensures value { result ≡ inserted self.now }
        ensures short { result ≤ MAX_LEN }
    {
        self.inserted
    }

    /// How many texts it puts in.
    pub fn insert_count(&self) -> u64
        ensures value { result ≡ insert_count self.now }
        ensures short { result ≤ MAX_LEN }
    {
        let mut count = 0;
        for part in self.parts() {
            if part.is_insert() {
                count += 1;
            }
        }
        count
    }

    /// Whether its parts are none or one retain, so that it leaves every text as it is.
    pub fn is_identity(&self) -> bool
        ensures parts { IsTrue result ↔ IsNoneOrOneRetain (parts_of self.now) }
        ensures value { IsTrue result ↔ (self.now ≡ retain_then (base self.now) nothing) }
    {
        self.inserted == 0 && self.base == self.target
    }

    /// Its parts, the one normal list of them.
    pub fn parts(&self) -> &[Part]
        ensures value { result.now ≡ parts_of self.now }
        ensures normal { IsNormal result.now }
        ensures norm { norm result.now ≡ self.now }
        ensures short { IsShort self.now }
    {
        self.parts.as_slice()
    }

    /// A copy of the operation.
    pub fn try_clone(&self) -> Result<Op, AllocError>
        ensures { IfOk result (λ copy. copy ≡ self.now) }
    {
        let parts = clone_parts(*self.parts.allocator(), &self.parts)?;
        Ok(Op {
            parts,
            base: self.base,
            target: self.target,
            inserted: self.inserted,
        })
    }

    /// Whether the other operation is equal to it.
    pub fn same(&self, other: &Op) -> bool
        ensures { IsTrue result ↔ (self.now ≡ other.now) }
    {
        same_parts(&self.parts, &other.parts)
    }
}
