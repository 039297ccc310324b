//! An operation moved through others.
ghost use Rattle.std.specs.Prelude.{◌≡◌, ◌+◌, ◌≤◌, IfOk};
ghost use Rattle.ot_text.specs.Change.{base, target, inserted};
ghost use Rattle.ot_transform.specs.Chain.{through, IsChain, ChainFits};
ghost use Rattle.ot_transform.specs.Transform.{left};

use crate::walk::Walk;
use ot_text::{MAX_LEN, Op, OpBuilder};
use std::alloc::{AllocError, Global};

/// The operation moved through one other, as the first of the two that `transform` answers.
pub fn left_of(alloc: Global, a: &Op, b: &Op) -> Result<Op, AllocError>
    requires bases { base a.now ≡ base b.now }
    requires room { target b.now + inserted a.now ≤ MAX_LEN }
    ensures { IfOk result (λ op. op ≡ left a.now b.now) }
{
    let mut left = OpBuilder::new(alloc);
    let mut walk = Walk::new(a.parts(), b.parts());
    while let Some(step) = walk.step() {
        step.put_left(&mut left)?;
    }
    Ok(left.finish())
}

/// The operation moved through one other, as `left_of` answers it; want of memory where a text of that length can't be.
pub fn try_left_of(alloc: Global, a: &Op, b: &Op) -> Result<Op, AllocError>
    requires { base a.now ≡ base b.now }
    ensures { IfOk result (λ op. op ≡ left a.now b.now) }
{
    if b.target() + a.inserted() > MAX_LEN {
        return Err(AllocError);
    }
    left_of(alloc, a, b)
}

/// The operation moved through a chain of others, one after another.
pub fn left_through(alloc: Global, a: &Op, bs: &[Op]) -> Result<Op, AllocError>
    requires run { IsChain (base a.now) bs.now }
    requires room { ChainFits (inserted a.now) bs.now }
    ensures { IfOk result (λ op. op ≡ through a.now bs.now) }
{
    let mut op = a.try_clone()?;
    for b in bs {
        op = left_of(alloc, &op, b)?;
    }
    Ok(op)
}
