//! Two operations on one base, each moved through the other.
ghost use Rattle.std.specs.Prelude.{◌≡◌, ◌+◌, ◌≤◌, IfOk};
ghost use Rattle.ot_text.specs.Change.{base, inserted};
ghost use Rattle.ot_transform.specs.Transform.{left, right};

use crate::walk::Walk;
use ot_text::{MAX_LEN, Op, OpBuilder};
use std::alloc::{AllocError, Global};

/// The first operation moved through the second, and the second moved through the first. Where both
/// put a text in at one place, the first one's stands first.
pub fn transform(alloc: Global, a: &Op, b: &Op) -> Result<(Op, Op), AllocError>
    requires bases { base a.now ≡ base b.now }
    requires room { base a.now + inserted a.now + inserted b.now ≤ MAX_LEN }
    ensures left { IfOk result (λ both. both.0 ≡ left a.now b.now) }
    ensures right { IfOk result (λ both. both.1 ≡ right b.now a.now) }
{
    let mut left = OpBuilder::new(alloc);
    let mut right = OpBuilder::new(alloc);
    let mut walk = Walk::new(a.parts(), b.parts());
    while let Some(step) = walk.step() {
        step.put_left(&mut left)?;
        step.put_right(&mut right)?;
    }
    Ok((left.finish(), right.finish()))
}

/// Each of the operations moved through the other, as `transform` answers them; want of memory where a text of that length
/// can't be.
pub fn try_transform(alloc: Global, a: &Op, b: &Op) -> Result<(Op, Op), AllocError>
    requires { base a.now ≡ base b.now }
    ensures left { IfOk result (λ both. both.0 ≡ left a.now b.now) }
    ensures right { IfOk result (λ both. both.1 ≡ right b.now a.now) }
{
    if a.base() + a.inserted() + b.inserted() > MAX_LEN {
        return Err(AllocError);
    }
    transform(alloc, a, b)
}
