//! A small list, changed at its ends and next to a gap in its middle.
ghost use Rattle.std.specs.Prelude.{◌≡◌, ◌≤◌, [], ◌∷◌, IfOk};

use gap_buffer::GapBuffer;
use std::alloc::{AllocError, Global};
use std::test::Fail;

// The list 1, 2, 3, with its gap behind it and room for two more.
fn one_two_three(alloc: Global) -> Result<GapBuffer<u64>, AllocError>
    ensures { IfOk result (λ list. (list.front ≡ 1 ∷ 2 ∷ 3 ∷ []) × (list.behind ≡ []) × (2 ≤ list.spare)) }
{
    let mut list = GapBuffer::new(alloc);
    list.reserve(5, 0)?;
    list.put_front(&[1, 2, 3]);
    Ok(list)
}

#[test]
fn a_list_is_changed_next_to_its_gap(rt: HostRuntime) -> Result<(), Fail> {
    let mut list = one_two_three(rt.alloc())?;
    let before = list.try_clone()?;
    let empty: GapBuffer<u64> = GapBuffer::new(list.allocator());
    list.move_to(1);
    list.put_behind(&[7]);
    list.take_front(1);
    list.move_to(3);
    assert!(rt; list.front() == [7, 2, 3].as_slice() && list.behind().is_empty());
    list.move_to(0);
    list.take_behind(1);
    list.put_front(&[8, 9]);
    assert!(rt; list.front() == [8, 9].as_slice() && list.behind() == [2, 3].as_slice());
    assert!(rt; list.slots().len() - list.spare() == 4 && before.front().len() == 3);
    assert!(rt; empty.front().is_empty() && empty.spare() == 0);
    Ok(())
}
