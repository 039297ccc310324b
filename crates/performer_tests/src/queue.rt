//! The queue of blocks: what comes back, what comes through, and when there is none.
ghost use Rattle.block_queue.specs.Values.{IsEndOf};

use block_queue::{Feeder, Item, Queue, Taker};
use ot_text::Text;
use std::alloc::{AllocError, Global};
use std::sync::Wait;
use std::test::Fail;
use troop_entry::Block;

fn block(alloc: Global, place: u64) -> Result<Item, AllocError> {
    Ok(Item::Block(Block {
        place,
        text: Text::of(alloc, "d1")?,
    }))
}

// Where the block's evaluation stands; none of the end of all blocks, and of no item.
fn place(item: &Option<Item>) -> Option<u64> {
    match item {
        Some(Item::Block(block)) => Some(block.place),
        _ => None,
    }
}

// The first item goes in and comes through; the second comes back.
fn hand_the_second_back<R: Wait>(
    rt: &R,
    queue: &Queue,
    feeder: &mut Feeder,
    taker: &mut Taker,
    first: Item,
    second: Item,
) -> bool
    requires { IsEndOf queue.now feeder.old × IsEndOf queue.now taker.old }
    ensures { IsEndOf queue.now feeder.new × IsEndOf queue.now taker.new }
{
    let is_in = feeder.push(rt, queue, first).is_ok();
    let back = feeder.push(rt, queue, second).err();
    taker.wait_for_item(rt, queue);
    let through = taker.pop(rt, queue);
    is_in && place(&back) == Some(2) && place(&through) == Some(1)
}

// Nothing comes through but the end, and nothing behind it once the feeder was taken in.
fn end<R: Wait>(rt: &R, queue: &Queue, mut feeder: Feeder, taker: &mut Taker) -> bool
    requires { IsEndOf queue.now feeder × IsEndOf queue.now taker.old }
{
    feeder.wait_for_room(rt, queue);
    let before = taker.pop(rt, queue);
    let is_in = feeder.push(rt, queue, Item::End).is_ok();
    let end = taker.pop(rt, queue);
    taker.take_in(rt, queue, feeder);
    let behind = taker.pop(rt, queue);
    before.is_none() && is_in && matches!(end, Some(Item::End)) && behind.is_none()
}

#[test]
fn a_queue_with_room_for_one_hands_the_second_back(rt: HostRuntime) -> Result<(), Fail> {
    let alloc = rt.alloc();
    let first = block(alloc, 1)?;
    let second = block(alloc, 2)?;
    let (queue, mut feeder, mut taker) = Queue::new(alloc, 1)?;
    assert!(rt; hand_the_second_back(&rt, &queue, &mut feeder, &mut taker, first, second));
    assert!(rt; end(&rt, &queue, feeder, &mut taker));
    Ok(())
}
