//! The driver's activity: it feeds each block that comes through the queue.
ghost use Rattle.std.specs.Prelude.{◌≡◌, [], ◌∷◌, ◌++◌, List, None, false};
ghost use Rattle.block_queue.specs.Values.{IsEndOf};
ghost use Rattle.block_queue.specs.declared.item.Item.TheVariants as Item;
ghost use Rattle.troop_entry.specs.declared.block.Block.{Block};
ghost use Rattle.activities.specs.Driving.{ToldDriver, told_driver, block_items, FedSome, Drove};

use block_queue::{Item, Queue, Taker};
use child_driver::Driver;
use pipe_ports::Hatch;
use std::sync::Wait;
use troop_entry::Block;

/// Feeds each block that comes, and closes the driver at the end. Answers whether memory was wanting: then no further block is fed, and items
/// are only taken up to the end.
pub fn drive<H: Hatch, W: Wait>(
    rt: &W,
    queue: &Queue,
    taker: &mut Taker,
    driver: &mut Driver<H>,
) -> bool
    requires queue { IsEndOf queue.now taker.old }
    requires is_open { driver.old.closed ≡ false }
    ensures queue { IsEndOf queue.now taker.new }
    ensures drove { Drove result taker.old.items taker.new.items (told_driver H.buried H.faults H.C.taken H.C.faults driver.old)
        (told_driver H.buried H.faults H.C.taken H.C.faults driver.new) }
    ensures ended { driver.new.life ≡ None }
{
    let starved = feed_all(rt, queue, taker, driver);
    driver.close();
    starved
}

// Feeds each block up to the end.
fn feed_all<H: Hatch, W: Wait>(
    rt: &W,
    queue: &Queue,
    taker: &mut Taker,
    driver: &mut Driver<H>,
) -> bool
    requires queue { IsEndOf queue.now taker.old }
    requires is_open { driver.old.closed ≡ false }
    ensures queue { IsEndOf queue.now taker.new }
    ensures fed { (blocks : List Block) × (taker.new.items ≡ taker.old.items ++ (block_items blocks ++ Item.End ∷ []))
        × FedSome result blocks (told_driver H.buried H.faults H.C.taken H.C.faults driver.old) (told_driver H.buried H.faults H.C.taken H.C.faults driver.new) }
    ensures still_open { driver.new.closed ≡ false }
{
    let mut starved = false;
    for _ in rt.forever() {
        match taker.pop(rt, queue) {
            None => taker.wait_for_item(rt, queue),
            Some(Item::Block(block)) => starved = feed_one(driver, starved, &block),
            Some(Item::End) => return starved,
        }
    }
    unreachable!()
}

// Feeds one block, unless memory was wanting.
fn feed_one<H: Hatch>(driver: &mut Driver<H>, starved: bool, block: &Block) -> bool
    requires { driver.old.closed ≡ false }
    ensures fed { (blocks : List Block) (first : ToldDriver) → FedSome starved blocks first (told_driver H.buried H.faults H.C.taken H.C.faults driver.old)
        → FedSome result (blocks ++ block.now ∷ []) first (told_driver H.buried H.faults H.C.taken H.C.faults driver.new) }
    ensures still_open { driver.new.closed ≡ false }
{
    if starved {
        return true;
    }
    match driver.feed(block) {
        Ok(_) => false,
        Err(_) => true,
    }
}
