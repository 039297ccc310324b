//! The queue and its two ends.
ghost use Rattle.std.specs.Prelude.{◌≡◌, ◌<◌, [], ◌∷◌, ◌++◌, List, None, Some, IfOk, IfErr, IfSome, OnOk, MatchOption, ◌≤◌, length};
ghost use Rattle.block_queue.specs.declared.item.Item.{Item};
ghost use Rattle.block_queue.specs.Values.{IsEndOf, IsFullBehind};

use crate::Item;
use crate::rule::{EndView, Ends, Popped, PopperIn, Pushed, Ring, Whole};
use crate::traffic::Traffic;
use crossbeam_queue::Pass;
use std::alloc::{AllocError, Global};
use std::marker::Model;
use std::sync::Wait;

/// A queue of items, which its two ends share.
#[derive(Drop)]
pub struct Queue {
    // What is in it.
    ring: Ring,
    // How many places it has, by which who pushes waits.
    room: u64,
    // What went in and out, for whoever waits.
    traffic: Traffic,
}

impl Model for Queue {
    ghost use Rattle.std.specs.Prelude.{◌≡◌};
    ghost use Rattle.crossbeam_queue.specs.Passes.{ruled_capacity};
    ghost use Rattle.block_queue.specs.Values.{QueueValue};

    ghost Value = { QueueValue };

    ghost view = { λ q. record { table = q.ring.table.shared.table_id; room = ruled_capacity q.ring } };

    ghost invariant = { λ q. ruled_capacity q.ring ≡ q.room };
}

/// The end that pushes, seen as the items that were pushed through it, and those that were popped, once it has taken the other end in.
#[derive(Drop)]
pub struct Feeder {
    pass: Pass<Item, EndView>,
}

impl Model for Feeder {
    ghost use Rattle.block_queue.specs.Values.{EndValue, MayPush, pushed_by, popped_behind};

    ghost Value = { EndValue };

    ghost view = { λ f. record { table = f.pass.table_id; items = pushed_by f.pass; other = popped_behind f.pass } };

    ghost invariant = { λ f. MayPush f.pass };
}

/// The end that pops, seen as the items that were popped through it, and those that were pushed, once it has taken the other end in.
#[derive(Drop)]
pub struct Taker {
    pass: Pass<Item, EndView>,
}

impl Model for Taker {
    ghost use Rattle.block_queue.specs.Values.{EndValue, MayPop, popped_by, taken_in_by};

    ghost Value = { EndValue };

    ghost view = { λ t. record { table = t.pass.table_id; items = popped_by t.pass; other = taken_in_by t.pass } };

    ghost invariant = { λ t. MayPop t.pass };
}

impl Queue {
    /// An empty queue with room for so many items, and its two ends. `Err` is want of memory.
    pub fn new(alloc: Global, room: u64) -> Result<(Queue, Feeder, Taker), AllocError>
        requires { 0 < room }
        ensures ends { IfOk result (λ q. IsEndOf q.0 q.1 × IsEndOf q.0 q.2) }
        ensures empty { IfOk result (λ q. (q.0.room ≡ room) × (q.1.items ≡ []) × (q.2.items ≡ [])) }
        ensures apart { IfOk result (λ q. (q.1.other ≡ None) × (q.2.other ≡ None)) }
    {
        let (ring, mut pass) = Ring::ruled(alloc, room as usize)?;
        let taker = ring.another::<Ends>(&mut pass);
        let queue = Queue {
            ring,
            room,
            traffic: Traffic::new(),
        };
        Ok((queue, Feeder { pass }, Taker { pass: taker }))
    }
}

impl Feeder {
    /// Pushes the item. `Err` hands it back, which comes only once as many items were pushed as there is room for; and once the other end
    /// was taken in it says that what was pushed is what was popped, and then as many items as there is room for. While the other end is
    /// apart, that the queue was full at a moment of this call no clause says. It takes no memory.
    pub fn push<R: Wait>(&mut self, rt: &R, queue: &Queue, item: Item) -> Result<(), Item>
        requires { IsEndOf queue.now self.old }
        ensures queue { IsEndOf queue.now self.new }
        ensures ok { OnOk result (self.new.items ≡ self.old.items ++ item ∷ []) }
        ensures err { IfErr result (λ back. (back ≡ item) × (self.new.items ≡ self.old.items)) }
        ensures other { self.new.other ≡ self.old.other }
        ensures full { IfErr result (λ back. queue.now.room ≤ length self.old.items) }
        ensures held { IfErr result (λ back. IfSome self.old.other (λ popped. IsFullBehind queue.now.room popped self.old.items)) }
    {
        queue.ring.push_as::<Pushed, R>(rt, &mut self.pass, item)?;
        queue.traffic.count_pushed(rt);
        Ok(())
    }

    /// Sleeps until the queue seems to have room. A `push` behind it may still find none.
    pub fn wait_for_room<R: Wait>(&self, rt: &R, queue: &Queue)
        requires { IsEndOf queue.now self.now }
    {
        queue.traffic.wait_for_room(rt, queue.room);
    }

    /// Takes the other end in, which has ended. What that end popped is then known to be what was pushed first, in order. It takes no
    /// memory.
    pub fn take_in<R: Wait>(&mut self, _rt: &R, queue: &Queue, taker: Taker)
        requires queue { IsEndOf queue.now self.old }
        requires taker { IsEndOf queue.now taker }
        ensures queue { IsEndOf queue.now self.new }
        ensures pushed { self.new.items ≡ self.old.items }
        ensures other { self.new.other ≡ Some taker.items }
        ensures order { (rest : List Item) × (self.old.items ≡ taker.items ++ rest) }
    {
        queue.ring.absorb::<PopperIn>(&mut self.pass, taker.pass);
        queue.ring.learn_as::<Whole>(&mut self.pass);
    }
}

impl Taker {
    /// Pops the next item. `None` pops nothing, and once the other end was taken in it says that all that it has pushed was popped;
    /// that the queue was empty at a moment of this call no clause says. It takes no memory.
    pub fn pop<R: Wait>(&mut self, rt: &R, queue: &Queue) -> Option<Item>
        requires { IsEndOf queue.now self.old }
        ensures queue { IsEndOf queue.now self.new }
        ensures popped { MatchOption result (self.new.items ≡ self.old.items) (λ item. self.new.items ≡ self.old.items ++ item ∷ []) }
        ensures other { self.new.other ≡ self.old.other }
        ensures empty { result ≡ None → IfSome self.new.other (λ pushed. pushed ≡ self.new.items) }
    {
        let item = queue.ring.pop_as::<Popped, R>(rt, &mut self.pass);
        if item.is_some() {
            queue.traffic.count_popped(rt);
        }
        item
    }

    /// Sleeps until the queue seems to hold an item. A `pop` behind it may still find none.
    pub fn wait_for_item<R: Wait>(&self, rt: &R, queue: &Queue)
        requires { IsEndOf queue.now self.now }
    {
        queue.traffic.wait_for_item(rt);
    }

    /// Takes the other end in, which has ended. What was popped is then known to be what that end pushed first, in order. It takes
    /// no memory.
    pub fn take_in<R: Wait>(&mut self, _rt: &R, queue: &Queue, feeder: Feeder)
        requires queue { IsEndOf queue.now self.old }
        requires feeder { IsEndOf queue.now feeder }
        ensures queue { IsEndOf queue.now self.new }
        ensures popped { self.new.items ≡ self.old.items }
        ensures other { self.new.other ≡ Some feeder.items }
        ensures order { (rest : List Item) × (feeder.items ≡ self.old.items ++ rest) }
    {
        queue.ring.absorb::<Ends>(&mut self.pass, feeder.pass);
        queue.ring.learn_as::<Whole>(&mut self.pass);
    }
}
