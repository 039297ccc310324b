//! The queue and its ends.
ghost use Rattle.std.specs.Prelude.{◌≡◌, ℕ, ◌+◌, ◌-◌, ◌<◌, [], ◌++◌, None, IfSome, IfOk, false};
ghost use Rattle.link_queue.specs.Balance.{weigh, whole};
ghost use Rattle.link_queue.specs.Ends.{end_of, IsUnused, HasMovedSame, having_put, having_taken, having_left};

use crate::moves::{pop, pop_link, push};
use crate::permits::Permits;
use crate::rule::{Numbered, Parts, Ring, RingPass};
use crossbeam_queue::RuledArrayQueue;
use std::alloc::{AllocError, Global};
use std::marker::Model;
use std::sync::Wait;
use troop_ports::Link;

/// A queue of links, seen as which queue it is, and how many places it has. What is put into it is a link, or a mark: `None`, which
/// says that no more come.
///
/// Who finds it full, or empty, sleeps.
#[derive(Drop)]
pub struct LinkQueue<L: Link> {
    // What is in it.
    ring: Ring<L>,
    // A permit for each place that is free.
    room: Permits,
    // A permit for each item that is in it.
    filled: Permits,
}

impl<L: Link> Model for LinkQueue<L> {
    ghost use Rattle.crossbeam_queue.specs.Passes.{ruled_capacity};
    ghost use Rattle.link_queue.specs.Ends.{LinkQueueValue};

    ghost Value = { LinkQueueValue };

    ghost view = { λ q. record { table = q.ring.table.shared.table_id; places = ruled_capacity q.ring } };
}

/// An end of a queue, through which links are put and taken.
pub struct LinkEnd<L> {
    pass: RingPass<L>,
}

impl<L> Model for LinkEnd<L> {
    ghost use Rattle.std.specs.Prelude.{◌≡◌, []};
    ghost use Rattle.link_queue.specs.Ends.{LinkEndValue, end_of};

    ghost Value = { LinkEndValue L };

    ghost view = { λ e. end_of e.pass };

    ghost invariant = { λ e. e.pass.me.1 ≡ [] };
}

impl<L> LinkEnd<L> {
    // The end of the ring.
    fn into_pass(self) -> RingPass<L>
        ensures pass { result.me.1 ≡ [] }
        ensures value { self ≡ end_of result }
    {
        let Self { pass } = self;
        pass
    }
}

impl<L> Drop for LinkEnd<L> {
    fn drop(self) {
        let Self { pass: _ } = self;
    }
}

impl<L: Link + Drop> LinkQueue<L> {
    /// An empty queue with so many places, and its first end, which has all parts.
    pub fn new(alloc: Global, places: usize) -> Result<(LinkQueue<L>, LinkEnd<L>), AllocError>
        requires { 0 < places }
        ensures end { IfOk result (λ p. p.1.queue ≡ p.0.table) }
        ensures places { IfOk result (λ p. p.0.places ≡ places) }
        ensures parts { IfOk result (λ p. p.1.parts ≡ whole) }
        ensures none { IfOk result (λ p. IsUnused p.1) }
    {
        let (ring, pass) = RuledArrayQueue::ruled(alloc, places)?;
        let queue = LinkQueue {
            ring,
            room: Permits::new(places as u64),
            filled: Permits::new(0),
        };
        Ok((queue, LinkEnd { pass }))
    }

    /// A further end, with one part of this one's.
    pub fn another(&self, end: &mut LinkEnd<L>) -> LinkEnd<L>
        requires queue { end.old.queue ≡ self.now.table }
        requires parts { 1 < end.old.parts }
        ensures queue { (end.new.queue ≡ self.now.table) × (result.queue ≡ self.now.table) }
        ensures parts { (end.new.parts + 1 ≡ end.old.parts) × (result.parts ≡ 1) }
        ensures moved { HasMovedSame end.old end.new }
        ensures none { IsUnused result }
    {
        let pass = self.ring.another::<Parts>(&mut end.pass);
        LinkEnd { pass }
    }

    /// Waits for a free place, and puts in an open link, or a mark.
    pub fn put<R: Wait>(&self, rt: &R, end: &mut LinkEnd<L>, item: Option<Numbered<L>>)
        requires queue { end.old.queue ≡ self.now.table }
        requires part { 0 < end.old.parts }
        requires is_open { IfSome item (λ n. L.Source.closed n.link ≡ false) }
        ensures { end.new ≡ having_put end.old item }
    {
        self.room.take(rt);
        let pass = &mut end.pass;
        push(rt, &self.ring, pass, item);
        self.filled.give(rt);
    }

    /// Waits for an item, and takes it out. A link is open. `None` is a mark.
    pub fn take<R: Wait>(&self, rt: &R, end: &mut LinkEnd<L>) -> Option<Numbered<L>>
        requires queue { end.old.queue ≡ self.now.table }
        requires part { 0 < end.old.parts }
        ensures taken { end.new ≡ having_taken end.old result }
        ensures is_open { IfSome result (λ n. L.Source.closed n.link ≡ false) }
    {
        self.filled.take(rt);
        let pass = &mut end.pass;
        let item = pop(rt, &self.ring, pass);
        self.room.give(rt);
        item
    }

    /// Takes a link out that is left, and the marks before it. `None` says that there was none: each link that was put was taken, and
    /// each mark.
    pub fn take_left<R: Wait>(&self, rt: &R, end: &mut LinkEnd<L>) -> Option<Numbered<L>>
        requires queue { end.old.queue ≡ self.now.table }
        requires whole { end.old.parts ≡ whole }
        ensures taken { (marks : ℕ) × (end.new ≡ having_left end.old marks result) }
        ensures is_open { IfSome result (λ n. L.Source.closed n.link ≡ false) }
        ensures all { result ≡ None → (f : L → ℕ) → weigh f end.new.put ≡ weigh f end.new.taken }
        ensures all_marks { result ≡ None → end.new.marks_put ≡ end.new.marks_taken }
    {
        let pass = &mut end.pass;
        pop_link(rt, &self.ring, pass)
    }

    /// Gives up an end, whose parts, and whose links behind its own, this one then has.
    pub fn absorb(&self, end: &mut LinkEnd<L>, other: LinkEnd<L>)
        requires queue { (end.old.queue ≡ self.now.table) × (other.queue ≡ self.now.table) }
        requires part { 0 < end.old.parts }
        ensures queue { end.new.queue ≡ self.now.table }
        ensures parts { end.new.parts ≡ end.old.parts + other.parts }
        ensures moved { (end.new.put ≡ end.old.put ++ other.put) × (end.new.taken ≡ end.old.taken ++ other.taken) }
        ensures marks { (end.new.marks_put ≡ end.old.marks_put + other.marks_put) × (end.new.marks_taken ≡ end.old.marks_taken + other.marks_taken) }
    {
        let pass = other.into_pass();
        self.ring.absorb::<Parts>(&mut end.pass, pass);
    }
}
