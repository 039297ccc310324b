//! Items put into the ring and taken out of it.
ghost use Rattle.std.specs.Prelude.{◌≡◌, ℕ, ◌<◌, None, IfSome, false};
ghost use Rattle.crossbeam_queue.specs.Passes.{view, IsPassOf, IsSamePass};
ghost use Rattle.link_queue.specs.Balance.{with_put, with_taken, with_left, weigh, HasPart, HasAllParts};

use crate::rule::{Numbered, Puts, Ring, RingPass, Takes};
use std::sync::Wait;
use std::thread;
use troop_ports::Link;

// Puts an item in, as soon as there is a place.
pub fn push<L: Link + Drop, R: Wait>(
    rt: &R,
    ring: &Ring<L>,
    pass: &mut RingPass<L>,
    item: Option<Numbered<L>>,
)
    requires pass { IsPassOf ring.now pass.old }
    requires part { HasPart pass.old }
    requires is_open { IfSome item (λ n. L.Source.closed n.link ≡ false) }
    ensures pass { IsSamePass pass.old pass.new }
    ensures put { view pass.new ≡ with_put (view pass.old) item }
{
    let mut next = item;
    for _ in rt.forever() {
        match ring.try_push_as::<Puts>(pass, next) {
            Ok(()) => return,
            Err(back) => next = back,
        }
        thread::yield_now();
    }
    unreachable!()
}

// Takes an item out, as soon as there is one.
pub fn pop<L: Link + Drop, R: Wait>(
    rt: &R,
    ring: &Ring<L>,
    pass: &mut RingPass<L>,
) -> Option<Numbered<L>>
    requires pass { IsPassOf ring.now pass.old }
    requires part { HasPart pass.old }
    ensures pass { IsSamePass pass.old pass.new }
    ensures taken { view pass.new ≡ with_taken (view pass.old) result }
    ensures is_open { IfSome result (λ n. L.Source.closed n.link ≡ false) }
{
    for _ in rt.forever() {
        if let Some(item) = ring.try_pop_as::<Takes>(pass) {
            return item;
        }
        thread::yield_now();
    }
    unreachable!()
}

// Takes out a link that is left, if there is one, and the marks before it.
pub fn pop_link<L: Link + Drop, R: Wait>(
    rt: &R,
    ring: &Ring<L>,
    pass: &mut RingPass<L>,
) -> Option<Numbered<L>>
    requires pass { IsPassOf ring.now pass.old }
    requires whole { HasAllParts pass.old }
    ensures pass { IsSamePass pass.old pass.new }
    ensures taken { (marks : ℕ) × (view pass.new ≡ with_left (view pass.old) marks result) }
    ensures is_open { IfSome result (λ n. L.Source.closed n.link ≡ false) }
    ensures all { result ≡ None → (f : L → ℕ) → weigh f (view pass.new).put ≡ weigh f (view pass.new).taken }
    ensures all_marks { result ≡ None → (view pass.new).marks_put ≡ (view pass.new).marks_taken }
{
    for _ in rt.forever() {
        match ring.pop_as::<Takes, R>(rt, pass) {
            Some(Some(numbered)) => return Some(numbered),
            Some(None) => {}
            None => return None,
        }
    }
    unreachable!()
}
