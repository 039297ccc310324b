//! A door in memory.
ghost use Rattle.std.specs.Prelude.{◌≡◌, ◌+◌, ◌-◌, ◌<◌, [], ◌∷◌, ◌++◌, Some, false, All, IfOk};
ghost use Rattle.troop_ports.specs.Doors.{IfAccepted, CountsAccept};
ghost use Rattle.troop_ports.specs.ListDoors.{accept_answer, door_after};

use crate::{Accepted, Door, Link};
use std::alloc::{AllocError, Global};
use std::marker::Model;

/// A door that gives these links in order, and of which listed calls fail.
#[derive(Drop)]
pub struct ListDoor<L: Link> {
    // The links that are left.
    links: Vec<L>,
    // The links that came back. There is memory for those that are left and for those that are out.
    back: Vec<L>,
    // How many links are out.
    out: u64,
    // The numbers of the calls that fail, from 1.
    fails: Vec<u64>,
    // How many calls were made.
    calls: u64,
    // How many faults were counted.
    faults: u64,
}

impl<L: Link> Model for ListDoor<L> {
    ghost use Rattle.std.specs.Prelude.{◌≡◌, ◌+◌, ◌≤◌, All, false, vec_len, vec_capacity};
    ghost use Rattle.troop_ports.specs.ListDoors.{Entrance};

    ghost Value = { Entrance L };

    ghost view = { λ d. record { links = d.links.items; retired = d.back.items; places = d.out; fails = d.fails.items; calls = d.calls; faults = d.faults } };

    ghost invariant = { λ d. (vec_len d.back + vec_len d.links + d.out ≤ vec_capacity d.back) × All (λ link. L.Source.closed link ≡ false) d.links.items };
}

impl<L: Link + Drop> ListDoor<L> {
    /// A door that no call has been made to, over open links. The calls of `accept` that fail are given by their
    /// numbers, from 1. Where memory is wanting the links are dropped.
    pub fn new(alloc: Global, links: Vec<L>, fails: &[u64]) -> Result<ListDoor<L>, AllocError>
        requires { All (λ link. L.Source.closed link ≡ false) links.items }
        ensures { IfOk result (λ door. door ≡ record { links = links.items; retired = []; places = 0; fails = fails.now; calls = 0; faults = 0 }) }
    {
        let back = Vec::with_capacity(alloc, links.len())?;
        let fails = Vec::from_slice(alloc, fails)?;
        Ok(ListDoor {
            links,
            back,
            out: 0,
            fails,
            calls: 0,
            faults: 0,
        })
    }
}

impl<L: Link> ListDoor<L> {
    /// The links that came back, in order.
    pub fn retired(&self) -> &[L]
        ensures { result.now ≡ self.now.retired }
    {
        self.back.as_slice()
    }
}

impl<L: Link> Door for ListDoor<L> {
    type L = L;

    ghost links = { λ d. Some d.links };

    ghost retired = { λ d. Some d.retired };

    ghost places = { λ d. d.places };

    ghost faults = { λ d. d.faults };

    fn accept(&mut self) -> Accepted<L>
        ensures answer { result ≡ accept_answer self.old }
        ensures after { self.new ≡ door_after self.old result }
        ensures is_open { IfAccepted result (λ link. L.Source.closed link ≡ false) }
        ensures cause { CountsAccept result self.old.faults self.new.faults }
    {
        self.calls = self.calls.saturating_add(1);
        if self.fails.contains(&self.calls) {
            self.faults = self.faults.saturating_add(1);
            return Accepted::Failed;
        }
        if self.links.is_empty() {
            return Accepted::Closed;
        }
        self.out += 1;
        Accepted::Link(self.links.remove(0))
    }

    fn retire(&mut self, link: L)
        requires { 0 < self.old.places }
        ensures { self.new ≡ record { links = self.old.links; retired = self.old.retired ++ link ∷ []; places = self.old.places - 1; fails = self.old.fails; calls = self.old.calls; faults = self.old.faults } }
    {
        self.out -= 1;
        self.back.push_reserved(link);
    }
}
