//! A net in memory.
ghost use Rattle.std.specs.Prelude.{◌≡◌, ◌+◌, ◌-◌, ◌<◌, [], ◌∷◌, ◌++◌, Some, None, false, All, IfOk, option_map, string_bytes};
ghost use Rattle.troop_ports.specs.Nets.{is_at, asked_at, ListensAt, DialsAt, IfDialled, CountsListen, CountsDial};
ghost use Rattle.troop_ports.specs.Faults.{AddsCount};
ghost use Rattle.troop_ports.specs.ListNets.{site_of, listening_of, net_after_listen, dialled_of, net_after_dial, all_faults};

use crate::{Dialled, Door, Link, Listening, Net};
use std::alloc::{AllocError, Global};
use std::marker::Model;

/// An address, and whether another one was asked for.
#[derive(Drop)]
struct Stand {
    address: String,
    has_strayed: bool,
}

/// A net that gives these doors and links in order, at any address or at one alone, and of which listed calls fail.
#[derive(Drop)]
pub struct ListNet<D: Door, L: Link> {
    // The doors that are left.
    doors: Vec<D>,
    // The links that are left.
    links: Vec<L>,
    // The links that came back. There is memory for those that are left and for those that are out.
    back: Vec<L>,
    // The doors that came back. There is memory for those that are left and for those that are out.
    shut: Vec<D>,
    // How many links are out.
    out: u64,
    // How many doors are out.
    doors_out: u64,
    // The numbers of the calls that fail, from 1.
    fails: Vec<u64>,
    // How many calls of `listen` and `dial` were made.
    calls: u64,
    // How many of them failed.
    faults: u64,
    // Where it stands, if it stands at one address alone.
    stand: Option<Stand>,
}

impl<D: Door, L: Link> Model for ListNet<D, L> {
    ghost use Rattle.std.specs.Prelude.{◌≡◌, ◌+◌, ◌≤◌, All, false, vec_len, vec_capacity, option_map};
    ghost use Rattle.troop_ports.specs.ListNets.{Exchange, site_of};

    ghost Value = { Exchange D L };

    ghost view = { λ n. record { doors = n.doors.items; links = n.links.items; retired = n.back.items; shut_doors = n.shut.items; places = n.out; door_places = n.doors_out; fails = n.fails.items; calls = n.calls; faults = n.faults; site = option_map site_of n.stand } };

    ghost invariant = { λ n. (vec_len n.back + vec_len n.links + n.out ≤ vec_capacity n.back) × (vec_len n.shut + vec_len n.doors + n.doors_out ≤ vec_capacity n.shut) × All (λ link. L.Source.closed link ≡ false) n.links.items };
}

impl<D: Door + Drop, L: Link + Drop> ListNet<D, L> {
    /// A net that no call has been made to, over doors and open links, which gives them at any address. The calls of
    /// `listen` and `dial` that fail are given by their numbers, from 1. Where memory is wanting the doors and links are
    /// dropped.
    pub fn new(
        alloc: Global,
        doors: Vec<D>,
        links: Vec<L>,
        fails: &[u64],
    ) -> Result<ListNet<D, L>, AllocError>
        requires { All (λ link. L.Source.closed link ≡ false) links.items }
        ensures { IfOk result (λ net. net ≡ record { doors = doors.items; links = links.items; retired = []; shut_doors = []; places = 0; door_places = 0; fails = fails.now; calls = 0; faults = 0; site = None }) }
    {
        let back = Vec::with_capacity(alloc, links.len())?;
        let shut = Vec::with_capacity(alloc, doors.len())?;
        let fails = Vec::from_slice(alloc, fails)?;
        Ok(ListNet {
            doors,
            links,
            back,
            shut,
            out: 0,
            doors_out: 0,
            fails,
            calls: 0,
            faults: 0,
            stand: None,
        })
    }
}

impl<D: Door, L: Link> ListNet<D, L> {
    /// The net, from now on at this address alone: a call for another one fails. It takes no memory.
    pub fn standing_at(mut self, address: String) -> ListNet<D, L>
        ensures { result ≡ record self { site = Some (record { address = string_bytes address; strayed = false }) } }
    {
        self.stand = Some(Stand {
            address,
            has_strayed: false,
        });
        self
    }

    /// The links that came back, in order.
    pub fn retired(&self) -> &[L]
        ensures { result.now ≡ self.now.retired }
    {
        self.back.as_slice()
    }

    /// The doors that came back, in order.
    pub fn shut_doors(&self) -> &[D]
        ensures { result.now ≡ self.now.shut_doors }
    {
        self.shut.as_slice()
    }
}

impl<D: Door, L: Link> Net for ListNet<D, L> {
    type L = L;

    type D = D;

    ghost doors = { λ n. Some n.doors };

    ghost links = { λ n. Some n.links };

    ghost retired = { λ n. Some n.retired };

    ghost shut_doors = { λ n. Some n.shut_doors };

    ghost places = { λ n. n.places };

    ghost door_places = { λ n. n.door_places };

    ghost faults = { all_faults D.faults L.Source.faults };

    ghost site = { λ n. n.site };

    fn listen(&mut self, addr: &str) -> Listening<D>
        ensures answer { result ≡ listening_of self.old addr.now }
        ensures after { self.new ≡ net_after_listen self.old addr.now result }
        ensures at_site { ListensAt result self.old.site addr.now }
        ensures cause { CountsListen result (all_faults D.faults L.Source.faults self.old) (all_faults D.faults L.Source.faults self.new) }
    {
        self.calls = self.calls.saturating_add(1);
        let is_there = is_asked(&mut self.stand, addr);
        if self.fails.contains(&self.calls) || !is_there || self.doors.is_empty() {
            self.faults = self.faults.saturating_add(1);
            return Listening::Failed;
        }
        self.doors_out += 1;
        Listening::Door(self.doors.remove(0))
    }

    fn dial(&mut self, addr: &str) -> Dialled<L>
        ensures answer { result ≡ dialled_of self.old addr.now }
        ensures after { self.new ≡ net_after_dial self.old addr.now result }
        ensures at_site { DialsAt result self.old.site addr.now }
        ensures is_open { IfDialled result (λ link. L.Source.closed link ≡ false) }
        ensures cause { CountsDial result (all_faults D.faults L.Source.faults self.old) (all_faults D.faults L.Source.faults self.new) }
    {
        self.calls = self.calls.saturating_add(1);
        let is_there = is_asked(&mut self.stand, addr);
        if self.fails.contains(&self.calls) || !is_there || self.links.is_empty() {
            self.faults = self.faults.saturating_add(1);
            return Dialled::Failed;
        }
        self.out += 1;
        Dialled::Link(self.links.remove(0))
    }

    fn retire(&mut self, link: L)
        requires { 0 < self.old.places }
        ensures after { self.new ≡ record self.old { retired = self.old.retired ++ link ∷ []; places = self.old.places - 1 } }
        ensures count { AddsCount (L.Source.faults link) (all_faults D.faults L.Source.faults self.old) (all_faults D.faults L.Source.faults self.new) }
    {
        self.out -= 1;
        self.back.push_reserved(link);
    }

    fn shut(&mut self, door: D)
        requires { 0 < self.old.door_places }
        ensures after { self.new ≡ record self.old { shut_doors = self.old.shut_doors ++ door ∷ []; door_places = self.old.door_places - 1 } }
        ensures count { AddsCount (D.faults door) (all_faults D.faults L.Source.faults self.old) (all_faults D.faults L.Source.faults self.new) }
    {
        self.doors_out -= 1;
        self.shut.push_reserved(door);
    }
}

// Whether this is the address of who stands at one alone; another one is noted.
fn is_asked(stand: &mut Option<Stand>, addr: &str) -> bool
    ensures answer { result ≡ is_at (option_map site_of stand.old) addr.now }
    ensures after { option_map site_of stand.new ≡ asked_at addr.now (option_map site_of stand.old) }
{
    let Some(stand) = stand else {
        return true;
    };
    let is_there = stand.address.as_str() == addr;
    stand.has_strayed = stand.has_strayed || !is_there;
    is_there
}
