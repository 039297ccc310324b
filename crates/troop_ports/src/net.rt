//! Where doors and dialled links come from.
ghost use Rattle.std.specs.Prelude.{◌≡◌, ℕ, ◌+◌, ◌<◌, List, Option, false};
ghost use Rattle.troop_ports.specs.Faults.{AddsCount};
ghost use Rattle.troop_ports.specs.Doors.{and_last};
ghost use Rattle.troop_ports.specs.Nets.{Site, asked_at, Listens, ListensAt, CountsListen, count_listening, Dials, DialsAt, IfDialled, CountsDial, count_dialled};

use crate::{Door, Link};

/// What listening answers.
#[derive(Debug, Drop)]
pub enum Listening<D> {
    /// A door at that address.
    Door(D),
    /// A fault was counted.
    Failed,
}

/// What a dial answers.
#[derive(Debug, Drop)]
pub enum Dialled<L> {
    /// A link to that address, which is open.
    Link(L),
    /// A fault was counted.
    Failed,
}

/// A network: doors at addresses, and links to addresses.
///
/// Each link or door that is given makes a place for one that comes back. What comes back adds its faults to the
/// net's.
pub trait Net {
    type L: Link;

    type D: Door;

    /// The doors that are left, where they are told.
    ghost doors: { Self → Option (List Self.D) };

    /// The links that are left, where they are told.
    ghost links: { Self → Option (List Self.L) };

    /// The links that came back, in order, where they are told.
    ghost retired: { Self → Option (List Self.L) };

    /// The doors that came back, in order, where they are told.
    ghost shut_doors: { Self → Option (List Self.D) };

    /// The places for links that come back.
    ghost places: { Self → ℕ };

    /// The places for doors that come back.
    ghost door_places: { Self → ℕ };

    /// How many faults there were, those of what came back among them. A count at its last value stands still.
    ghost faults: { Self → ℕ };

    /// The one address at which it has doors and to which it has links, and whether another one was asked for, where that is told.
    ghost site: { Self → Option Site };

    /// Opens a door at an address.
    fn listen(&mut self, addr: &str) -> Listening<Self::D>
        ensures doors { Listens result (doors self.old) (doors self.new) }
        ensures links { links self.new ≡ links self.old }
        ensures retired { retired self.new ≡ retired self.old }
        ensures shut_doors { shut_doors self.new ≡ shut_doors self.old }
        ensures places { places self.new ≡ places self.old }
        ensures door_places { door_places self.new ≡ door_places self.old + count_listening result }
        ensures at_site { ListensAt result (site self.old) addr.now }
        ensures site { site self.new ≡ asked_at addr.now (site self.old) }
        ensures cause { CountsListen result (faults self.old) (faults self.new) };

    /// Opens a link to an address.
    fn dial(&mut self, addr: &str) -> Dialled<Self::L>
        ensures links { Dials result (links self.old) (links self.new) }
        ensures is_open { IfDialled result (λ link. Self.L.Source.closed link ≡ false) }
        ensures doors { doors self.new ≡ doors self.old }
        ensures retired { retired self.new ≡ retired self.old }
        ensures shut_doors { shut_doors self.new ≡ shut_doors self.old }
        ensures places { places self.new ≡ places self.old + count_dialled result }
        ensures door_places { door_places self.new ≡ door_places self.old }
        ensures at_site { DialsAt result (site self.old) addr.now }
        ensures site { site self.new ≡ asked_at addr.now (site self.old) }
        ensures cause { CountsDial result (faults self.old) (faults self.new) };

    /// Takes a link back, open or closed, with its faults. It takes no memory.
    fn retire(&mut self, link: Self::L)
        requires place { 0 < places self.old }
        ensures retired { retired self.new ≡ and_last (retired self.old) link }
        ensures doors { doors self.new ≡ doors self.old }
        ensures links { links self.new ≡ links self.old }
        ensures shut_doors { shut_doors self.new ≡ shut_doors self.old }
        ensures places { places self.new + 1 ≡ places self.old }
        ensures door_places { door_places self.new ≡ door_places self.old }
        ensures site { site self.new ≡ site self.old }
        ensures count { AddsCount (Self.L.Source.faults link) (faults self.old) (faults self.new) };

    /// Takes a door back, with its faults. It takes no memory.
    fn shut(&mut self, door: Self::D)
        requires place { 0 < door_places self.old }
        ensures shut_doors { shut_doors self.new ≡ and_last (shut_doors self.old) door }
        ensures doors { doors self.new ≡ doors self.old }
        ensures links { links self.new ≡ links self.old }
        ensures retired { retired self.new ≡ retired self.old }
        ensures places { places self.new ≡ places self.old }
        ensures door_places { door_places self.new + 1 ≡ door_places self.old }
        ensures site { site self.new ≡ site self.old }
        ensures count { AddsCount (Self.D.faults door) (faults self.old) (faults self.new) };
}
