//! Where links come from.
ghost use Rattle.std.specs.Prelude.{◌≡◌, ℕ, ◌+◌, ◌<◌, List, Option, false};
ghost use Rattle.troop_ports.specs.Doors.{Accepts, IfAccepted, CountsAccept, count_accepted, and_last};

use crate::Link;

/// What an accept answers.
#[derive(Debug, Drop)]
pub enum Accepted<L> {
    /// The next link, which is open.
    Link(L),
    /// None is left.
    Closed,
    /// A fault was counted.
    Failed,
}

/// Where links come from, and where they go back to.
///
/// Each link that is given makes a place for one that comes back.
pub trait Door {
    type L: Link;

    /// The links that are left, where they are told.
    ghost links: { Self → Option (List Self.L) };

    /// The links that came back, in order, where they are told.
    ghost retired: { Self → Option (List Self.L) };

    /// The places for links that come back.
    ghost places: { Self → ℕ };

    /// How many faults there were. A count at its last value stands still. The faults of the links aren't among them.
    ghost faults: { Self → ℕ };

    /// Gives the next link.
    fn accept(&mut self) -> Accepted<Self::L>
        ensures links { Accepts result (links self.old) (links self.new) }
        ensures is_open { IfAccepted result (λ link. Self.L.Source.closed link ≡ false) }
        ensures retired { retired self.new ≡ retired self.old }
        ensures places { places self.new ≡ places self.old + count_accepted result }
        ensures cause { CountsAccept result (faults self.old) (faults self.new) };

    /// Takes a link back, open or closed. It takes no memory.
    fn retire(&mut self, link: Self::L)
        requires place { 0 < places self.old }
        ensures retired { retired self.new ≡ and_last (retired self.old) link }
        ensures links { links self.new ≡ links self.old }
        ensures places { places self.new + 1 ≡ places self.old }
        ensures count { faults self.new ≡ faults self.old };
}
