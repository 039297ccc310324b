//! The rule of the queue: each link that was put comes out once.
use crossbeam_queue::protocol::{Join, Lesson, Outcome, Protocol, Split};
use crossbeam_queue::{Pass, RuledArrayQueue};
use std::collections::LinkedList;
use troop_ports::Link;

/// A link with its number.
#[derive(Debug, Drop)]
pub struct Numbered<L> {
    /// How many links were accepted up to it, with itself.
    pub number: u64,
    pub link: L,
}

/// What an end knows: its parts of the right to know the whole, the links that were put and taken through it, and how many marks
/// were. A mark says that no more links come. No value of it is made.
pub struct View<L> {
    pub parts: u64,
    pub put: LinkedList<L>,
    pub taken: LinkedList<L>,
    pub marks_put: u64,
    pub marks_taken: u64,
}

/// The rule. What was put is what was taken and what the queue holds, links and marks, and the links in it are open.
pub struct Balances;

impl<L: Link> Protocol<Option<Numbered<L>>, View<L>> for Balances {
    ghost use Rattle.std.specs.Prelude.{◌≡◌, false, []};
    ghost use Rattle.link_queue.specs.Balance.{Balanced, knows, whole};

    ghost holds = { Balanced (λ link. L.Source.closed link ≡ false) };

    ghost first = { knows whole [] [] 0 0 };
}

/// One part goes to a further end; an end that is given up hands on its parts and what it knows.
pub struct Parts;

impl<L> Split<View<L>> for Parts {
    ghost use Rattle.std.specs.Prelude.{◌-◌, []};
    ghost use Rattle.link_queue.specs.Balance.{knows};

    ghost left = { λ v. knows (v.parts - 1) v.put v.taken v.marks_put v.marks_taken };

    ghost right = { λ v. knows 1 [] [] 0 0 };
}

impl<L> Join<View<L>> for Parts {
    ghost use Rattle.std.specs.Prelude.{◌+◌, ◌++◌, []};
    ghost use Rattle.link_queue.specs.Balance.{knows};

    ghost both = { λ v w. knows (v.parts + w.parts) (v.put ++ w.put) (v.taken ++ w.taken) (v.marks_put + w.marks_put) (v.marks_taken + w.marks_taken) };

    ghost spent = { knows 0 [] [] 0 0 };
}

/// A put: the link joins those that the end has put, or the mark.
pub struct Puts;

impl<L> Outcome<Option<Numbered<L>>, View<L>> for Puts {
    ghost use Rattle.std.specs.Prelude.{◌≡◌};
    ghost use Rattle.link_queue.specs.Balance.{with_put};

    ghost then = { λ v o w. w ≡ with_put v o };
}

/// A take: the link, which is open, joins those that the end has taken, or the mark. With all parts, an end learns what the queue
/// holds.
pub struct Takes;

impl<L: Link> Outcome<Option<Numbered<L>>, View<L>> for Takes {
    ghost use Rattle.std.specs.Prelude.{◌≡◌, false, IfSome};
    ghost use Rattle.link_queue.specs.Balance.{with_taken};

    ghost then = { λ v o w. (w ≡ with_taken v o) × IfSome o (λ n. L.Source.closed n.link ≡ false) };
}

impl<L> Lesson<Option<Numbered<L>>, View<L>> for Takes {
    ghost use Rattle.link_queue.specs.Balance.{KnowsRest};

    ghost fact = { KnowsRest };
}

/// A ring of links under the rule.
pub type Ring<L> = RuledArrayQueue<Option<Numbered<L>>, View<L>, Balances>;

/// An end of the ring.
pub type RingPass<L> = Pass<Option<Numbered<L>>, View<L>>;
