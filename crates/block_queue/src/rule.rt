//! The rule of the queue's ring, and what a step under it tells.
ghost use Rattle.std.specs.Prelude.{◌≡◌, ◌++◌};

use crate::Item;
use crossbeam_queue::RuledArrayQueue;
use crossbeam_queue::protocol::{Join, Lesson, Outcome, Protocol, Split};
use std::alloc::Global;
use std::collections::LinkedList;

/// What an end may do, and what went through it. No value of it is made.
pub struct EndView {
    pub pushes: bool,
    pub pops: bool,
    pub pushed: LinkedList<Item>,
    pub popped: LinkedList<Item>,
}

/// The rule: what was popped, and then what the ring holds, is what was pushed.
pub struct InOrder;

impl Protocol<Item, EndView> for InOrder {
    ghost use Rattle.std.specs.Prelude.{true, []};
    ghost use Rattle.block_queue.specs.Order.{end_view, IsInOrder};

    ghost holds = { IsInOrder };

    ghost first = { end_view true true [] [] };
}

/// The two ends: one pushes, the other pops.
pub(crate) struct Ends;

impl Split<EndView> for Ends {
    ghost use Rattle.std.specs.Prelude.{true, false, []};
    ghost use Rattle.block_queue.specs.Order.{end_view};

    ghost left = { λ v. end_view true false v.pushed [] };

    ghost right = { λ v. end_view false true [] v.popped };
}

impl Join<EndView> for Ends {
    ghost use Rattle.std.specs.Prelude.{true, false, []};
    ghost use Rattle.block_queue.specs.Order.{end_view};

    ghost both = { λ v w. end_view true true w.pushed v.popped };

    ghost spent = { end_view false false [] [] };
}

/// The end that pops, taken in by the one that pushes.
pub(crate) struct PopperIn;

impl Join<EndView> for PopperIn {
    ghost use Rattle.std.specs.Prelude.{true, false, []};
    ghost use Rattle.block_queue.specs.Order.{end_view};

    ghost both = { λ v w. end_view true true v.pushed w.popped };

    ghost spent = { end_view false false [] [] };
}

/// One item more was pushed. A full ring holds the last of the items that were, and who has both ends knows that it holds those that
/// weren't popped.
pub(crate) struct Pushed;

impl Outcome<Item, EndView> for Pushed {
    ghost use Rattle.block_queue.specs.Order.{with_pushed};

    ghost then = { λ v item w. w ≡ with_pushed item v };
}

impl Lesson<Item, EndView> for Pushed {
    ghost use Rattle.block_queue.specs.Order.{KnowsUnpopped};

    ghost fact = { KnowsUnpopped };
}

/// One item more was popped. Of an empty ring who has both ends knows that all that was pushed was popped.
pub(crate) struct Popped;

impl Outcome<Item, EndView> for Popped {
    ghost use Rattle.block_queue.specs.Order.{with_popped};

    ghost then = { λ v item w. w ≡ with_popped item v };
}

impl Lesson<Item, EndView> for Popped {
    ghost use Rattle.block_queue.specs.Order.{KnowsWhole};

    ghost fact = { KnowsWhole };
}

/// Who has both ends knows that what was popped, and then what the ring holds, is what was pushed.
pub(crate) struct Whole;

impl Lesson<Item, EndView> for Whole {
    ghost fact = { λ v items. v.pushed ≡ v.popped ++ items };
}

/// A ring of items under the rule.
pub(crate) type Ring = RuledArrayQueue<Item, EndView, InOrder, Global>;
