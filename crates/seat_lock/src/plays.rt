//! What each step on the table tells. A step is a type of its own; no value of one is made.
ghost use Rattle.seat_lock.specs.Told.{DrawsTicket, DrawsNumber, PassesTurn, TakesTurn, Publishes, LooksAtCount, in_phase, given_view, joined_view, spent_view};
ghost use Rattle.seat_lock.specs.declared.board.Phase.TheVariants.{Idle};

use crate::board::View;
use crate::played::Played;
use atomic_table::{Join, Play, Split};

/// A number for a further seat is drawn.
pub(crate) struct Number;

impl<S: Played> Play<Option<S>, View<S::Row, S::Fixed>> for Number {
    ghost then = { DrawsNumber };
}

/// A ticket is drawn.
pub(crate) struct Draw;

impl<S: Played> Play<Option<S>, View<S::Row, S::Fixed>> for Draw {
    ghost then = { DrawsTicket };
}

/// The seat looks whether it is its turn.
pub(crate) struct LookAtTurn;

impl<S: Played> Play<Option<S>, View<S::Row, S::Fixed>> for LookAtTurn {
    ghost then = { TakesTurn S.rows S.fixed S.legal };
}

/// The last row of the state in the seat's hands is counted.
pub(crate) struct Publish;

impl<S: Played> Play<Option<S>, View<S::Row, S::Fixed>> for Publish {
    ghost then = { Publishes S.rows };
}

/// The turn goes to the next ticket.
pub(crate) struct PassTurn;

impl<S: Played> Play<Option<S>, View<S::Row, S::Fixed>> for PassTurn {
    ghost then = { PassesTurn };
}

/// The seat looks at the count.
pub(crate) struct Count;

impl<S: Played> Play<Option<S>, View<S::Row, S::Fixed>> for Count {
    ghost then = { LooksAtCount S.legal };
}

/// The second seat gets the index that the first has to give.
pub(crate) struct Give;

impl<R, F> Split<View<R, F>> for Give {
    ghost left = { λ v. in_phase v Idle };

    ghost right = { given_view };
}

/// The second seat is given up, and the first keeps what is known of it.
pub(crate) struct Merge;

impl<R, F> Join<View<R, F>> for Merge {
    ghost both = { joined_view };

    ghost spent = { spent_view };
}

/// The seat with the turn is told what it and those that were joined into it know.
pub(crate) struct Reveal;

impl<S: Played> Play<Option<S>, View<S::Row, S::Fixed>> for Reveal {
    ghost use Rattle.seat_lock.specs.Settled.{Reveals};

    ghost then = { Reveals S.seat_of };
}
