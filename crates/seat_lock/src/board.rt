//! The table of the lock: four words and one slot, under one rule.
use crate::played::Played;
use atomic_table::{Seat, Table, TableRule};
use std::alloc::Global;
use std::collections::LinkedList;
use std::snapshot::Snapshot;

/// The word that counts the history.
pub(crate) const COUNT: usize = 0;

/// The word that counts the tickets.
pub(crate) const TICKETS: usize = 1;

/// The word that says whose turn it is.
pub(crate) const TURN: usize = 2;

/// The word that counts the numbers of seats.
pub(crate) const NUMBERS: usize = 3;

/// The slot that has the state.
pub(crate) const STATE: usize = 0;

/// What is known of one seat: its index, the rows that it has seen and those that were placed through it, and the indexes of
/// the seats that were made through it. No value of it is made.
pub struct Card<R> {
    pub index: u64,
    pub seen: LinkedList<R>,
    pub own: LinkedList<R>,
    pub made: LinkedList<u64>,
}

/// What a seat does just now. No value of it is made.
pub enum Phase {
    /// Nothing.
    Idle,
    /// It has an index to give to the next seat.
    Giving(u64),
    /// It has a ticket.
    Waiting(u64),
    /// It has the turn, by this ticket.
    Playing(u64),
}

/// What a seat at the table knows. No value of it is made.
pub struct View<R, F> {
    /// Whether it wasn't joined into another one.
    pub live: bool,
    /// Of itself.
    pub card: Card<R>,
    /// Of the seats that were joined into it.
    pub others: LinkedList<Card<R>>,
    /// What it does just now.
    pub phase: Phase,
    /// The part of the state that no play changes.
    pub fixed: Option<F>,
    /// The rows of the state that the hall was made of.
    pub start: LinkedList<R>,
}

/// The rule of the table.
pub struct Turns;

impl<S: Played> TableRule<Option<S>, View<S::Row, S::Fixed>, Snapshot<S>> for Turns {
    ghost use Rattle.seat_lock.specs.Turns.{KeepsTurns};
    ghost use Rattle.seat_lock.specs.Told.{new_view};
    ghost use Rattle.std.specs.Prelude.{Some};

    ghost holds = { λ key. KeepsTurns S.rows S.fixed S.seat_of S.legal key.value };

    ghost first = { λ key. new_view 0 (S.rows key.value) (Some (S.fixed key.value)) (S.rows key.value) };
}

/// The table of a hall over S.
pub type Board<S> = Table<
    Option<S>,
    View<<S as Played>::Row, <S as Played>::Fixed>,
    Snapshot<S>,
    Turns,
    Global,
>;

/// A seat at that table.
pub type TableSeat<S> = Seat<Option<S>, View<<S as Played>::Row, <S as Played>::Fixed>>;
