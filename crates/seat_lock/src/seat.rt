//! A seat of a hall.
ghost use Rattle.std.specs.Prelude.{◌≡◌};
ghost use Rattle.seat_lock.specs.Calls.{IsResting};
ghost use Rattle.seat_lock.specs.Values.{IsInnerOf};

use crate::board::View;
use crate::played::Played;
use std::marker::Model;

/// A seat of a hall. R and F are the rows and the fixed part of the state; the struct has no bound, so that closures in generic code
/// may take and return it.
pub struct Seat<S, R, F> {
    pub(crate) inner: atomic_table::Seat<Option<S>, View<R, F>>,
    pub(crate) number: u64,
}

/// A seat of a hall over S.
pub type SeatOf<S> = Seat<S, <S as Played>::Row, <S as Played>::Fixed>;

impl<S, R, F> Model for Seat<S, R, F> {
    ghost use Rattle.std.specs.Prelude.{◌≡◌, ◌%◌, ◌^◌};
    ghost use Rattle.seat_lock.specs.Values.{SeatValue, seat_value};
    ghost use Rattle.seat_lock.specs.Calls.{IsResting};

    ghost Value = { SeatValue R F };

    ghost view = { λ s. seat_value s.inner.table_id s.number s.inner.me.0 };

    ghost invariant = { λ s. IsResting s.inner.me × (s.number ≡ s.inner.me.0.card.index % 2 ^ 64) };
}

impl<S, R, F> Seat<S, R, F> {
    /// Its number, which the rows that are placed through it carry.
    pub fn number(&self) -> u64
        ensures { result ≡ self.now.number }
    {
        self.number
    }

    /// The seat at the table.
    pub(crate) fn into_inner(self) -> atomic_table::Seat<Option<S>, View<R, F>>
        ensures { IsResting result.me × IsInnerOf self result }
    {
        let Self { inner, number: _ } = self;
        inner
    }
}

impl<S, R, F> Drop for Seat<S, R, F> {
    fn drop(self) {
        let Self {
            inner: _,
            number: _,
        } = self;
    }
}
