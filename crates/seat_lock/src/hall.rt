//! The lock.
ghost use Rattle.std.specs.Prelude.{◌≡◌, ℕ, ◌-◌, ◌^◌, ◌<◌, true, List, [], ◌∷◌, ◌++◌, length, map, Some, IfErr, IfOk, OnErr, IsOk};
ghost use Rattle.seat_lock.specs.Lists.{AllOf, Begins};
ghost use Rattle.seat_lock.specs.Told.{with_others};
ghost use Rattle.seat_lock.specs.Sized.{IsSized, IsSameSeat};
ghost use Rattle.seat_lock.specs.Settled.{AreAllSeats, IsSettled};
ghost use Rattle.seat_lock.specs.Values.{IsSeatOf, AccountFor, card_of, CallsTo};

use crate::board::{Board, COUNT, TableSeat};
use crate::played::Played;
use crate::seat::{Seat, SeatOf};
use crate::steps::{draw_number, give, join, look_at_count, reveal, take_out};
use crate::turn::{call_at, close_turn};
use crate::wait::{low_bits, take_ticket, wait_turn};
use atomic_table::{Refused, Table};
use std::alloc::{AllocError, AllocFailed, Global};
use std::marker::Model;
use std::snapshot::Snapshot;
use std::sync::Wait;

/// A state behind a ticket lock, seen as the state that it was made of.
#[derive(Drop)]
pub struct Hall<S: Played> {
    board: Board<S>,
}

impl<S: Played> Model for Hall<S> {
    ghost use Rattle.seat_lock.specs.Values.{HallValue};
    ghost use Rattle.seat_lock.specs.Sized.{IsSized};

    ghost Value = { HallValue S };

    ghost view = { λ h. record { table = h.board.shared.table_id; first = h.board.shared.key.value } };

    ghost invariant = { λ h. IsSized h.board.shared.table_id };
}

impl<S: Played> Hall<S> {
    /// A hall over this state, with its first seat. `Err` is want of memory, and hands the state back.
    pub fn new(alloc: Global, state: S) -> Result<(Hall<S>, SeatOf<S>), S>
        requires { AllOf (λ r. S.seat_of r ≡ 2 ^ 64 - 1) (S.rows state) }
        ensures hall { IfOk result (λ p. (p.0.first ≡ state) × IsSeatOf S.rows S.fixed p.0 p.1) }
        ensures seat { IfOk result (λ p. (p.1.number ≡ 0) × (p.1.index ≡ 0) × (p.1.seen ≡ S.rows state) × (p.1.own ≡ []) × (p.1.made ≡ [])) }
        ensures legal { S.legal (S.fixed state) (S.rows state) }
        ensures memory { IfErr result (λ s. s ≡ state) }
    {
        let about = Snapshot::of(&state);
        let count = state.length();
        let mut slots = Vec::new(alloc);
        if let Err(failed) = slots.push(Some(state)) {
            slots.destroy_empty();
            let AllocFailed { value } = failed;
            let Some(state) = value else { unreachable!() };
            return Err(state);
        }
        match Table::new(alloc, &[count, 0, 0, 1], slots, &about) {
            Ok((board, inner)) => Ok((Hall { board }, Seat { inner, number: 0 })),
            Err(refused) => Err(state_of(refused)),
        }
    }

    /// Makes a further seat, with the next number, which has seen what the first has seen.
    pub fn seat(&self, first: &mut SeatOf<S>) -> SeatOf<S>
        requires { IsSeatOf S.rows S.fixed self.now first.old }
        ensures hall { IsSeatOf S.rows S.fixed self.now first.new × IsSeatOf S.rows S.fixed self.now result }
        ensures number { (first.new.number ≡ first.old.number) × (first.new.index ≡ first.old.index) }
        ensures first { (first.new.seen ≡ first.old.seen) × (first.new.own ≡ first.old.own) }
        ensures made { first.new.made ≡ first.old.made ++ result.index ∷ [] }
        ensures new { (result.seen ≡ first.old.seen) × (result.own ≡ []) × (result.made ≡ []) }
        ensures later { first.new.index < result.index }
    {
        let number = draw_number(&self.board, &mut first.inner);
        let inner = give(&self.board, &mut first.inner);
        Seat { inner, number }
    }

    /// Waits for its turn, and plays the ask. `Err` is want of memory, which comes only where the ask would be accepted, and
    /// which a free ask never meets.
    pub fn call<R: Wait>(
        &self,
        rt: &R,
        seat: &mut SeatOf<S>,
        ask: &S::Ask,
    ) -> Result<S::Reply, AllocError>
        requires { IsSeatOf S.rows S.fixed self.now seat.old }
        ensures hall { IsSeatOf S.rows S.fixed self.now seat.new }
        ensures number { (seat.new.number ≡ seat.old.number) × (seat.new.index ≡ seat.old.index) }
        ensures seen { Begins seat.old.seen seat.new.seen }
        ensures made { seat.new.made ≡ seat.old.made }
        ensures legal { S.legal (S.fixed self.now.first) seat.new.seen }
        ensures ok { IfOk result (λ reply. CallsTo S.answer S.accepts S.row_made (S.fixed self.now.first) ask.now seat.old reply seat.new) }
        ensures memory { OnErr result (seat.new.own ≡ seat.old.own) }
        ensures wanting { OnErr result (S.accepts (S.fixed self.now.first) seat.new.seen ask.now ≡ true) }
        ensures free { S.is_free ask.now ≡ true → IsOk result }
    {
        let board = &self.board;
        let number = seat.number;
        let inner = &mut seat.inner;
        call_at(rt, board, inner, number, ask)
    }

    /// Looks at the count, and doesn't wait. The seat has then seen so many rows.
    pub fn look(&self, seat: &mut SeatOf<S>) -> u64
        requires { IsSeatOf S.rows S.fixed self.now seat.old }
        ensures hall { IsSeatOf S.rows S.fixed self.now seat.new }
        ensures number { (seat.new.number ≡ seat.old.number) × (seat.new.index ≡ seat.old.index) }
        ensures seen { Begins seat.old.seen seat.new.seen }
        ensures length { result ≡ length seat.new.seen }
        ensures others { (seat.new.own ≡ seat.old.own) × (seat.new.made ≡ seat.old.made) }
        ensures legal { S.legal (S.fixed self.now.first) seat.new.seen }
    {
        look_at_count(&self.board, &mut seat.inner)
    }

    /// Waits until there are more rows than this, and answers how many. The seat has then seen them. It parks on the count,
    /// which each row changes; that it is woken no clause says.
    pub fn wait_past<R: Wait>(&self, rt: &R, seat: &mut SeatOf<S>, start: u64) -> u64
        requires { IsSeatOf S.rows S.fixed self.now seat.old }
        ensures hall { IsSeatOf S.rows S.fixed self.now seat.new }
        ensures number { (seat.new.number ≡ seat.old.number) × (seat.new.index ≡ seat.old.index) }
        ensures seen { Begins seat.old.seen seat.new.seen }
        ensures length { result ≡ length seat.new.seen }
        ensures past { start < result }
        ensures others { (seat.new.own ≡ seat.old.own) × (seat.new.made ≡ seat.old.made) }
        ensures legal { S.legal (S.fixed self.now.first) seat.new.seen }
    {
        for _ in rt.forever() {
            let count = self.look(seat);
            if start < count {
                return count;
            }
            self.board.shared.park(rt, COUNT, low_bits(count));
        }
        unreachable!()
    }

    /// Waits for its turn, and lends the state.
    pub fn with<T, W: Wait, G: FnOnce(&S) -> T>(&self, rt: &W, seat: &mut SeatOf<S>, f: G) -> T
        requires hall { IsSeatOf S.rows S.fixed self.now seat.old }
        requires callable { G.IsAlwaysCallable f }
        ensures hall { IsSeatOf S.rows S.fixed self.now seat.new }
        ensures number { (seat.new.number ≡ seat.old.number) × (seat.new.index ≡ seat.old.index) }
        ensures seen { Begins seat.old.seen seat.new.seen }
        ensures others { (seat.new.own ≡ seat.old.own) × (seat.new.made ≡ seat.old.made) }
        ensures legal { S.legal (S.fixed self.now.first) seat.new.seen }
        ensures lent { (s : _) × (S.rows s.now ≡ seat.new.seen) × (S.fixed s.now ≡ S.fixed self.now.first) × G.post f s result }
    {
        let board = &self.board;
        let inner = &mut seat.inner;
        let ticket = take_ticket(rt, board, inner);
        wait_turn(rt, board, inner, ticket);
        let state = take_out(board, inner);
        let answer = f(&state);
        close_turn(board, inner, state);
        answer
    }
}

impl<S: Played + Drop> Hall<S> {
    /// Waits for its turn, takes the state out, and joins the seats. It needs nothing of seats that were dropped.
    pub fn close<R: Wait>(self, rt: &R, mut seats: Vec<SeatOf<S>>) -> S
        requires some { 0 < length seats.items }
        requires hall { AllOf (IsSeatOf S.rows S.fixed self) seats.items }
        ensures settled { IsSettled S.seat_of (S.rows self.first) (S.rows result) (map card_of seats.items) }
        ensures whole { AreAllSeats (map card_of seats.items) → AccountFor S.seat_of (S.rows self.first) (S.rows result) seats.items }
        ensures fixed { S.fixed result ≡ S.fixed self.first }
        ensures legal { S.legal (S.fixed self.first) (S.rows result) }
    {
        let mut inner = seats.remove(0).into_inner();
        let board = &self.board;
        let ticket = take_ticket(rt, board, &mut inner);
        wait_turn(rt, board, &mut inner, ticket);
        let state = take_out(board, &mut inner);
        join_all(board, &mut inner, seats);
        reveal(board, &mut inner);
        state
    }
}

// Joins all seats into the first.
fn join_all<S: Played>(board: &Board<S>, inner: &mut TableSeat<S>, mut seats: Vec<SeatOf<S>>)
    requires board { IsSized board.now.shared.table_id × (inner.old.table_id ≡ board.now.shared.table_id) }
    requires live { inner.old.me.0.live ≡ true }
    requires hall { AllOf (λ s. s.table ≡ board.now.shared.table_id) seats.items }
    ensures same { IsSameSeat inner.old inner.new }
    ensures joined { inner.new.me ≡ (with_others inner.old.me.0 (inner.old.me.0.others ++ map card_of seats.items), inner.old.me.1) }
{
    while !seats.is_empty() {
        join(board, inner, seats.remove(0).into_inner());
    }
}

// The state that a table was to be made of.
fn state_of<S: Played>(refused: Refused<Option<S>, Global>) -> S
    requires { (s : S) × (refused.slots.items ≡ Some s ∷ []) }
    ensures { refused.slots.items ≡ Some result ∷ [] }
{
    let Refused { mut slots } = refused;
    let Some(slot) = slots.pop() else {
        unreachable!()
    };
    slots.destroy_empty();
    let Some(state) = slot else { unreachable!() };
    state
}
