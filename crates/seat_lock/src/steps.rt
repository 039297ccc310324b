//! The kinds of atomic step.
ghost use Rattle.std.specs.Prelude.{◌≡◌, ◌≢◌, ℕ, ◌+◌, ◌%◌, ◌^◌, ◌<◌, true, List, [], ◌∷◌, ◌++◌, length, Some, None};
ghost use mathlib.Core.Option.{none};
ghost use Rattle.atomic_table.specs.Table.{step};
ghost use Rattle.seat_lock.specs.Told.{DrawsTicket, DrawsNumber, PassesTurn, TakesTurn, Publishes, LooksAtCount, given_view, in_phase, joined_view, slot_rows};
ghost use Rattle.seat_lock.specs.declared.board.Phase.TheVariants.{Idle, Giving, Waiting, Playing};
ghost use Rattle.seat_lock.specs.Settled.{IsSettled};
ghost use Rattle.seat_lock.specs.Sized.{IsSized, IsSameSeat};

use crate::board::{Board, COUNT, NUMBERS, STATE, TICKETS, TURN, TableSeat};
use crate::played::Played;
use crate::plays::{Count, Draw, Give, LookAtTurn, Merge, Number, PassTurn, Publish, Reveal};

/// Returns the word as it was. Where that is `old`, the seat has that ticket.
pub(crate) fn draw<S: Played>(board: &Board<S>, inner: &mut TableSeat<S>, old: u64) -> u64
    requires board { IsSized board.now.shared.table_id × (inner.old.table_id ≡ board.now.shared.table_id) }
    requires idle { (inner.old.me.0.live ≡ true) × (inner.old.me.0.phase ≡ Idle) }
    requires below { old + 1 < 2 ^ 64 }
    ensures same { IsSameSeat inner.old inner.new }
    ensures drew { DrawsTicket (step 1 1 old (old + 1) none) inner.old.me result inner.new.me }
{
    board
        .shared
        .compare_exchange::<Draw>(inner, TICKETS, old, old + 1)
}

/// Returns the turn. Where that is the seat's ticket, it has the turn and the state.
pub(crate) fn look_at_turn<S: Played>(board: &Board<S>, inner: &mut TableSeat<S>) -> u64
    requires board { IsSized board.now.shared.table_id × (inner.old.table_id ≡ board.now.shared.table_id) }
    requires waiting { (inner.old.me.0.live ≡ true) × ((t : ℕ) × (inner.old.me.0.phase ≡ Waiting t)) }
    ensures same { IsSameSeat inner.old inner.new }
    ensures turned { TakesTurn S.rows S.fixed S.legal (step 1 2 0 0 none) inner.old.me result inner.new.me }
{
    board.shared.load::<LookAtTurn>(inner, TURN)
}

/// Takes the state out of the slot, which is the seat's.
pub(crate) fn take_out<S: Played>(board: &Board<S>, inner: &mut TableSeat<S>) -> S
    requires board { inner.old.table_id ≡ board.now.shared.table_id }
    requires held { (y : S) × (inner.old.me.1 ≡ (0, Some y) ∷ []) }
    ensures same { IsSameSeat inner.old inner.new }
    ensures out { (inner.old.me.1 ≡ (0, Some result) ∷ []) × (inner.new.me ≡ (inner.old.me.0, (0, None) ∷ [])) }
{
    match board.shared.exchange(inner, STATE, None) {
        Some(state) => state,
        None => unreachable!(),
    }
}

/// Puts the state into the slot, which is still the seat's.
pub(crate) fn put_in<S: Played>(board: &Board<S>, inner: &mut TableSeat<S>, state: S)
    requires board { inner.old.table_id ≡ board.now.shared.table_id }
    requires out { inner.old.me.1 ≡ (0, None) ∷ [] }
    ensures same { IsSameSeat inner.old inner.new }
    ensures held { inner.new.me ≡ (inner.old.me.0, (0, Some state) ∷ []) }
{
    let found = board.shared.exchange(inner, STATE, Some(state));
    let None = found else { unreachable!() };
}

/// Passes the turn on, with the state in the slot, and calls those who wait for it.
pub(crate) fn pass_turn<S: Played>(board: &Board<S>, inner: &mut TableSeat<S>)
    requires board { IsSized board.now.shared.table_id × (inner.old.table_id ≡ board.now.shared.table_id) }
    requires turn { (inner.old.me.0.live ≡ true) × ((t : ℕ) × (inner.old.me.0.phase ≡ Playing t)) }
    requires held { (y : S) × (inner.old.me.1 ≡ (0, Some y) ∷ []) × (S.rows y ≡ inner.old.me.0.card.seen) × (S.fixed y ≡ S.fixed board.now.shared.key.value) }
    ensures same { IsSameSeat inner.old inner.new }
    ensures passed { inner.new.me ≡ (in_phase inner.old.me.0 Idle, []) }
{
    board.shared.fetch_add::<PassTurn>(inner, TURN, 1);
    board.shared.wake_all(TURN);
}

/// Draws the number of a further seat, the new index modulo 2^64.
pub(crate) fn draw_number<S: Played>(board: &Board<S>, inner: &mut TableSeat<S>) -> u64
    requires board { IsSized board.now.shared.table_id × (inner.old.table_id ≡ board.now.shared.table_id) }
    requires idle { (inner.old.me.0.live ≡ true) × (inner.old.me.0.phase ≡ Idle) × (inner.old.me.0.others ≡ []) }
    ensures same { IsSameSeat inner.old inner.new }
    ensures numbered { DrawsNumber (step 1 3 1 0 none) inner.old.me result inner.new.me }
{
    board.shared.fetch_add::<Number>(inner, NUMBERS, 1)
}

/// Makes a seat with the index that was drawn, which has seen as much.
pub(crate) fn give<S: Played>(board: &Board<S>, inner: &mut TableSeat<S>) -> TableSeat<S>
    requires board { IsSized board.now.shared.table_id × (inner.old.table_id ≡ board.now.shared.table_id) }
    requires giving { (inner.old.me.0.live ≡ true) × (inner.old.me.0.others ≡ []) × ((k : ℕ) × (inner.old.me.0.phase ≡ Giving k)) }
    ensures same { IsSameSeat inner.old inner.new × (inner.new.me ≡ (in_phase inner.old.me.0 Idle, inner.old.me.1)) }
    ensures new { (result.table_id ≡ inner.old.table_id) × (result.me ≡ (given_view inner.old.me.0, [])) }
{
    board.shared.split_seat::<Give>(inner)
}

/// Returns the count. The seat has then seen that many rows.
pub(crate) fn look_at_count<S: Played>(board: &Board<S>, inner: &mut TableSeat<S>) -> u64
    requires board { IsSized board.now.shared.table_id × (inner.old.table_id ≡ board.now.shared.table_id) }
    requires live { inner.old.me.0.live ≡ true }
    ensures same { IsSameSeat inner.old inner.new }
    ensures counted { LooksAtCount S.legal (step 1 0 0 0 none) inner.old.me result inner.new.me }
{
    board.shared.load::<Count>(inner, COUNT)
}

/// Counts the last row of the state in the slot, which is the seat's, and calls those who wait for rows.
pub(crate) fn publish<S: Played>(board: &Board<S>, inner: &mut TableSeat<S>)
    requires board { IsSized board.now.shared.table_id × (inner.old.table_id ≡ board.now.shared.table_id) }
    requires turn { (inner.old.me.0.live ≡ true) × (inner.old.me.0.others ≡ []) × ((t : ℕ) × (inner.old.me.0.phase ≡ Playing t)) }
    requires row { (y : S) × (r : S.Row) × (inner.old.me.1 ≡ (0, Some y) ∷ []) × (S.rows y ≡ inner.old.me.0.card.seen ++ r ∷ []) × (S.seat_of r ≡ inner.old.me.0.card.index % 2 ^ 64) × S.legal (S.fixed board.now.shared.key.value) (S.rows y) × (length (S.rows y) < 2 ^ 64) }
    ensures same { IsSameSeat inner.old inner.new }
    ensures published { Publishes S.rows (step 1 0 1 0 none) inner.old.me 0 inner.new.me }
{
    board.shared.fetch_add::<Publish>(inner, COUNT, 1);
    board.shared.wake_all(COUNT);
}

/// Gives the second seat up. The first keeps what is known of it.
pub(crate) fn join<S: Played>(board: &Board<S>, inner: &mut TableSeat<S>, other: TableSeat<S>)
    requires board { IsSized board.now.shared.table_id × (inner.old.table_id ≡ board.now.shared.table_id) × (other.table_id ≡ board.now.shared.table_id) }
    requires live { (inner.old.me.0.live ≡ true) × (other.me.0.live ≡ true) × (other.me.1 ≡ []) }
    ensures same { IsSameSeat inner.old inner.new }
    ensures joined { inner.new.me ≡ (joined_view inner.old.me.0 other.me.0, inner.old.me.1) }
{
    board.shared.join_seat::<Merge>(inner, other);
}

/// Tells the seat with the turn what it and those that were joined into it know.
pub(crate) fn reveal<S: Played>(board: &Board<S>, inner: &mut TableSeat<S>)
    requires board { IsSized board.now.shared.table_id × (inner.old.table_id ≡ board.now.shared.table_id) }
    requires turn { (inner.old.me.0.live ≡ true) × ((t : ℕ) × (inner.old.me.0.phase ≡ Playing t)) }
    ensures same { IsSameSeat inner.old inner.new × (inner.new.me ≡ inner.old.me) }
    ensures settled { IsSettled S.seat_of inner.old.me.0.start inner.old.me.0.card.seen (inner.old.me.0.card ∷ inner.old.me.0.others) }
{
    board.shared.load::<Reveal>(inner, COUNT);
}
