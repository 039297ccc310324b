//! What is done with the turn.
ghost use Rattle.std.specs.Prelude.{◌≡◌, ℕ, ◌%◌, ◌^◌, ◌<◌, true, List, [], ◌∷◌, ◌++◌, length, None, Some, IfOk, OnErr, IsOk};
ghost use Rattle.seat_lock.specs.Lists.{Begins};
ghost use Rattle.seat_lock.specs.Told.{having_gained, having_seen, in_phase};
ghost use Rattle.seat_lock.specs.declared.board.Phase.TheVariants.{Idle, Playing};
ghost use Rattle.seat_lock.specs.Sized.{IsSized, IsSameSeat};
ghost use Rattle.seat_lock.specs.Calls.{CallsView, IsResting};

use crate::board::{Board, TableSeat};
use crate::played::Played;
use crate::steps::{pass_turn, publish, put_in, take_out};
use crate::wait::{take_ticket, wait_turn};
use std::alloc::AllocError;
use std::sync::Wait;

/// Gives the state back as it was, and passes the turn on.
pub(crate) fn close_turn<S: Played>(board: &Board<S>, inner: &mut TableSeat<S>, state: S)
    requires board { IsSized board.now.shared.table_id × (inner.old.table_id ≡ board.now.shared.table_id) }
    requires turn { (inner.old.me.0.live ≡ true) × ((t : ℕ) × (inner.old.me.0.phase ≡ Playing t)) × (inner.old.me.1 ≡ (0, None) ∷ []) }
    requires same_rows { (S.rows state ≡ inner.old.me.0.card.seen) × (S.fixed state ≡ S.fixed board.now.shared.key.value) }
    ensures same { IsSameSeat inner.old inner.new }
    ensures passed { inner.new.me ≡ (in_phase inner.old.me.0 Idle, []) }
{
    put_in(board, inner, state);
    pass_turn(board, inner);
}

// Gives the state back with one row more, publishes the row, and passes the turn on.
fn publish_turn<S: Played>(board: &Board<S>, inner: &mut TableSeat<S>, state: S)
    requires board { IsSized board.now.shared.table_id × (inner.old.table_id ≡ board.now.shared.table_id) }
    requires turn { (inner.old.me.0.live ≡ true) × (inner.old.me.0.others ≡ []) × ((t : ℕ) × (inner.old.me.0.phase ≡ Playing t)) × (inner.old.me.1 ≡ (0, None) ∷ []) }
    requires row { (r : S.Row) × (S.rows state ≡ inner.old.me.0.card.seen ++ r ∷ []) × (S.seat_of r ≡ inner.old.me.0.card.index % 2 ^ 64) }
    requires state { (S.fixed state ≡ S.fixed board.now.shared.key.value) × S.legal (S.fixed board.now.shared.key.value) (S.rows state) × (length (S.rows state) < 2 ^ 64) }
    ensures same { IsSameSeat inner.old inner.new }
    ensures passed { inner.new.me ≡ (in_phase (having_gained inner.old.me.0 (S.rows state)) Idle, []) }
{
    put_in(board, inner, state);
    publish(board, inner);
    pass_turn(board, inner);
}

/// Waits for the turn, and plays the ask.
pub(crate) fn call_at<S: Played, R: Wait>(
    rt: &R,
    board: &Board<S>,
    inner: &mut TableSeat<S>,
    number: u64,
    ask: &S::Ask,
) -> Result<S::Reply, AllocError>
    requires board { IsSized board.now.shared.table_id × (inner.old.table_id ≡ board.now.shared.table_id) }
    requires resting { IsResting inner.old.me × (number ≡ inner.old.me.0.card.index % 2 ^ 64) × (inner.old.me.0.fixed ≡ Some (S.fixed board.now.shared.key.value)) }
    ensures same { IsSameSeat inner.old inner.new × IsResting inner.new.me }
    ensures seen { Begins inner.old.me.0.card.seen inner.new.me.0.card.seen }
    ensures legal { S.legal (S.fixed board.now.shared.key.value) inner.new.me.0.card.seen }
    ensures ok { IfOk result (λ reply. CallsView S.answer S.accepts S.row_made (S.fixed board.now.shared.key.value) number ask.now inner.old.me.0 reply inner.new.me.0) }
    ensures memory { OnErr result ((log : List S.Row) × Begins inner.old.me.0.card.seen log × (inner.new.me.0 ≡ having_seen inner.old.me.0 log)) }
    ensures wanting { OnErr result (S.accepts (S.fixed board.now.shared.key.value) inner.new.me.0.card.seen ask.now ≡ true) }
    ensures free { S.is_free ask.now ≡ true → IsOk result }
{
    let ticket = take_ticket(rt, board, inner);
    wait_turn(rt, board, inner, ticket);
    play_turn(board, inner, number, ask)
}

// Plays the ask with the turn, and publishes the row that it makes.
fn play_turn<S: Played>(
    board: &Board<S>,
    inner: &mut TableSeat<S>,
    number: u64,
    ask: &S::Ask,
) -> Result<S::Reply, AllocError>
    requires board { IsSized board.now.shared.table_id × (inner.old.table_id ≡ board.now.shared.table_id) }
    requires turn { (inner.old.me.0.live ≡ true) × (inner.old.me.0.others ≡ []) × ((t : ℕ) × (inner.old.me.0.phase ≡ Playing t)) × (number ≡ inner.old.me.0.card.index % 2 ^ 64) }
    requires held { (y : S) × (inner.old.me.1 ≡ (0, Some y) ∷ []) × (S.rows y ≡ inner.old.me.0.card.seen) × (S.fixed y ≡ S.fixed board.now.shared.key.value) }
    ensures same { IsSameSeat inner.old inner.new }
    ensures legal { S.legal (S.fixed board.now.shared.key.value) inner.new.me.0.card.seen }
    ensures ok { IfOk result (λ reply. CallsView S.answer S.accepts S.row_made (S.fixed board.now.shared.key.value) number ask.now inner.old.me.0 reply inner.new.me.0) }
    ensures memory { OnErr result (inner.new.me.0 ≡ in_phase inner.old.me.0 Idle) }
    ensures wanting { OnErr result (S.accepts (S.fixed board.now.shared.key.value) inner.new.me.0.card.seen ask.now ≡ true) }
    ensures free { S.is_free ask.now ≡ true → IsOk result }
    ensures rested { inner.new.me.1 ≡ [] }
{
    let mut state = take_out(board, inner);
    let before = state.length();
    let reply = state.play(number, ask);
    if before < state.length() {
        publish_turn(board, inner, state);
    } else {
        close_turn(board, inner, state);
    }
    reply
}
