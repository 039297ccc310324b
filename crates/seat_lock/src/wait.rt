//! Waiting for the turn.
ghost use Rattle.std.specs.Prelude.{◌≡◌, ◌≢◌, ℕ, ◌+◌, ◌%◌, ◌^◌, ◌<◌, true, List, [], ◌∷◌, length, Some, None};
ghost use Rattle.seat_lock.specs.Lists.{Begins};
ghost use Rattle.seat_lock.specs.Told.{having_turn, in_phase};
ghost use Rattle.seat_lock.specs.declared.board.Phase.TheVariants.{Idle, Waiting, Playing};
ghost use Rattle.seat_lock.specs.Sized.{IsSized, IsSameSeat};

use crate::board::{Board, TICKETS, TURN, TableSeat};
use crate::played::Played;
use crate::steps::{draw, look_at_turn};
use std::sync::Wait;
use std::thread;

/// Draws a ticket. Once `u64::MAX` of them are drawn, it waits for ever.
pub(crate) fn take_ticket<S: Played, R: Wait>(
    rt: &R,
    board: &Board<S>,
    inner: &mut TableSeat<S>,
) -> u64
    requires board { IsSized board.now.shared.table_id × (inner.old.table_id ≡ board.now.shared.table_id) }
    requires idle { (inner.old.me.0.live ≡ true) × (inner.old.me.0.phase ≡ Idle) }
    ensures same { IsSameSeat inner.old inner.new }
    ensures ticket { inner.new.me ≡ (in_phase inner.old.me.0 (Waiting result), inner.old.me.1) }
{
    for _ in rt.forever() {
        let old = board.shared.peek(TICKETS);
        if old < u64::MAX && draw(board, inner, old) == old {
            return old;
        }
        thread::yield_now();
    }
    unreachable!()
}

/// Waits until the ticket has its turn. The state is then the seat's.
pub(crate) fn wait_turn<S: Played, R: Wait>(
    rt: &R,
    board: &Board<S>,
    inner: &mut TableSeat<S>,
    ticket: u64,
)
    requires board { IsSized board.now.shared.table_id × (inner.old.table_id ≡ board.now.shared.table_id) }
    requires waiting { (inner.old.me.0.live ≡ true) × (inner.old.me.0.phase ≡ Waiting ticket) }
    ensures same { IsSameSeat inner.old inner.new }
    ensures turn { (y : S) × (inner.new.me ≡ (having_turn inner.old.me.0 ticket (S.rows y), (0, Some y) ∷ inner.old.me.1)) × Begins inner.old.me.0.card.seen (S.rows y) × (inner.old.me.0.fixed ≡ Some (S.fixed y)) × S.legal (S.fixed y) (S.rows y) }
{
    for _ in rt.forever() {
        let turn = look_at_turn(board, inner);
        if turn == ticket {
            return;
        }
        board.shared.park(rt, TURN, low_bits(turn));
    }
    unreachable!()
}

/// The bits of a word that a parked thread watches: the lower half.
pub(crate) fn low_bits(word: u64) -> u32
    ensures { result ≡ word % 2 ^ 32 }
{
    (word % 0x1_0000_0000) as u32
}
