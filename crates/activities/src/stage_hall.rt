//! The calls of a stage's hall.
ghost use Rattle.std.specs.Prelude.{◌≡◌, ◌<◌, true, length, IfOk, OnErr, IsOk};
ghost use Rattle.stage_state.specs.Origins.{machine_at, ArePlayed};
ghost use Rattle.stage_state.specs.Replies.{accepts, is_free};
ghost use Rattle.activities.specs.Memory.{IsStageSeat, KeepsSeat, origin_at, ActsAt};

use seat_lock::{Hall, SeatOf};
use stage_state::{Act, ActReply, Stage};
use std::alloc::AllocError;
use std::sync::Wait;

/// A seat of a hall over a stage.
pub type StageSeat = SeatOf<Stage>;

// Plays the act at the stage. Want of memory comes only where the stage would place it.
pub(crate) fn play<W: Wait>(
    rt: &W,
    hall: &Hall<Stage>,
    seat: &mut StageSeat,
    act: &Act,
) -> Result<ActReply, AllocError>
    requires { IsStageSeat hall.now seat.old }
    ensures seat { KeepsSeat hall.now seat.old seat.new }
    ensures ok { IfOk result (λ reply. ActsAt (origin_at hall.now) act.now seat.old reply seat.new) }
    ensures memory { OnErr result (seat.new.own ≡ seat.old.own) }
    ensures wanting { OnErr result (accepts (machine_at (origin_at hall.now) seat.new.seen) act.now ≡ true) }
    ensures legal { ArePlayed (origin_at hall.now) seat.new.seen }
    ensures free { is_free act.now ≡ true → IsOk result }
{
    hall.call(rt, seat, act)
}

// Whether the leave went out.
pub(crate) fn leave_was_sent<W: Wait>(rt: &W, hall: &Hall<Stage>, seat: &mut StageSeat) -> bool
    requires { IsStageSeat hall.now seat.old }
    ensures seat { KeepsSeat hall.now seat.old seat.new }
    ensures own { seat.new.own ≡ seat.old.own }
    ensures legal { ArePlayed (origin_at hall.now) seat.new.seen }
    ensures sent { result ≡ (machine_at (origin_at hall.now) seat.new.seen).leave_sent }
{
    hall.with(rt, seat, |stage: &Stage| stage.leave_sent())
}

// How many acts there are. It doesn't wait for the turn.
pub(crate) fn count_acts(hall: &Hall<Stage>, seat: &mut StageSeat) -> u64
    requires { IsStageSeat hall.now seat.old }
    ensures seat { KeepsSeat hall.now seat.old seat.new }
    ensures own { seat.new.own ≡ seat.old.own }
    ensures length { result ≡ length seat.new.seen }
{
    hall.look(seat)
}

// Waits until there are more acts than this.
pub(crate) fn wait_past<W: Wait>(rt: &W, hall: &Hall<Stage>, seat: &mut StageSeat, acts: u64)
    requires { IsStageSeat hall.now seat.old }
    ensures seat { KeepsSeat hall.now seat.old seat.new }
    ensures own { seat.new.own ≡ seat.old.own }
    ensures past { acts < length seat.new.seen }
{
    hall.wait_past(rt, seat, acts);
}
