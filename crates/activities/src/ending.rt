//! How a line ends at the stage.
ghost use Rattle.activities.specs.Memory.{SeatMemory, Remembers, IsStageSeat, KeepsSeat, origin_at};
ghost use Rattle.activities.specs.Ending.{Halts, HaltsMemory};

use crate::errors::PerformError;
use crate::stage_hall::{StageSeat, play};
use seat_lock::Hall;
use stage_state::{Act, Stage};
use std::sync::Wait;

/// Halts the stage where there is an error.
pub(crate) fn halt_at<W: Wait>(
    rt: &W,
    hall: &Hall<Stage>,
    seat: &mut StageSeat,
    end: &Option<PerformError>,
)
    requires { IsStageSeat hall.now seat.old }
    ensures seat { KeepsSeat hall.now seat.old seat.new }
    ensures own { Halts (origin_at hall.now) end.now seat.old seat.new }
    ensures memory { (k : SeatMemory) → Remembers k seat.old → HaltsMemory (origin_at hall.now) k seat.new }
{
    if end.is_none() {
        return;
    }
    let _ = play(rt, hall, seat, &Act::Halt);
}
