//! The stage as a state that a hall keeps: its acts are placed by several seats.
ghost use Rattle.std.specs.Prelude.{◌≡◌, true};

use crate::{Act, ActReply, Stage};
use seat_lock::Played;
use std::alloc::AllocError;
use std::collections::LinkedList;

/// The part of a stage that no act changes: its performer's number, the position of its join, the position that it starts at, and the
/// pairs of its document there. Contracts alone speak of it, and no value of it is made.
pub struct Origin {
    pub own: u32,
    pub joined: u64,
    pub start: u64,
    pub text: LinkedList<(char, u32)>,
}

impl Played for Stage {
    ghost use Rattle.std.specs.Prelude.{refl};
    ghost use Rattle.stage_state.specs.Origins.{origin_of, machine_at, ArePlayed};
    ghost use Rattle.stage_state.specs.Replies.{reply_of, accepts, is_free};

    type Ask = Act;

    type Reply = ActReply;

    type Row = (u64, Act);

    type Fixed = Origin;

    ghost rows = { λ stage. stage.staged.acts };

    ghost fixed = { λ stage. origin_of stage.staged };

    ghost seat_of = { λ row. row.0 };

    ghost answer = { λ origin acts act. reply_of (machine_at origin acts) act };

    ghost accepts = { λ origin acts act. accepts (machine_at origin acts) act };

    ghost row_made = { λ _ _ seat act. (seat, act) };

    ghost is_free = { λ act. is_free act };

    ghost legal = { ArePlayed };

    ghost carries_seat = { λ origin acts seat act. refl };

    fn play(&mut self, seat: u64, ask: &Act) -> Result<ActReply, AllocError> {
        Stage::play(self, seat, ask)
    }

    fn length(&self) -> u64 {
        self.acts().len() as u64
    }
}
