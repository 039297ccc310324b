//! The play of an act by a seat.
ghost use Rattle.std.specs.Prelude.{◌≡◌, ◌≤◌, true, IsOk, IfOk, OnOk, OnErr};
ghost use Rattle.stage_state.specs.Replies.{reply_of, accepts, stage_after, is_free, spare_left};
ghost use Rattle.stage_state.specs.Staged.{machine, IsStagePlayed};

use super::Stage;
use crate::reply::{ask_reply, take_reply};
use crate::{Act, ActReply};
use std::alloc::AllocError;

impl Stage {
    /// Plays an act of this seat: the answer of the act's call, where the act joins the others if it is placed.
    ///
    /// Memory is taken only where the act would be placed, and none for `Finish` and `Halt`.
    pub fn play(&mut self, seat: u64, act: &Act) -> Result<ActReply, AllocError>
        ensures reply { IfOk result (λ reply. reply ≡ reply_of (machine self.old.staged) act.now) }
        ensures acts { OnOk result (self.new.staged ≡ stage_after seat act.now self.old.staged) }
        ensures played { IsStagePlayed self.new.staged }
        ensures spare { OnOk result (spare_left act.now (machine self.old.staged) self.old.spare ≤ self.new.spare) }
        ensures wanting { OnErr result (accepts (machine self.old.staged) act.now ≡ true) }
        ensures memory { OnErr result (self.new.staged ≡ self.old.staged) }
        ensures room { OnErr result (self.old.spare ≤ self.new.spare) }
        ensures free { is_free act.now ≡ true → IsOk result }
    {
        Ok(match act {
            Act::Typed(op) => ActReply::Typed(ask_reply(self.type_at(seat, op))?),
            Act::Eval(place) => ActReply::Eval(ask_reply(self.eval_at(seat, *place))?),
            Act::Reset(text) => ActReply::Reset(ask_reply(self.reset_at(seat, text))?),
            Act::Take(entry) => ActReply::Take(take_reply(self.take_at(seat, entry))?),
            Act::Next => ActReply::Next(self.next_at(seat)?),
            Act::Finish => {
                self.finish_at(seat);
                ActReply::Finish
            }
            Act::Halt => {
                self.halt_at(seat);
                ActReply::Halt
            }
        })
    }
}
