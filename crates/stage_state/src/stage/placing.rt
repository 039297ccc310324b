//! Acts of a seat: each is placed where it can be.
ghost use Rattle.std.specs.Prelude.{◌≡◌, ◌≤◌, ◌-◌, [], ◌∷◌, true, false, IsOk, IfOk, IfErr, OnOk, OnErr};
ghost use Rattle.troop_entry.specs.Told.{block_told};
ghost use Rattle.stage_state.specs.Causes.{IsTypeCause, IsEvalCause, IsResetCause, IsTakeCause};
ghost use Rattle.stage_state.specs.Machine.{after_asking, next_of, after_act, IsSend, CanAct};
ghost use Rattle.stage_state.specs.Staged.{machine, with_act, stage_after_next, IsStagePlayed, IsQuiet};

use super::Stage;
use crate::{Act, Next, StageError, TakeError};
use ot_text::{Op, Text};
use std::alloc::AllocError;
use troop_entry::{Block, Call, Entry};

impl Stage {
    // As `type_op`, by this seat.
    pub(super) fn type_at(&mut self, seat: u64, op: &Op) -> Result<(), StageError>
        ensures ok { OnOk result (self.new.staged ≡ with_act seat (Act.Typed op.now) self.old.staged) }
        ensures placed { OnOk result (CanAct (machine self.old.staged) (Act.Typed op.now)) }
        ensures played { IsStagePlayed self.new.staged }
        ensures spare { OnOk result (self.new.spare ≡ self.old.spare - 1) }
        ensures cause { IfErr result (IsTypeCause (machine self.old.staged) op.now) }
        ensures err { OnErr result (self.new.staged ≡ self.old.staged) }
        ensures room { OnErr result (self.old.spare ≤ self.new.spare) }
    {
        if self.kept.is_closed() {
            return Err(StageError::Closed);
        }
        self.kept.client().check_edit(op)?;
        let act = Act::Typed(op.try_clone()?);
        self.history.reserve(self.kept.last_acts() + 1)?;
        self.kept.type_op(op)?;
        self.history.push(seat, act);
        Ok(())
    }

    // As `ask_eval`, by this seat.
    pub(super) fn eval_at(&mut self, seat: u64, place: u64) -> Result<(), StageError>
        ensures ok { OnOk result (self.new.staged ≡ with_act seat (Act.Eval place) self.old.staged) }
        ensures placed { OnOk result (CanAct (machine self.old.staged) (Act.Eval place)) }
        ensures played { IsStagePlayed self.new.staged }
        ensures spare { OnOk result (self.new.spare ≡ self.old.spare - 1) }
        ensures cause { IfErr result (IsEvalCause (machine self.old.staged) place) }
        ensures err { OnErr result (self.new.staged ≡ self.old.staged) }
        ensures room { OnErr result (self.old.spare ≤ self.new.spare) }
    {
        if self.kept.is_closed() {
            return Err(StageError::Closed);
        }
        let Some(text) = self.kept.client().doc().block_at(place)? else {
            return Err(StageError::Blank { place });
        };
        let seen = self.kept.client().taken();
        self.ask(seat, Act::Eval(place), Call::Eval { seen, text })?;
        Ok(())
    }

    // As `ask_reset`, by this seat.
    pub(super) fn reset_at(&mut self, seat: u64, text: &Text) -> Result<(), StageError>
        ensures ok { OnOk result (self.new.staged ≡ with_act seat (Act.Reset text.now) self.old.staged) }
        ensures placed { OnOk result (CanAct (machine self.old.staged) (Act.Reset text.now)) }
        ensures played { IsStagePlayed self.new.staged }
        ensures spare { OnOk result (self.new.spare ≡ self.old.spare - 1) }
        ensures cause { IfErr result (IsResetCause (machine self.old.staged) text.now) }
        ensures err { OnErr result (self.new.staged ≡ self.old.staged) }
        ensures room { OnErr result (self.old.spare ≤ self.new.spare) }
    {
        if self.kept.is_closed() {
            return Err(StageError::Closed);
        }
        let seen = self.kept.client().taken();
        let act = Act::Reset(text.try_clone()?);
        let text = text.try_clone()?;
        self.ask(seat, act, Call::Reset { seen, text })?;
        Ok(())
    }

    // As `take`, by this seat.
    pub(super) fn take_at(&mut self, seat: u64, entry: &Entry) -> Result<Option<Block>, TakeError>
        ensures block { IfOk result (λ block. block ≡ block_told self.old.staged.joined entry.now) }
        ensures ok { OnOk result (self.new.staged ≡ with_act seat (Act.Take entry.now) self.old.staged) }
        ensures placed { OnOk result (CanAct (machine self.old.staged) (Act.Take entry.now)) }
        ensures played { IsStagePlayed self.new.staged }
        ensures spare { OnOk result (self.new.spare ≡ self.old.spare - 1) }
        ensures cause { IfErr result (IsTakeCause (machine self.old.staged) entry.now) }
        ensures err { OnErr result (self.new.staged ≡ self.old.staged) }
        ensures room { OnErr result (self.old.spare ≤ self.new.spare) }
    {
        if self.kept.is_gone() {
            return Err(TakeError::Gone);
        }
        self.kept.client().check(entry)?;
        let block = entry.block_told(self.joined)?;
        let act = Act::Take(entry.try_clone()?);
        self.history.reserve(self.kept.last_acts() + 1)?;
        // No more entries were taken than acts were placed, so they can be counted.
        let _placed = self.history.len();
        self.kept.take(entry)?;
        self.history.push(seat, act);
        Ok(block)
    }

    // As `next`, by this seat.
    pub(super) fn next_at(&mut self, seat: u64) -> Result<Next, AllocError>
        ensures answer { IfOk result (λ next. next ≡ next_of (machine self.old.staged)) }
        ensures acts { IfOk result (λ next. self.new.staged ≡ stage_after_next seat next self.old.staged) }
        ensures played { IsStagePlayed self.new.staged }
        ensures spare { IfOk result (λ next. IsSend next → self.new.spare ≡ self.old.spare - 1) }
        ensures quiet { IfOk result (λ next. IsQuiet next → self.new ≡ self.old) }
        ensures ready { 1 ≤ self.old.spare → IsOk result }
        ensures wanting { OnErr result (IsSend (next_of (machine self.old.staged))) }
        ensures err { OnErr result (self.new ≡ self.old) }
    {
        match self.kept.unsent() {
            Some(answer) => Ok(answer),
            None => self.send_at(seat),
        }
    }

    // Places a `next` by this seat, by which something goes out.
    fn send_at(&mut self, seat: u64) -> Result<Next, AllocError>
        requires { IsSend (next_of (machine self.old.staged)) }
        ensures answer { IfOk result (λ next. next ≡ next_of (machine self.old.staged)) }
        ensures acts { OnOk result (self.new.staged ≡ with_act seat Act.Next self.old.staged) }
        ensures played { IsStagePlayed self.new.staged }
        ensures spare { OnOk result (self.new.spare ≡ self.old.spare - 1) }
        ensures ready { 1 ≤ self.old.spare → IsOk result }
        ensures err { OnErr result (self.new ≡ self.old) }
    {
        self.history.reserve(self.kept.last_acts() + 1)?;
        // No more calls went out than acts were placed, so they can be counted.
        let _placed = self.history.len();
        self.history.push(seat, Act::Next);
        Ok(self.kept.send())
    }

    // As `finish`, by this seat.
    pub(super) fn finish_at(&mut self, seat: u64)
        ensures first { (machine self.old.staged).finishing ≡ false → self.new.staged ≡ with_act seat Act.Finish self.old.staged }
        ensures again { (machine self.old.staged).finishing ≡ true → self.new ≡ self.old }
        ensures played { IsStagePlayed self.new.staged }
        ensures spare { self.new.spare ≡ self.old.spare }
    {
        if self.kept.is_finishing() {
            return;
        }
        self.history.push(seat, Act::Finish);
        self.kept.finish();
    }

    // As `halt`, by this seat.
    pub(super) fn halt_at(&mut self, seat: u64)
        ensures first { (machine self.old.staged).halted ≡ false → self.new.staged ≡ with_act seat Act.Halt self.old.staged }
        ensures again { (machine self.old.staged).halted ≡ true → self.new ≡ self.old }
        ensures played { IsStagePlayed self.new.staged }
        ensures spare { self.new.spare ≡ self.old.spare }
    {
        if self.kept.is_halted() {
            return;
        }
        self.history.push(seat, Act::Halt);
        self.kept.halt();
    }

    // Places an act by which this call is asked.
    fn ask(&mut self, seat: u64, act: Act, call: Call) -> Result<(), AllocError>
        requires can { CanAct (machine self.old.staged) act }
        requires asks { after_act act (machine self.old.staged) ≡ after_asking (call ∷ []) (machine self.old.staged) }
        ensures ok { OnOk result (self.new.staged ≡ with_act seat act self.old.staged) }
        ensures played { IsStagePlayed self.new.staged }
        ensures spare { OnOk result (self.new.spare ≡ self.old.spare - 1) }
        ensures err { OnErr result (self.new.staged ≡ self.old.staged) }
        ensures room { OnErr result (self.old.spare ≤ self.new.spare) }
    {
        self.history.reserve(self.kept.last_acts() + 1)?;
        self.kept.ask(call)?;
        self.history.push(seat, act);
        Ok(())
    }
}
