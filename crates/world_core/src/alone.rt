//! The steps that a performer takes by itself, whatever the log is.
ghost use Rattle.std.specs.Prelude.{◌≡◌, true, false, None, if◌then◌else◌, slice_get, IfOk, OnOk, OnErr};
ghost use Rattle.stage_state.specs.declared.act.Act.{Act};
ghost use Rattle.stage_state.specs.Staged.{machine};
ghost use Rattle.world_core.specs.Asks.{AsksFor, IsToldAsk};
ghost use Rattle.world_core.specs.Steps.{told_alone, told_by_some, after_alone, after_own_act, after_feed, is_done};
ghost use Rattle.stage_state.specs.Replies.{type_refusal, eval_refusal, reset_refusal};
ghost use Rattle.world_core.specs.Values.{performer_state};
ghost use Rattle.world_core.specs.WorldInvariant.{IsKeptPerformer, ActsOn};

use crate::feeding::feed;
use crate::{Performer, Told};
use ot_text::{Op, Text};
use stage_state::StageError;
use std::alloc::AllocError;
use wire_json::Step;

impl Performer {
    // Takes a step by itself. Any other step doesn't fit.
    pub(crate) fn take_alone(&mut self, step: &Step) -> Result<Told, AllocError>
        requires { IsKeptPerformer self.old }
        ensures told { IfOk result (λ told. told ≡ told_alone step.now (performer_state self.old)) }
        ensures state { OnOk result (performer_state self.new ≡ (if is_done (told_alone step.now (performer_state self.old)) then after_alone step.now (performer_state self.old) else performer_state self.old)) }
        ensures memory { OnErr result (performer_state self.new ≡ performer_state self.old) }
        ensures wanting { OnErr result (is_done (told_alone step.now (performer_state self.old)) ≡ true) }
        ensures kept { IsKeptPerformer self.new }
        ensures stage { ActsOn self.old.stage.staged self.new.stage.staged }
    {
        match step {
            Step::Edit { op, .. } => self.type_op(op),
            Step::Eval { place, .. } => self.evaluate(*place),
            Step::Reset { text, .. } => self.reset(text),
            Step::Leave { .. } => {
                self.leave();
                Ok(Told::Done)
            }
            Step::Deaf { starts, .. } => {
                self.driver.deaf(*starts);
                Ok(Told::Done)
            }
            Step::Feed { fail_after, .. } => self.feed_next(*fail_after),
            Step::Guest { .. }
            | Step::Call { .. }
            | Step::Join { .. }
            | Step::SnapJoin { .. }
            | Step::Serve { .. }
            | Step::Take { .. }
            | Step::Again { .. }
            | Step::Show => Ok(Told::Unfit),
        }
    }

    // It types.
    fn type_op(&mut self, op: &Op) -> Result<Told, AllocError>
        requires { IsKeptPerformer self.old }
        ensures { AsksFor (Act.Typed op.now) (type_refusal (machine self.old.stage.staged) op.now) result self.old self.new }
    {
        told_of_ask(self.stage.type_op(op))
    }

    // It evaluates the block round this place.
    fn evaluate(&mut self, place: u64) -> Result<Told, AllocError>
        requires { IsKeptPerformer self.old }
        ensures { AsksFor (Act.Eval place) (eval_refusal (machine self.old.stage.staged) place) result self.old self.new }
    {
        told_of_ask(self.stage.ask_eval(place))
    }

    // It resets the document to this text.
    fn reset(&mut self, text: &Text) -> Result<Told, AllocError>
        requires { IsKeptPerformer self.old }
        ensures { AsksFor (Act.Reset text.now) (reset_refusal (machine self.old.stage.staged)) result self.old self.new }
    {
        told_of_ask(self.stage.ask_reset(text))
    }

    // It asks no more, and leaves once all is confirmed.
    fn leave(&mut self)
        requires { IsKeptPerformer self.old }
        ensures state { performer_state self.new ≡ after_own_act Act.Finish (performer_state self.old) }
        ensures kept { IsKeptPerformer self.new }
        ensures stage { ActsOn self.old.stage.staged self.new.stage.staged }
    {
        self.stage.finish();
    }

    // Its interpreter is fed the next block, if one waits.
    fn feed_next(&mut self, fail_after: Option<u64>) -> Result<Told, AllocError>
        requires { IsKeptPerformer self.old }
        ensures told { IfOk result (λ told. told ≡ told_by_some (slice_get self.old.waiting 0)) }
        ensures state { OnOk result (performer_state self.new ≡ after_feed self.old.waiting fail_after (performer_state self.old)) }
        ensures memory { OnErr result (performer_state self.new ≡ performer_state self.old) }
        ensures wanting { OnErr result (is_done (told_by_some (slice_get self.old.waiting 0)) ≡ true) }
        ensures kept { IsKeptPerformer self.new }
        ensures stage { self.new.stage ≡ self.old.stage }
    {
        let Some(block) = self.waiting.first() else {
            return Ok(Told::Unfit);
        };
        feed(&mut self.driver, block, fail_after)?;
        self.waiting.pass();
        Ok(Told::Done)
    }
}

// What a step is told by what the stage said to an ask.
fn told_of_ask(asked: Result<(), StageError>) -> Result<Told, AllocError>
    ensures { IsToldAsk asked result }
{
    match asked {
        Ok(()) => Ok(Told::Done),
        Err(StageError::Closed) => Ok(Told::Unfit),
        Err(StageError::BadBase { want, got }) => Ok(Told::Base { want, got }),
        Err(StageError::Blank { place }) => Ok(Told::Blank { place }),
        Err(StageError::Memory) => Err(AllocError),
    }
}
