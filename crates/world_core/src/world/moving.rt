//! How a world takes its steps.
ghost use Rattle.std.specs.Prelude.{◌≡◌, ◌==◌, true, Some, None, IfOk, OnOk, OnErr};
ghost use Rattle.std.specs.List.{position_from};
ghost use Rattle.wire_json.specs.declared.steps.Step.{Step};
ghost use Rattle.world_core.specs.declared.performer.Performer.{Performer};
ghost use Rattle.world_core.specs.Values.{state_of};
ghost use Rattle.world_core.specs.Steps.{told_of, world_after, is_done};
ghost use Rattle.world_core.specs.Moves.{alone_by};

use super::World;
use crate::serving::{SEAT, send_next};
use crate::told::told_by_reply;
use crate::{Performer, Told};
use std::alloc::AllocError;
use troop_entry::Call;
use wire_json::Step;

impl World {
    // Takes a step, and tells what it did.
    pub(super) fn take_step(&mut self, step: &Step) -> Result<Told, AllocError>
        ensures told { IfOk result (λ told. told ≡ told_of step.now (state_of self.old)) }
        ensures state { OnOk result (state_of self.new ≡ world_after step.now (state_of self.old)) }
        ensures memory { OnErr result (state_of self.new ≡ state_of self.old) }
        ensures wanting { OnErr result (is_done (told_of step.now (state_of self.old)) ≡ true) }
    {
        match step {
            Step::Guest { name, lang } => self.guest(name, *lang),
            Step::Call { who, num, call } => self.call(*who, *num, call),
            Step::Join { name, lang, boot } => self.join(name, *lang, boot),
            Step::SnapJoin { name, lang, boot } => self.snap_join(name, *lang, boot),
            Step::Serve { who } => self.serve(*who),
            Step::Take { who } => self.take(*who),
            Step::Again { who } => self.again(*who),
            Step::Edit { who, .. }
            | Step::Eval { who, .. }
            | Step::Reset { who, .. }
            | Step::Feed { who, .. }
            | Step::Deaf { who, .. }
            | Step::Leave { who } => self.alone(*who, step),
            Step::Show => Ok(Told::Show),
        }
    }

    // A call by a number that is no performer's here.
    fn call(&mut self, who: u32, num: u64, call: &Call) -> Result<Told, AllocError>
        ensures told { IfOk result (λ told. told ≡ told_of (Step.Call who num call.now) (state_of self.old)) }
        ensures state { OnOk result (state_of self.new ≡ world_after (Step.Call who num call.now) (state_of self.old)) }
        ensures memory { OnErr result (state_of self.new ≡ state_of self.old) }
        ensures wanting { OnErr result (is_done (told_of (Step.Call who num call.now) (state_of self.old)) ≡ true) }
    {
        if index_of(&self.performers, who).is_some() {
            return Ok(Told::Unfit);
        }
        Ok(told_by_reply(self.desk.serve(SEAT, who, num, call)?))
    }

    // A step that a performer takes by itself.
    fn alone(&mut self, who: u32, step: &Step) -> Result<Told, AllocError>
        requires { alone_by step.now ≡ Some who }
        ensures told { IfOk result (λ told. told ≡ told_of step.now (state_of self.old)) }
        ensures state { OnOk result (state_of self.new ≡ world_after step.now (state_of self.old)) }
        ensures memory { OnErr result (state_of self.new ≡ state_of self.old) }
        ensures wanting { OnErr result (is_done (told_of step.now (state_of self.old)) ≡ true) }
    {
        match index_of(&self.performers, who) {
            Some(index) => self.performers[index].take_alone(step),
            None => Ok(Told::Unfit),
        }
    }

    // A performer's next call goes to the log.
    fn serve(&mut self, who: u32) -> Result<Told, AllocError>
        ensures told { IfOk result (λ told. told ≡ told_of (Step.Serve who) (state_of self.old)) }
        ensures state { OnOk result (state_of self.new ≡ world_after (Step.Serve who) (state_of self.old)) }
        ensures memory { OnErr result (state_of self.new ≡ state_of self.old) }
        ensures wanting { OnErr result (is_done (told_of (Step.Serve who) (state_of self.old)) ≡ true) }
    {
        let Some(index) = index_of(&self.performers, who) else {
            return Ok(Told::Unfit);
        };
        match send_next(&mut self.desk, &mut self.performers[index].stage, who)? {
            Some(at) => {
                self.last_rows[index] = Some(at);
                Ok(Told::Done)
            }
            None => Ok(Told::Unfit),
        }
    }

    // A performer takes the next entry of the log.
    fn take(&mut self, who: u32) -> Result<Told, AllocError>
        ensures told { IfOk result (λ told. told ≡ told_of (Step.Take who) (state_of self.old)) }
        ensures state { OnOk result (state_of self.new ≡ world_after (Step.Take who) (state_of self.old)) }
        ensures memory { OnErr result (state_of self.new ≡ state_of self.old) }
        ensures wanting { OnErr result (is_done (told_of (Step.Take who) (state_of self.old)) ≡ true) }
    {
        match index_of(&self.performers, who) {
            Some(index) => self.performers[index].take_next(&self.desk),
            None => Ok(Told::Unfit),
        }
    }

    // The log is asked a performer's last call behind its join once more, which changes nothing.
    fn again(&mut self, who: u32) -> Result<Told, AllocError>
        ensures told { IfOk result (λ told. told ≡ told_of (Step.Again who) (state_of self.old)) }
        ensures state { self.new ≡ self.old }
        ensures wanting { OnErr result (is_done (told_of (Step.Again who) (state_of self.old)) ≡ true) }
    {
        let Some(index) = index_of(&self.performers, who) else {
            return Ok(Told::Unfit);
        };
        let Some(at) = self.last_rows[index] else {
            return Ok(Told::Unfit);
        };
        let row = &self.desk.rows()[at as usize];
        let num = row.num;
        let call = row.call.try_clone()?;
        self.desk.serve(SEAT, who, num, &call)?;
        Ok(Told::Done)
    }
}

// The index of the performer of this number.
fn index_of(performers: &[Performer], who: u32) -> Option<usize>
    ensures { result ≡ position_from (λ (p : Performer). p.who == who) 0 performers.now }
{
    performers.iter().position(|performer| performer.who == who)
}
