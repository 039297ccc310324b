//! A performer takes the next entry of the log.
ghost use Rattle.std.specs.Prelude.{◌≡◌, Some, IfOk, OnOk, OnErr, true};
ghost use Rattle.troop_entry.specs.declared.entry.Entry.{Entry};
ghost use Rattle.stage_state.specs.declared.act.Act.{Act};
ghost use Rattle.stage_state.specs.Machine.{CanAct};
ghost use Rattle.stage_state.specs.Staged.{machine};
ghost use Rattle.world_core.specs.Steps.{next_entry, after_next_entry, is_done, told_by_some};
ghost use Rattle.world_core.specs.Values.{performer_state};
ghost use Rattle.world_core.specs.WorldInvariant.{IsKeptPerformer, TakesOn};

use crate::{Performer, Told};
use revision_log::Desk;
use std::alloc::AllocError;

impl Performer {
    // Takes the next entry of the log, if there is one for it.
    pub(crate) fn take_next(&mut self, desk: &Desk) -> Result<Told, AllocError>
        requires kept { IsKeptPerformer self.old }
        requires fits { (e : Entry) → next_entry desk.now (machine self.old.stage.staged) ≡ Some e → CanAct (machine self.old.stage.staged) (Act.Take e) }
        ensures told { IfOk result (λ told. told ≡ told_by_some (next_entry desk.now (machine self.old.stage.staged))) }
        ensures state { OnOk result (performer_state self.new ≡ after_next_entry (next_entry desk.now (machine self.old.stage.staged)) (performer_state self.old)) }
        ensures memory { OnErr result (performer_state self.new ≡ performer_state self.old) }
        ensures wanting { OnErr result (is_done (told_by_some (next_entry desk.now (machine self.old.stage.staged))) ≡ true) }
        ensures kept { IsKeptPerformer self.new }
        ensures stage { TakesOn desk.now self.old.stage.staged self.new.stage.staged }
    {
        let at = self.stage.taken();
        if self.stage.is_gone() || at >= desk.length() {
            return Ok(Told::Unfit);
        }
        let found = desk.entries(at, at + 1)?;
        let Some(entry) = found.first() else {
            unreachable!()
        };
        self.waiting.take(&mut self.stage, entry)?;
        Ok(Told::Done)
    }
}
