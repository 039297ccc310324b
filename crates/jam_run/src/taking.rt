//! Taking entries of the log.
ghost use Rattle.std.specs.Prelude.{◌≡◌, OnOk};
ghost use Rattle.stage_state.specs.declared.act.Act.{Act};
ghost use Rattle.stage_state.specs.Machine.{CanAct};
ghost use Rattle.stage_state.specs.Staged.{machine, with_act};
ghost use Rattle.jam_run.specs.Taking.{TakesAll};

use stage_state::Stage;
use std::alloc::AllocError;
use troop_entry::Entry;

/// Takes these entries, in order.
pub fn take_all(stage: &mut Stage, entries: &[Entry]) -> Result<(), AllocError>
    ensures { OnOk result (TakesAll entries.now stage.old.staged stage.new.staged) }
{
    for entry in entries {
        take_one(stage, entry)?;
    }
    Ok(())
}

// Takes an entry. A stage refuses no entry of a log with which it agrees, so memory alone is wanting where it isn't taken.
fn take_one(stage: &mut Stage, entry: &Entry) -> Result<(), AllocError>
    ensures taken { OnOk result (stage.new.staged ≡ with_act 0 (Act.Take entry.now) stage.old.staged) }
    ensures placed { OnOk result (CanAct (machine stage.old.staged) (Act.Take entry.now)) }
{
    match stage.take(entry) {
        Ok(_) => Ok(()),
        Err(_) => Err(AllocError),
    }
}
