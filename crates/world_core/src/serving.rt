//! A performer's next call goes to the log.
ghost use Rattle.std.specs.Prelude.{◌≡◌, ℕ, None, Some, length, IfOk, OnOk, OnErr};
ghost use Rattle.troop_entry.specs.declared.call.Call.{Call};
ghost use Rattle.troop_entry.specs.declared.reply.Reply.TheVariants.{Placed};
ghost use Rattle.log_model.specs.Answers.{answer};
ghost use Rattle.stage_state.specs.declared.act.Next.{Next};
ghost use Rattle.stage_state.specs.Machine.{next_of, IsSend};
ghost use Rattle.stage_state.specs.Staged.{machine, stage_after_next};
ghost use Rattle.world_core.specs.Sending.{log_after_next, position_sent};

use revision_log::Desk;
use stage_state::{Next, Stage};
use std::alloc::AllocError;
use troop_entry::Reply;

/// The seat through which all calls come.
pub(crate) const SEAT: u64 = 0;

// The stage's next call, if one goes out, goes to the log, which places it. Answers the position of its row.
pub(crate) fn send_next(
    desk: &mut Desk,
    stage: &mut Stage,
    who: u32,
) -> Result<Option<u64>, AllocError>
    requires { (num : ℕ) (call : Call) → next_of (machine stage.old.staged) ≡ Next.Send num call → answer desk.old who num call ≡ Placed (length desk.old) who }
    ensures sent { IfOk result (λ at. at ≡ position_sent (length desk.old) (next_of (machine stage.old.staged))) }
    ensures log { OnOk result (desk.new ≡ log_after_next desk.old who (next_of (machine stage.old.staged))) }
    ensures stage { OnOk result (stage.new.staged ≡ stage_after_next 0 (next_of (machine stage.old.staged)) stage.old.staged) }
    ensures memory_log { OnErr result (desk.new ≡ desk.old) }
    ensures memory_stage { OnErr result (stage.new.staged ≡ stage.old.staged) }
    ensures wanting { OnErr result (IsSend (next_of (machine stage.old.staged))) }
{
    let Next::Send { num, call } = stage.upcoming()? else {
        return Ok(None);
    };
    stage.ready_next()?;
    let reply = desk.serve(SEAT, who, num, &call)?;
    stage.next()?;
    match reply {
        Reply::Placed { at, .. } => Ok(Some(at)),
        Reply::Kept { .. }
        | Reply::Clash { .. }
        | Reply::NotMember { .. }
        | Reply::Ahead { .. }
        | Reply::BadBase { .. }
        | Reply::Crowded { .. } => unreachable!(),
    }
}
