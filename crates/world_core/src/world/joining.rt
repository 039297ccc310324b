//! How performers and guests join.
ghost use Rattle.std.specs.Prelude.{◌≡◌, ◌==◌, ◌+◌, ◌++◌, ◌∷◌, [], ℕ, List, true, false, IfOk, OnOk, OnErr, encode_utf8_all};
ghost use Rattle.wire_json.specs.declared.steps.Step.{Step};
ghost use Rattle.log_model.specs.Log.{join_count};
ghost use Rattle.log_model.specs.Answers.{log_after, most_joins};
ghost use Rattle.world_core.specs.Values.{state_of};
ghost use Rattle.world_core.specs.Steps.{told_of, world_after, is_done};
ghost use Rattle.world_core.specs.Moves.{IsNew, StartsAt};
ghost use Rattle.world_core.specs.declared.told.Told.{Told};
ghost use Rattle.troop_entry.specs.declared.call.Call.{Call};

use super::World;
use crate::serving::SEAT;
use crate::told::told_by_reply;
use crate::{Performer, Told, Waiting};
use child_driver::Driver;
use ot_text::Text;
use pipe_ports::ScriptHatch;
use stage_state::Stage;
use std::alloc::{AllocError, Global};
use troop_entry::{Call, Lang, Reply};

/// How many joins a log takes.
const MOST_JOINS: u64 = 4096;

/// The last position of a join behind which a stage can start.
const LAST_START: u64 = 1 << 62;

impl World {
    // A join without a stage.
    pub(super) fn guest(&mut self, name: &Text, lang: Lang) -> Result<Told, AllocError>
        ensures told { IfOk result (λ told. told ≡ told_of (Step.Guest name.now lang) (state_of self.old)) }
        ensures state { OnOk result (state_of self.new ≡ world_after (Step.Guest name.now lang) (state_of self.old)) }
        ensures memory { OnErr result (state_of self.new ≡ state_of self.old) }
        ensures wanting { OnErr result (is_done (told_of (Step.Guest name.now lang) (state_of self.old)) ≡ true) }
    {
        if self.desk.joins() == MOST_JOINS {
            return Ok(Told::Refused(Reply::Crowded { joins: MOST_JOINS }));
        }
        let call = Call::Join {
            name: name.try_clone()?,
            lang,
        };
        Ok(told_by_reply(self.desk.serve(SEAT, 0, 0, &call)?))
    }

    // A join with a stage that starts at the empty log, and an interpreter.
    pub(super) fn join(&mut self, name: &Text, lang: Lang, boot: &Text) -> Result<Told, AllocError>
        ensures told { IfOk result (λ told. told ≡ told_of (Step.Join name.now lang boot.now) (state_of self.old)) }
        ensures state { OnOk result (state_of self.new ≡ world_after (Step.Join name.now lang boot.now) (state_of self.old)) }
        ensures memory { OnErr result (state_of self.new ≡ state_of self.old) }
        ensures wanting { OnErr result (is_done (told_of (Step.Join name.now lang boot.now) (state_of self.old)) ≡ true) }
    {
        if self.desk.joins() == MOST_JOINS {
            return Ok(Told::Refused(Reply::Crowded { joins: MOST_JOINS }));
        }
        let who = self.next_number();
        let stage = Stage::new(self.alloc, who, self.desk.length())?;
        self.admit(
            new_performer(self.alloc, who, name, lang, boot, stage)?,
            lang,
        )
    }

    // A join with a stage that starts behind the join, and an interpreter.
    pub(super) fn snap_join(
        &mut self,
        name: &Text,
        lang: Lang,
        boot: &Text,
    ) -> Result<Told, AllocError>
        ensures told { IfOk result (λ told. told ≡ told_of (Step.SnapJoin name.now lang boot.now) (state_of self.old)) }
        ensures state { OnOk result (state_of self.new ≡ world_after (Step.SnapJoin name.now lang boot.now) (state_of self.old)) }
        ensures memory { OnErr result (state_of self.new ≡ state_of self.old) }
        ensures wanting { OnErr result (is_done (told_of (Step.SnapJoin name.now lang boot.now) (state_of self.old)) ≡ true) }
    {
        if self.desk.joins() == MOST_JOINS {
            return Ok(Told::Refused(Reply::Crowded { joins: MOST_JOINS }));
        }
        let who = self.next_number();
        let joined = self.desk.length();
        if joined > LAST_START {
            // No log has so many rows.
            return Err(AllocError);
        }
        // A join has no operation, so the document behind it is the one in front of it.
        let stage = Stage::start_at(self.alloc, who, joined, self.desk.doc().try_clone()?)?;
        self.admit(
            new_performer(self.alloc, who, name, lang, boot, stage)?,
            lang,
        )
    }

    // The number of the next performer.
    fn next_number(&self) -> u32
        ensures { result ≡ join_count self.now.log + 1 }
    {
        self.desk.joins() as u32 + 1
    }

    // The join of a new performer, whose stage starts now.
    fn admit(&mut self, performer: Performer, lang: Lang) -> Result<Told, AllocError>
        requires room { (join_count self.old.log == most_joins) ≡ false }
        requires number { performer.who ≡ join_count self.old.log + 1 }
        requires starts { StartsAt self.old.log performer.stage.staged }
        requires new { (name boot : List ℕ) × IsNew name lang boot performer }
        ensures told { IfOk result (λ told. told ≡ Told.Done) }
        ensures log { OnOk result (self.new.log ≡ log_after self.old.log 0 0 0 (Call.Join performer.name lang)) }
        ensures performers { OnOk result (self.new.performers ≡ self.old.performers ++ performer ∷ []) }
        ensures memory { OnErr result (self.new ≡ self.old) }
    {
        let call = Call::Join {
            name: performer.name.try_clone()?,
            lang,
        };
        self.performers.reserve(1)?;
        self.last_rows.reserve(1)?;
        self.desk.serve(SEAT, 0, 0, &call)?;
        self.performers.push_reserved(performer);
        self.last_rows.push_reserved(None);
        Ok(Told::Done)
    }
}

// A performer with this stage, to which nothing was fed. Its interpreter gets the boot text in UTF-8.
fn new_performer(
    alloc: Global,
    who: u32,
    name: &Text,
    lang: Lang,
    boot: &Text,
    stage: Stage,
) -> Result<Performer, AllocError>
    ensures { IfOk result (λ performer. (performer.who ≡ who) × (performer.stage ≡ stage) × IsNew name.now lang boot.now performer) }
{
    Ok(Performer {
        who,
        name: name.try_clone()?,
        stage,
        waiting: Waiting::new(alloc),
        driver: Driver::new(
            alloc,
            lang,
            boot_bytes(alloc, boot)?,
            ScriptHatch::new(alloc)?,
        ),
    })
}

// The boot text in UTF-8.
fn boot_bytes(alloc: Global, boot: &Text) -> Result<Vec<u8>, AllocError>
    ensures { IfOk result (λ bytes. bytes.items ≡ encode_utf8_all boot.now) }
{
    let text: String = boot.chars().iter().copied().collect(alloc)?;
    Ok(text.into_bytes())
}
