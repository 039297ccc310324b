//! Bursts of edits: three are typed, and reach the log as two.
ghost use Rattle.std.specs.Prelude.{◌≡◌, ◌<◌, ◌+◌, ◌-◌, ◌++◌, ◌∷◌, [], ℕ, Bool, true, false, min, List, OnOk};
ghost use Rattle.troop_entry.specs.declared.row.Row.{Row};
ghost use Rattle.replay_run.specs.Shown.{awaits};
ghost use Rattle.troop_hall.specs.Seats.{IsDeskSeat};
ghost use Rattle.jam_run.specs.Playing.{IsPlaying, Plays, Rests, IsSameLater, awaited};

use crate::player::Player;
use crate::taking::take_all;
use client_state::State;
use draws::Draws;
use revision_log::Ask;
use stage_state::{Next, Stage};
use std::alloc::{AllocError, Global};
use std::sync::Wait;
use troop_entry::Reply;
use troop_hall::DeskHall;

/// How many edits a burst has. The first one goes out at once, and the others behind it as one.
const EDITS: u64 = 3;

/// Types three edits, sends the first of them and has it confirmed, and so the others, which were held back meanwhile.
pub fn burst<R: Wait>(
    rt: &R,
    alloc: Global,
    hall: &DeskHall,
    player: &mut Player,
    draws: &mut Draws,
) -> Result<(), AllocError>
    requires { IsDeskSeat hall.now player.old.seat }
    ensures same { IsSameLater hall.now player.old player.new }
    ensures made { OnOk result ((seed bursts : ℕ) → Rests seed bursts player.old draws.old → Rests seed (bursts + 1) player.new draws.new) }
{
    for typed in 0..EDITS {
        type_edit(alloc, &mut player.stage, draws)?;
    }
    exchange(rt, hall, player)?;
    exchange(rt, hall, player)
}

// Types an edit that is drawn for the text held. It fits that text, so memory alone is wanting where it isn't placed.
fn type_edit(alloc: Global, stage: &mut Stage, draws: &mut Draws) -> Result<(), AllocError>
    ensures { OnOk result ((seed sent k who : ℕ) (steps : List Bool) (seen own : List Row) → IsPlaying seed steps sent k who seen own stage.old.staged draws.old → awaited stage.old.staged ≡ k
        → IsPlaying seed (steps ++ true ∷ []) sent (min 2 (k + 1)) who seen own stage.new.staged draws.new × (awaited stage.new.staged ≡ min 2 (k + 1))) }
{
    let length = stage.doc().len();
    let op = draws.edit(alloc, length)?;
    match stage.type_op(&op) {
        Ok(()) => Ok(()),
        Err(_) => Err(AllocError),
    }
}

// Sends what goes out next, and takes entries until it is confirmed.
fn exchange<R: Wait>(rt: &R, hall: &DeskHall, player: &mut Player) -> Result<(), AllocError>
    requires { IsDeskSeat hall.now player.old.seat }
    ensures same { IsSameLater hall.now player.old player.new }
    ensures sent { OnOk result ((seed sent owed n : ℕ) (steps : List Bool) → Plays seed steps sent owed player.old n → Plays seed (steps ++ false ∷ []) (sent + 1) (owed - 1) player.new n) }
    ensures confirmed { OnOk result (awaited player.new.stage.staged < awaited player.old.stage.staged) }
{
    let before = awaits(player.stage.state());
    send(rt, hall, player)?;
    for _ in rt.forever() {
        if awaits(player.stage.state()) < before {
            return Ok(());
        }
        take_more(rt, hall, player)?;
    }
    unreachable!()
}

// Sends what goes out next. The log refuses nothing that such a performer sends, so memory alone is wanting where it isn't placed.
fn send<R: Wait>(rt: &R, hall: &DeskHall, player: &mut Player) -> Result<(), AllocError>
    requires { IsDeskSeat hall.now player.old.seat }
    ensures same { IsSameLater hall.now player.old player.new }
    ensures sent { OnOk result ((seed sent owed n : ℕ) (steps : List Bool) → Plays seed steps sent owed player.old n → Plays seed (steps ++ false ∷ []) (sent + 1) (owed - 1) player.new n) }
{
    let Next::Send { num, call } = player.stage.next()? else {
        return Err(AllocError);
    };
    let ask = Ask {
        who: player.who,
        num,
        call,
    };
    match hall.call(rt, &mut player.seat, &ask)? {
        Reply::Placed { .. } => Ok(()),
        _ => Err(AllocError),
    }
}

// Takes the entries from the next one to the end of the log, and waits where there is none yet.
fn take_more<R: Wait>(rt: &R, hall: &DeskHall, player: &mut Player) -> Result<(), AllocError>
    requires { IsDeskSeat hall.now player.old.seat }
    ensures same { IsSameLater hall.now player.old player.new }
    ensures taken { OnOk result ((seed sent owed n : ℕ) (steps : List Bool) → Plays seed steps sent owed player.old n → Plays seed steps sent owed player.new n) }
{
    let entries = hall.wait_past(rt, &mut player.seat, player.stage.taken())?;
    take_all(&mut player.stage, entries.as_slice())
}

// How many operations are sent and held back.
fn awaits(state: &State) -> u64
    ensures { result ≡ awaits state.now }
{
    match state {
        State::Synchronized => 0,
        State::Awaiting(_) => 1,
        State::WithBuffer(_, _) => 2,
    }
}
