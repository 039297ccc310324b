//! The end of a run: the seats are handed back, the log is closed, and each stage takes the rest of it.
ghost use Rattle.std.specs.Prelude.{◌≡◌, ◌∷◌, All, IfOk, OnOk, length, map};
ghost use Rattle.jam_run.specs.Taking.{TakesRest, TakeRests, IsWithin};
ghost use Rattle.jam_run.specs.Playing.{IsCast};
ghost use Rattle.jam_run.specs.Jams.{IsJam, staged_of};

use crate::player::Player;
use crate::runs::Jammed;
use crate::taking::take_all;
use revision_log::Desk;
use stage_state::Stage;
use std::alloc::{AllocError, Global};
use std::sync::Wait;
use troop_hall::{DeskHall, DeskSeat};

/// Closes the log with all its seats, and lets each stage take the rest of it.
pub fn close<R: Wait>(
    rt: &R,
    alloc: Global,
    hall: DeskHall,
    calls: u64,
    seed: u64,
    first: DeskSeat,
    players: Vec<Player>,
) -> Result<Jammed, AllocError>
    requires { IsCast hall calls seed first players.items }
    ensures { IfOk result (λ jammed. IsJam (length players.items) calls seed jammed.desk (staged_of jammed.stages.items)) }
{
    let (seats, mut stages) = part(alloc, first, players)?;
    let desk = hall.close(rt, seats);
    take_rests(&desk, stages.as_mut_slice())?;
    Ok(Jammed { desk, stages })
}

// All seats, the first one in front, and all stages.
fn part(
    alloc: Global,
    first: DeskSeat,
    players: Vec<Player>,
) -> Result<(Vec<DeskSeat>, Vec<Stage>), AllocError>
    ensures { IfOk result (λ both. (both.0.items ≡ first ∷ map (λ p. p.seat) players.items) × (both.1.items ≡ map (λ p. p.stage) players.items)) }
{
    let mut seats = Vec::new(alloc);
    let mut stages = Vec::new(alloc);
    seats.push(first)?;
    for player in players {
        let Player { seat, stage, .. } = player;
        seats.push(seat)?;
        stages.push(stage)?;
    }
    Ok((seats, stages))
}

// Each stage takes what it hasn't taken of the log.
fn take_rests(desk: &Desk, stages: &mut [Stage]) -> Result<(), AllocError>
    requires { All (IsWithin desk.now) stages.old }
    ensures { OnOk result (TakeRests desk.now stages.old stages.new) }
{
    for stage in stages.iter_mut() {
        take_rest(desk, stage)?;
    }
    Ok(())
}

// The stage takes what it hasn't taken of the log.
fn take_rest(desk: &Desk, stage: &mut Stage) -> Result<(), AllocError>
    requires { IsWithin desk.now stage.old }
    ensures { OnOk result (TakesRest desk.now stage.old.staged stage.new.staged) }
{
    let entries = desk.entries(stage.taken(), desk.length())?;
    take_all(stage, &entries)
}
