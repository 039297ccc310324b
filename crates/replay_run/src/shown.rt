//! What is printed of a world.
ghost use Rattle.std.specs.Prelude.{◌≡◌, map, vec_items, IfOk};
ghost use Rattle.world_core.specs.Sound.{IsSoundWorld};
ghost use Rattle.world_core.specs.Values.{state_of, performer_state, interpreter_of};
ghost use Rattle.replay_run.specs.Shown.{awaits, shown_performer, shown_world};

use child_driver::Driver;
use client_state::State;
use pipe_ports::ScriptHatch;
use std::alloc::{AllocError, Global};
use wire_print::{print_desk, print_journal, print_lives, print_stage};
use world_core::{Performer, World};

/// What is printed of the whole world, which is sound.
#[tactic(auto, unfolding(crate::specs::Shown::shown_world))]
pub fn show_world(alloc: Global, world: &World) -> Result<Vec<u8>, AllocError>
    ensures shown { IfOk result (λ shown. shown.items ≡ shown_world (state_of world.now)) }
    ensures sound { IsSoundWorld (state_of world.now) }
{
    let mut shown = Vec::new(alloc);
    for performer in world.performers() {
        shown.extend_from_slice(&show_performer(alloc, performer)?)?;
    }
    let desk = world.desk();
    shown.extend_from_slice(&print_desk(alloc, desk.length(), desk.doc())?)?;
    Ok(shown)
}

// The three lines of a performer.
fn show_performer(alloc: Global, performer: &Performer) -> Result<Vec<u8>, AllocError>
    requires { performer.now.who ≡ performer.now.stage.staged.own }
    ensures { IfOk result (λ shown. shown.items ≡ shown_performer (performer_state performer.now)) }
{
    let Performer {
        who,
        name,
        stage,
        driver,
        ..
    } = performer;
    let mut shown = print_stage(
        alloc,
        name,
        *who,
        awaits(stage.state()),
        stage.taken(),
        stage.doc(),
    )?;
    let lives = lives_of(alloc, driver)?;
    shown.extend_from_slice(&print_lives(alloc, *who, &lives)?)?;
    shown.extend_from_slice(&print_journal(alloc, *who, driver.journal())?)?;
    Ok(shown)
}

// How many operations are awaited and held back.
fn awaits(state: &State) -> u64
    ensures { result ≡ awaits state.now }
{
    match state {
        State::Synchronized => 0,
        State::Awaiting(_) => 1,
        State::WithBuffer(_, _) => 2,
    }
}

// The bytes of an interpreter's lives: of those that are buried, and then of the standing one.
fn lives_of(alloc: Global, driver: &Driver<ScriptHatch>) -> Result<Vec<Vec<u8>>, AllocError>
    ensures { IfOk result (λ lives. map (λ life. life.items) lives.items ≡ (interpreter_of driver.now).lives) }
{
    let mut lives = Vec::new(alloc);
    for life in driver.hatch().past() {
        lives.push(Vec::from_slice(alloc, life)?)?;
    }
    if let Some(life) = driver.life() {
        lives.push(Vec::from_slice(alloc, life.bytes())?)?;
    }
    Ok(lives)
}
