//! The steps of a script, which move the world and print.
ghost use Rattle.std.specs.Prelude.{◌≡◌, IfOk, OnOk};
ghost use Rattle.world_core.specs.Steps.{world_after};
ghost use Rattle.world_core.specs.Values.{state_of};
ghost use Rattle.replay_run.specs.Shown.{shown_step, shown_told};

use crate::shown::show_world;
use std::alloc::{AllocError, Global};
use troop_entry::Reply;
use wire_json::{Step, WireReply};
use wire_print::{print_blank, print_reply};
use world_core::{Told, World};

/// Takes a step, and gives what it prints. Want of memory leaves the world as it was, or after the step.
#[tactic(auto, unfolding(crate::specs::Shown::shown_step))]
pub fn play_step(
    alloc: Global,
    number: u64,
    step: &Step,
    world: &mut World,
) -> Result<Vec<u8>, AllocError>
    ensures state { OnOk result (state_of world.new ≡ world_after step.now (state_of world.old)) }
    ensures shown { IfOk result (λ shown. shown.items ≡ shown_step number step.now (state_of world.old)) }
{
    let told = world.step(step)?;
    show_told(alloc, number, told, world)
}

// What a step prints that is told this.
fn show_told(alloc: Global, number: u64, told: Told, world: &World) -> Result<Vec<u8>, AllocError>
    ensures { IfOk result (λ shown. shown.items ≡ shown_told number (state_of world.now) told) }
{
    match told {
        Told::Done => Ok(Vec::new(alloc)),
        Told::Unfit => print_reply(alloc, &WireReply::Unfit { line: number }),
        Told::Refused(reply) => print_reply(alloc, &WireReply::Desk(reply)),
        Told::Base { want, got } => {
            print_reply(alloc, &WireReply::Desk(Reply::BadBase { want, got }))
        }
        Told::Blank { place } => print_blank(alloc, place),
        Told::Show => show_world(alloc, world),
    }
}
