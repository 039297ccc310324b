//! How a world is drained: what was asked reaches the log, is taken by everybody, and is fed.
ghost use Rattle.std.specs.Prelude.{◌≡◌, length, All, OnOk};
ghost use Rattle.world_core.specs.Sound.{IsSoundWorld};
ghost use Rattle.world_core.specs.Values.{state_of};
ghost use Rattle.drill_run.specs.Draining.{IsDrained, after_round, drained, each_until_unfit, until_unfit};
ghost use Rattle.drill_run.specs.OpenWorlds.{IsOpenWorld};
ghost use Rattle.drill_run.specs.Script.{script_numbers};

use crate::script::NUMBERS;
use crate::turn::Turn;
use std::alloc::AllocError;
use world_core::{Told, World};

/// How many rounds leave nothing to be served and taken.
const ROUNDS: u32 = 3;

/// Drains the world by rounds, and then feeds the interpreters.
pub fn drain(world: &mut World) -> Result<(), AllocError>
    requires { IsOpenWorld (state_of world.old) }
    ensures state { OnOk result (state_of world.new ≡ drained (state_of world.old)) }
    ensures drained { OnOk result (All (IsDrained (length world.new.log)) (state_of world.new).performers) }
    ensures sound { OnOk result (IsSoundWorld (state_of world.new)) }
{
    for _round in 0..ROUNDS {
        round(world)?;
    }
    each_until_unfit(world, Turn::Feed)
}

// All that is to go out is served, and then everybody takes all.
fn round(world: &mut World) -> Result<(), AllocError>
    requires { IsOpenWorld (state_of world.old) }
    ensures state { OnOk result (state_of world.new ≡ after_round (state_of world.old)) }
    ensures sound { OnOk result (IsSoundWorld (state_of world.new)) }
{
    each_until_unfit(world, Turn::Serve)?;
    each_until_unfit(world, Turn::Take)
}

// Each performer takes the turn's step until it is unfit.
fn each_until_unfit(world: &mut World, turn: Turn) -> Result<(), AllocError>
    requires { IsOpenWorld (state_of world.old) }
    ensures state { OnOk result (state_of world.new ≡ each_until_unfit turn script_numbers (state_of world.old)) }
    ensures sound { OnOk result (IsSoundWorld (state_of world.new)) }
{
    for who in NUMBERS {
        until_unfit(world, turn, who)?;
    }
    // A world is sound; only a look at it tells the proof so.
    let _ = world.performers();
    Ok(())
}

// The performer takes the turn's step until it is unfit.
fn until_unfit(world: &mut World, turn: Turn, who: u32) -> Result<(), AllocError>
    requires { IsOpenWorld (state_of world.old) }
    ensures { OnOk result (state_of world.new ≡ until_unfit turn who (state_of world.old)) }
{
    let step = turn.step(who);
    'turns: while let Told::Done = world.step(&step)? {}
    Ok(())
}
