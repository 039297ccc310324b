//! The run of a generated script.
ghost use Rattle.std.specs.Prelude.{◌≡◌, false, IfOk, OnOk};
ghost use Rattle.world_core.specs.Steps.{told_of, world_after};
ghost use Rattle.world_core.specs.Values.{state_of};
ghost use Rattle.replay_run.specs.Ports.{port_of};
ghost use Rattle.drill_run.specs.Drills.{SaysDrilled, Drills, IsCompleteDrill, EndsEqual};
ghost use Rattle.drill_run.specs.Drilling.{drilled};
ghost use Rattle.drill_run.specs.Script.{IsScripted, script_line};
ghost use Rattle.drill_run.specs.Summary.{drill_line};

use crate::drained::drain;
use crate::script::{NUMBERS, script_line};
use crate::summary::sum_up;
use draws::Draws;
use replay_run::Outcome;
use std::alloc::{AllocError, Global};
use troop_ports::{Sink, Status, Written, write_all};
use wire_print::print_drill;
use world_core::{Told, World};

/// Takes so many steps that are drawn from the seed, drains the world, writes the line that sums it up, and reports how the run ended.
///
/// A fault of `err` changes no status. `table` is the table of statuses: with 0 the whole line was written, with 5 a prefix of it, and
/// with 3 nothing. Whenever the run came to its end, its `equal` is true, since the world was sound and drained.
pub fn drill<O: Sink, E: Sink>(
    alloc: Global,
    seed: u64,
    steps: u64,
    out: &mut O,
    err: &mut E,
) -> Status
    requires out_open { O.closed out.old ≡ false }
    requires err_open { E.closed err.old ≡ false }
    ensures table { Drills seed steps result.code
        (port_of (O.taken out.old) (O.taken out.new) (O.faults out.old) (O.faults out.new))
        (port_of (E.taken err.old) (E.taken err.new) (E.faults err.old) (E.faults err.new)) }
    ensures complete { IsCompleteDrill seed steps result.code
        (port_of (O.taken out.old) (O.taken out.new) (O.faults out.old) (O.faults out.new)) }
    ensures still_open { (O.closed out.new ≡ false) × (E.closed err.new ≡ false) }
{
    run(alloc, seed, steps, out).report(err)
}

// Plays the steps, and writes the line.
fn run<O: Sink>(alloc: Global, seed: u64, steps: u64, out: &mut O) -> Outcome
    requires { O.closed out.old ≡ false }
    ensures says { SaysDrilled seed steps result
        (port_of (O.taken out.old) (O.taken out.new) (O.faults out.old) (O.faults out.new)) }
    ensures still_open { O.closed out.new ≡ false }
{
    let Ok(line) = play(alloc, seed, steps) else {
        return Outcome::Memory;
    };
    match write_all(out, &line) {
        Written::All => Outcome::Done,
        Written::Part(_) => Outcome::WriteFault,
    }
}

// Plays the steps, and gives the line.
fn play(alloc: Global, seed: u64, steps: u64) -> Result<Vec<u8>, AllocError>
    ensures line { IfOk result (λ line. line.items ≡ drill_line seed steps) }
    ensures equal { OnOk result (EndsEqual seed steps) }
{
    let mut world = World::new(alloc);
    let mut draws = Draws::new(seed);
    for _join in NUMBERS {
        next_step(alloc, &mut world, &mut draws)?;
    }
    let mut unfit = 0;
    for _step in 0..steps {
        if let Told::Unfit = next_step(alloc, &mut world, &mut draws)? {
            unfit += 1;
        }
    }
    drain(&mut world)?;
    print_drill(alloc, &sum_up(seed, steps, unfit, &world))
}

// Takes the script's next step.
fn next_step(alloc: Global, world: &mut World, draws: &mut Draws) -> Result<Told, AllocError>
    requires { IsScripted (state_of world.old) }
    ensures told { IfOk result (λ told. told ≡ told_of (script_line (state_of world.old) draws.old).step (state_of world.old)) }
    ensures state { OnOk result (state_of world.new ≡ world_after (script_line (state_of world.old) draws.old).step (state_of world.old)) }
    ensures number { OnOk result (draws.new ≡ (script_line (state_of world.old) draws.old).number) }
{
    let step = script_line(alloc, world, draws)?;
    world.step(&step)
}
