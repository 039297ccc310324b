//! What a drained world comes to.
ghost use Rattle.std.specs.Prelude.{◌≡◌, ◌<◌, ◌^◌, length};
ghost use Rattle.log_model.specs.Log.{doc};
ghost use Rattle.world_core.specs.Values.{state_of, interpreter_of};
ghost use Rattle.drill_run.specs.Summary.{summary_of, is_eval, block_count, all_hold, life_count, note_count};
ghost use Rattle.drill_run.specs.Script.{numbers_of, script_numbers};

use child_driver::Driver;
use pipe_ports::ScriptHatch;
use troop_entry::{Call, Row};
use wire_print::DrillSummary;
use world_core::World;

/// What the world of three performers sums up to, behind so many steps drawn from a seed of which so many were unfit.
pub fn sum_up(seed: u64, steps: u64, unfit: u64, world: &World) -> DrillSummary
    requires { numbers_of (state_of world.now) ≡ script_numbers }
    ensures { result ≡ summary_of seed steps unfit (state_of world.now) }
{
    DrillSummary {
        blocks: block_count(world.desk().rows()),
        entries: world.desk().length(),
        equal: all_hold(world),
        lives: life_count(world),
        notes: note_count(world),
        seed,
        steps,
        unfit,
    }
}

// How many of these rows are evaluations.
fn block_count(rows: &[Row]) -> u64
    ensures { result ≡ block_count rows.now }
{
    rows.iter().filter(|row| is_eval(&row.call)).count() as u64
}

// Whether the call is an evaluation.
fn is_eval(call: &Call) -> bool
    ensures { result ≡ is_eval call.now }
{
    matches!(call, Call::Eval { .. })
}

// Whether each performer holds the log's document.
fn all_hold(world: &World) -> bool
    ensures { result ≡ all_hold (doc world.now.log) (state_of world.now).performers }
{
    let doc = world.desk().doc();
    for performer in world.performers() {
        if !performer.stage.doc().same(doc) {
            return false;
        }
    }
    true
}

// How many lives the interpreters of the three performers had.
fn life_count(world: &World) -> u64
    requires { numbers_of (state_of world.now) ≡ script_numbers }
    ensures { result ≡ life_count (state_of world.now).performers }
{
    let mut count = 0;
    for performer in world.performers() {
        count += lives_of(&performer.driver);
    }
    count
}

// How many lives an interpreter had.
fn lives_of(driver: &Driver<ScriptHatch>) -> u64
    ensures value { result ≡ length (interpreter_of driver.now).lives }
    ensures short { result < 2 ^ 62 }
{
    let past = driver.hatch().past().len() as u64;
    if driver.life().is_some() {
        past + 1
    } else {
        past
    }
}

// How many notes the journals of the three performers have.
fn note_count(world: &World) -> u64
    requires { numbers_of (state_of world.now) ≡ script_numbers }
    ensures { result ≡ note_count (state_of world.now).performers }
{
    let mut count = 0;
    for performer in world.performers() {
        count += performer.driver.journal().len() as u64;
    }
    count
}
