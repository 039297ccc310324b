//! The run of a script from an input to an output, line by line.
ghost use Rattle.std.specs.Prelude.{◌≡◌, false};
ghost use Rattle.world_core.specs.Values.{state_of};
ghost use Rattle.replay_run.specs.Ports.{port_of};
ghost use Rattle.replay_run.specs.Runs.{most_input, Says, Replays, IsExact, IsHeadline, IsComplete};
ghost use Rattle.replay_run.specs.Turns.{PlaysLine, EndsRun, step_or_end};

use crate::Outcome;
use crate::meaning::{Meaning, read_line};
use crate::shown::show_world;
use crate::steps::play_step;
use std::alloc::{AllocError, Global};
use troop_ports::{Sink, Source, Status, Written, write_all};
use wire_json::Step;
use wire_lines::{Line, LineReader};
use world_core::World;

/// How many bytes a line may have, without its line feed.
const MOST_LINE: u64 = 1_048_576;

/// How many bytes the lines of an input may have, each with a line feed.
const MOST_INPUT: u64 = 1_073_741_824;

/// Plays the script that the input gives, whose lines may have 2^30 bytes, as `replay_upto` does.
pub fn replay<I: Source, O: Sink, E: Sink>(
    alloc: Global,
    input: &mut I,
    out: &mut O,
    err: &mut E,
) -> Status
    requires input_open { I.closed input.old ≡ false }
    requires out_open { O.closed out.old ≡ false }
    requires err_open { E.closed err.old ≡ false }
    ensures table { Replays most_input result.code
        (port_of (I.remaining input.old) (I.remaining input.new) (I.faults input.old) (I.faults input.new))
        (port_of (O.taken out.old) (O.taken out.new) (O.faults out.old) (O.faults out.new))
        (port_of (E.taken err.old) (E.taken err.new) (E.faults err.old) (E.faults err.new)) }
    ensures headline { IsHeadline result.code
        (port_of (I.remaining input.old) (I.remaining input.new) (I.faults input.old) (I.faults input.new))
        (port_of (O.taken out.old) (O.taken out.new) (O.faults out.old) (O.faults out.new)) }
    ensures exact { IsExact most_input result.code
        (port_of (I.remaining input.old) (I.remaining input.new) (I.faults input.old) (I.faults input.new))
        (port_of (O.taken out.old) (O.taken out.new) (O.faults out.old) (O.faults out.new))
        (port_of (E.taken err.old) (E.taken err.new) (E.faults err.old) (E.faults err.new)) }
    ensures complete { IsComplete most_input result.code
        (port_of (I.remaining input.old) (I.remaining input.new) (I.faults input.old) (I.faults input.new))
        (port_of (O.taken out.old) (O.taken out.new) (O.faults out.old) (O.faults out.new)) }
    ensures still_open { (I.closed input.new ≡ false) × (O.closed out.new ≡ false) × (E.closed err.new ≡ false) }
{
    replay_upto(alloc, MOST_INPUT, input, out, err)
}

/// Plays the script that the input gives, writes what each step prints before it reads on, and reports how the run ended.
///
/// The script's lines, each with a line feed, may have `limit` bytes. A fault of `err` changes no status. `table` is the table of
/// statuses. `headline` says of status 0 that all was written that the lines and the world after them print, and that this world is
/// sound. Each status is exact where no fault was counted, but for 3, which stands for want of memory wherever that comes.
pub fn replay_upto<I: Source, O: Sink, E: Sink>(
    alloc: Global,
    limit: u64,
    input: &mut I,
    out: &mut O,
    err: &mut E,
) -> Status
    requires input_open { I.closed input.old ≡ false }
    requires out_open { O.closed out.old ≡ false }
    requires err_open { E.closed err.old ≡ false }
    ensures table { Replays limit result.code
        (port_of (I.remaining input.old) (I.remaining input.new) (I.faults input.old) (I.faults input.new))
        (port_of (O.taken out.old) (O.taken out.new) (O.faults out.old) (O.faults out.new))
        (port_of (E.taken err.old) (E.taken err.new) (E.faults err.old) (E.faults err.new)) }
    ensures headline { IsHeadline result.code
        (port_of (I.remaining input.old) (I.remaining input.new) (I.faults input.old) (I.faults input.new))
        (port_of (O.taken out.old) (O.taken out.new) (O.faults out.old) (O.faults out.new)) }
    ensures exact { IsExact limit result.code
        (port_of (I.remaining input.old) (I.remaining input.new) (I.faults input.old) (I.faults input.new))
        (port_of (O.taken out.old) (O.taken out.new) (O.faults out.old) (O.faults out.new))
        (port_of (E.taken err.old) (E.taken err.new) (E.faults err.old) (E.faults err.new)) }
    ensures complete { IsComplete limit result.code
        (port_of (I.remaining input.old) (I.remaining input.new) (I.faults input.old) (I.faults input.new))
        (port_of (O.taken out.old) (O.taken out.new) (O.faults out.old) (O.faults out.new)) }
    ensures still_open { (I.closed input.new ≡ false) × (O.closed out.new ≡ false) × (E.closed err.new ≡ false) }
{
    run(alloc, limit, input, out).report(err)
}

// Plays each line before the next one is read.
fn run<I: Source, O: Sink>(alloc: Global, limit: u64, input: &mut I, out: &mut O) -> Outcome
    requires input_open { I.closed input.old ≡ false }
    requires out_open { O.closed out.old ≡ false }
    ensures says { Says limit result
        (port_of (I.remaining input.old) (I.remaining input.new) (I.faults input.old) (I.faults input.new))
        (port_of (O.taken out.old) (O.taken out.new) (O.faults out.old) (O.faults out.new)) }
    ensures still_open { (I.closed input.new ≡ false) × (O.closed out.new ≡ false) }
{
    let mut reader = LineReader::new(alloc, MOST_LINE);
    let mut world = World::new(alloc);
    let mut room = limit;
    let mut played = 0;
    loop {
        // More lines than there are numbers count as want of memory; no input has so many.
        let Some(number) = u64::checked_add(played, 1) else {
            return Outcome::Memory;
        };
        let line = match reader.next(input) {
            Line::Text(line) => line,
            Line::End => return finish(alloc, &world, out),
            Line::Long => return Outcome::BadLine(number),
            Line::Fault => return Outcome::ReadFault,
            Line::Memory => return Outcome::Memory,
        };
        let size = line.len() as u64 + 1;
        if let Some(outcome) = play_line(alloc, number, room, &line, &mut world, out) {
            return outcome;
        }
        room -= size;
        played = number;
    }
}

// Plays one line where there is room for it, and writes what it prints. The answer is how the run ends, if it ends here.
fn play_line<O: Sink>(
    alloc: Global,
    number: u64,
    room: u64,
    line: &[u8],
    world: &mut World,
    out: &mut O,
) -> Option<Outcome>
    requires { O.closed out.old ≡ false }
    ensures plays { PlaysLine result room number line.now (state_of world.old) (state_of world.new)
        (port_of (O.taken out.old) (O.taken out.new) (O.faults out.old) (O.faults out.new)) }
    ensures still_open { O.closed out.new ≡ false }
{
    if line.len() as u64 >= room {
        return Some(Outcome::TooMuch);
    }
    let step = match step_or_end(number, read_line(alloc, line)) {
        Ok(Some(step)) => step,
        Ok(None) => return None,
        Err(outcome) => return Some(outcome),
    };
    let Ok(shown) = play_step(alloc, number, &step, world) else {
        return Some(Outcome::Memory);
    };
    match write_all(out, &shown) {
        Written::All => None,
        Written::Part(_) => Some(Outcome::WriteFault),
    }
}

// The step that a line is, if it is one, or how the run ends at it.
fn step_or_end(number: u64, read: Result<Meaning, AllocError>) -> Result<Option<Step>, Outcome>
    ensures { result ≡ step_or_end number read }
{
    match read {
        Ok(Meaning::Blank) => Ok(None),
        Ok(Meaning::Step(step)) => Ok(Some(step)),
        Ok(Meaning::Bad) => Err(Outcome::BadLine(number)),
        Err(_) => Err(Outcome::Memory),
    }
}

// Prints the whole world behind the last line.
fn finish<O: Sink>(alloc: Global, world: &World, out: &mut O) -> Outcome
    requires { O.closed out.old ≡ false }
    ensures ends { EndsRun result (state_of world.now)
        (port_of (O.taken out.old) (O.taken out.new) (O.faults out.old) (O.faults out.new)) }
    ensures still_open { O.closed out.new ≡ false }
{
    let Ok(shown) = show_world(alloc, world) else {
        return Outcome::Memory;
    };
    match write_all(out, &shown) {
        Written::All => Outcome::Done,
        Written::Part(_) => Outcome::WriteFault,
    }
}
