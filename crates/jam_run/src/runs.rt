//! The run, and the line that sums it up.
ghost use Rattle.std.specs.Prelude.{◌≡◌, ◌≤◌, ◌↔◌, ℕ, All, IsTrue, IfOk, IfErr, Some, None, false};
ghost use Rattle.log_model.specs.Log.{doc};
ghost use Rattle.stage_state.specs.Machine.{held_text};
ghost use Rattle.stage_state.specs.Staged.{machine};
ghost use Rattle.replay_run.specs.Ports.{port_of};
ghost use Rattle.jam_run.specs.Jams.{IsJam, SaysJam, Jams, jam_line, staged_of};

use crate::cast::{are_wanting, play_all, seat_all};
use crate::closing::close;
use crate::joining::join_all;
use replay_run::Outcome;
use revision_log::Desk;
use stage_state::Stage;
use std::alloc::{AllocError, Global};
use std::sync::Wait;
use std::thread::Threads;
use troop_hall::DeskHall;
use troop_ports::{Sink, Status, Written, write_all};
use wire_print::{JamSummary, print_jam};

/// A closed log, and the stages of those who played over it, in the order of their numbers.
#[derive(Drop)]
pub struct Jammed {
    pub desk: Desk,
    pub stages: Vec<Stage>,
}

/// Lets so many performers make so many bursts of edits each, on threads of their own over one log, writes the line that sums the run
/// up, and reports how it ended. With status 0, and no other, it hands back the closed log and the stages.
pub fn jam<O: Sink, E: Sink, R: Threads + Wait + Sync>(
    rt: &R,
    alloc: Global,
    performers: u64,
    calls: u64,
    seed: u64,
    out: &mut O,
    err: &mut E,
) -> (Status, Option<Jammed>)
    requires some { 1 ≤ performers }
    requires few { performers ≤ 64 }
    requires calls { calls ≤ 1000 }
    requires out_open { O.closed out.old ≡ false }
    requires err_open { E.closed err.old ≡ false }
    ensures table { Jams performers calls seed result.0.code result.1
        (port_of (O.taken out.old) (O.taken out.new) (O.faults out.old) (O.faults out.new))
        (port_of (E.taken err.old) (E.taken err.new) (E.faults err.old) (E.faults err.new)) }
    ensures still_open { (O.closed out.new ≡ false) × (E.closed err.new ≡ false) }
{
    match run(rt, alloc, performers, calls, seed, out) {
        Ok(jammed) => (Outcome::Done.report(err), Some(jammed)),
        Err(outcome) => (outcome.report(err), None),
    }
}

// Makes the run and writes its line. The error is how it ended otherwise.
fn run<O: Sink, R: Threads + Wait + Sync>(
    rt: &R,
    alloc: Global,
    performers: u64,
    calls: u64,
    seed: u64,
    out: &mut O,
) -> Result<Jammed, Outcome>
    requires some { 1 ≤ performers }
    requires few { performers ≤ 64 }
    requires calls { calls ≤ 1000 }
    requires out_open { O.closed out.old ≡ false }
    ensures done { IfOk result (λ jammed. SaysJam performers calls seed Outcome.Done (Some jammed) (port_of (O.taken out.old) (O.taken out.new) (O.faults out.old) (O.faults out.new))) }
    ensures otherwise { IfErr result (λ outcome. SaysJam performers calls seed outcome None (port_of (O.taken out.old) (O.taken out.new) (O.faults out.old) (O.faults out.new))) }
    ensures still_open { O.closed out.new ≡ false }
{
    let Ok(jammed) = play(rt, alloc, performers, calls, seed) else {
        return Err(Outcome::Memory);
    };
    let Ok(line) = sum_up(alloc, performers, calls, &jammed) else {
        return Err(Outcome::Memory);
    };
    match write_all(out, &line) {
        Written::All => Ok(jammed),
        Written::Part(_) => Err(Outcome::WriteFault),
    }
}

// Makes the run.
fn play<R: Threads + Wait + Sync>(
    rt: &R,
    alloc: Global,
    performers: u64,
    calls: u64,
    seed: u64,
) -> Result<Jammed, AllocError>
    requires some { 1 ≤ performers }
    requires few { performers ≤ 64 }
    requires calls { calls ≤ 1000 }
    ensures { IfOk result (λ jammed. IsJam performers calls seed jammed.desk (staged_of jammed.stages.items)) }
{
    let Ok((hall, mut first)) = DeskHall::new(alloc, Desk::new(alloc)) else {
        return Err(AllocError);
    };
    join_all(rt, alloc, &hall, &mut first, performers)?;
    let mut players = seat_all(alloc, &hall, &mut first, performers)?;
    play_all(rt, alloc, &hall, calls, seed, players.as_mut_slice());
    if are_wanting(players.as_slice()) {
        return Err(AllocError);
    }
    close(rt, alloc, hall, calls, seed, first, players)
}

// The line that sums up a run of so many performers with so many bursts.
fn sum_up(
    alloc: Global,
    performers: u64,
    calls: u64,
    jammed: &Jammed,
) -> Result<Vec<u8>, AllocError>
    ensures { IfOk result (λ line. (seed : ℕ) → IsJam performers calls seed jammed.now.desk (staged_of jammed.now.stages.items) → line.items ≡ jam_line performers calls) }
{
    print_jam(
        alloc,
        &JamSummary {
            calls,
            entries: jammed.desk.length(),
            equal: is_equal(jammed),
            performers,
        },
    )
}

// Whether each performer holds the log's document.
fn is_equal(jammed: &Jammed) -> bool
    ensures { IsTrue result ↔ All (λ stage. held_text (machine stage.staged) ≡ doc jammed.now.desk) jammed.now.stages.items }
{
    let doc = jammed.desk.doc();
    jammed.stages.iter().all(|stage| stage.doc().same(doc))
}
