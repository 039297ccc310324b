//! One command: what it asks of the stage, and what it prints.
ghost use Rattle.std.specs.Prelude.{◌≡◌, ◌≤◌, ◌⊎◌, List, ℕ, Err, Result, true, false, IfOk, IfErr};
ghost use Rattle.stage_state.specs.Machine.{taken_count, is_closed};
ghost use Rattle.stage_state.specs.Origins.{machine_at, origin_of};
ghost use Rattle.activities.specs.Commands.{DidCommand, AsksStage, Answered, FollowsAnswer, IsAskAct, performer_line, base_line, awaits_of, WroteLine, IsCommandFault};
ghost use Rattle.activities.specs.Counts.{CountsOutput};
ghost use Rattle.activities.specs.Memory.{SeatMemory, Remembers, IsStageSeat, KeepsSeat, origin_at};

use crate::commands::Flow;
use crate::errors::PerformError;
use crate::stage_hall::{StageSeat, count_acts, play, wait_past};
use client_state::State;
use ot_text::Text;
use seat_lock::Hall;
use stage_state::{Act, ActReply, AskRefusal, Stage};
use std::alloc::{AllocError, Global};
use std::sync::Wait;
use troop_entry::Reply;
use troop_ports::{Sink, Written, write_all};
use wire_json::{Command, WireReply};
use wire_print::{print_blank, print_reply, print_stage};

/// Does one command.
pub(crate) fn do_command<O: Sink, W: Wait>(
    rt: &W,
    alloc: Global,
    hall: &Hall<Stage>,
    seat: &mut StageSeat,
    who: u32,
    name: &Text,
    command: Command,
    out: &mut O,
) -> Result<Flow, PerformError>
    requires seat { IsStageSeat hall.now seat.old }
    requires is_open { O.closed out.old ≡ false }
    ensures seat { KeepsSeat hall.now seat.old seat.new }
    ensures still_open { O.closed out.new ≡ false }
    ensures did { (k : SeatMemory) → Remembers k seat.old → DidCommand (origin_at hall.now) seat.old.number name.now who k command (O.taken out.old) (O.taken out.new) seat.new result }
    ensures fault { IfErr result IsCommandFault }
    ensures faults { CountsOutput result (O.faults out.old) (O.faults out.new) }
{
    match command {
        Command::Edit(op) => ask(rt, alloc, hall, seat, &Act::Typed(op), out),
        Command::Eval(place) => ask(rt, alloc, hall, seat, &Act::Eval(place), out),
        Command::Reset(text) => ask(rt, alloc, hall, seat, &Act::Reset(text), out),
        Command::Until(count) => {
            wait_until(rt, hall, seat, count);
            Ok(Flow::On)
        }
        Command::Show => show(rt, alloc, hall, seat, who, name, out),
        Command::Leave => Ok(Flow::Ended),
    }
}

// Asks, and prints a refusal.
fn ask<O: Sink, W: Wait>(
    rt: &W,
    alloc: Global,
    hall: &Hall<Stage>,
    seat: &mut StageSeat,
    act: &Act,
    out: &mut O,
) -> Result<Flow, PerformError>
    requires seat { IsStageSeat hall.now seat.old }
    requires is_open { O.closed out.old ≡ false }
    requires ask { IsAskAct act.now }
    ensures seat { KeepsSeat hall.now seat.old seat.new }
    ensures still_open { O.closed out.new ≡ false }
    ensures asked { (answer : Result _ _) × AsksStage (origin_at hall.now) act.now seat.old seat.new answer × FollowsAnswer answer (O.taken out.old) (O.taken out.new) result }
    ensures fault { IfErr result IsCommandFault }
    ensures faults { CountsOutput result (O.faults out.old) (O.faults out.new) }
{
    match ask_stage(rt, hall, seat, act) {
        Ok(answer) => print_refusal(alloc, out, answer),
        Err(error) => Err(error),
    }
}

fn ask_stage<W: Wait>(
    rt: &W,
    hall: &Hall<Stage>,
    seat: &mut StageSeat,
    act: &Act,
) -> Result<Result<(), AskRefusal>, PerformError>
    requires seat { IsStageSeat hall.now seat.old }
    requires ask { IsAskAct act.now }
    ensures seat { KeepsSeat hall.now seat.old seat.new }
    ensures asked { AsksStage (origin_at hall.now) act.now seat.old seat.new result }
{
    match play(rt, hall, seat, act) {
        Ok(ActReply::Typed(answer)) => Ok(answer),
        Ok(ActReply::Eval(answer)) => Ok(answer),
        Ok(ActReply::Reset(answer)) => Ok(answer),
        Ok(_) => unreachable!(),
        Err(_) => Err(PerformError::Memory),
    }
}

fn print_refusal<O: Sink>(
    alloc: Global,
    out: &mut O,
    answer: Result<(), AskRefusal>,
) -> Result<Flow, PerformError>
    requires is_open { O.closed out.old ≡ false }
    ensures still_open { O.closed out.new ≡ false }
    ensures answered { Answered answer (O.taken out.old) (O.taken out.new) result }
    ensures fault { IfErr result IsCommandFault }
    ensures faults { CountsOutput result (O.faults out.old) (O.faults out.new) }
{
    match answer {
        Ok(()) => Ok(Flow::On),
        Err(refusal) => print_refused(alloc, out, refusal),
    }
}

fn print_refused<O: Sink>(
    alloc: Global,
    out: &mut O,
    refusal: AskRefusal,
) -> Result<Flow, PerformError>
    requires is_open { O.closed out.old ≡ false }
    ensures still_open { O.closed out.new ≡ false }
    ensures answered { Answered (Err refusal) (O.taken out.old) (O.taken out.new) result }
    ensures fault { IfErr result IsCommandFault }
    ensures faults { CountsOutput result (O.faults out.old) (O.faults out.new) }
{
    match refusal {
        AskRefusal::Closed => Ok(Flow::Closed),
        AskRefusal::BadBase { want, got } => write_line(out, print_base(alloc, want, got)),
        AskRefusal::Blank { place } => write_line(out, print_blank(alloc, place)),
    }
}

// The line of an edit whose base isn't the length of the text.
fn print_base(alloc: Global, want: u64, got: u64) -> Result<Vec<u8>, AllocError>
    ensures { IfOk result (λ line. line.items ≡ base_line want got) }
{
    print_reply(alloc, &WireReply::Desk(Reply::BadBase { want, got }))
}

// Waits until so many entries were taken, or the stage is closed.
fn wait_until<W: Wait>(rt: &W, hall: &Hall<Stage>, seat: &mut StageSeat, count: u64)
    requires { IsStageSeat hall.now seat.old }
    ensures seat { KeepsSeat hall.now seat.old seat.new }
    ensures own { seat.new.own ≡ seat.old.own }
    ensures reached { (count ≤ taken_count (machine_at (origin_at hall.now) seat.new.seen)) ⊎ (is_closed (machine_at (origin_at hall.now) seat.new.seen) ≡ true) }
{
    for _ in rt.forever() {
        let acts = count_acts(hall, seat);
        let reached = hall.with(rt, seat, |stage: &Stage| (stage.taken(), stage.is_closed()));
        if reached.0 >= count || reached.1 {
            return;
        }
        // Both change by an act alone, which comes behind those that were counted before the question.
        wait_past(rt, hall, seat, acts);
    }
    unreachable!()
}

// Prints the performer's line.
fn show<O: Sink, W: Wait>(
    rt: &W,
    alloc: Global,
    hall: &Hall<Stage>,
    seat: &mut StageSeat,
    who: u32,
    name: &Text,
    out: &mut O,
) -> Result<Flow, PerformError>
    requires seat { IsStageSeat hall.now seat.old }
    requires is_open { O.closed out.old ≡ false }
    ensures seat { KeepsSeat hall.now seat.old seat.new }
    ensures own { seat.new.own ≡ seat.old.own }
    ensures still_open { O.closed out.new ≡ false }
    ensures wrote { WroteLine (performer_line name.now who (machine_at (origin_at hall.now) seat.new.seen)) (O.taken out.old) (O.taken out.new) result }
    ensures fault { IfErr result IsCommandFault }
    ensures faults { CountsOutput result (O.faults out.old) (O.faults out.new) }
{
    let line = hall.with(
        rt,
        seat,
        |stage: &Stage| print_performer(alloc, name, who, stage),
    );
    write_line(out, line)
}

/// The performer's line: what its stage awaits, took and holds.
pub fn print_performer(
    alloc: Global,
    name: &Text,
    who: u32,
    stage: &Stage,
) -> Result<Vec<u8>, AllocError>
    ensures { IfOk result (λ line. line.items ≡ performer_line name.now who (machine_at (origin_of stage.now.staged) stage.now.staged.acts)) }
{
    print_stage(
        alloc,
        name,
        who,
        awaits_of(stage.state()),
        stage.taken(),
        stage.doc(),
    )
}

// How many operations aren't confirmed.
fn awaits_of(state: &State) -> u64
    ensures { result ≡ awaits_of state.now }
{
    match state {
        State::Synchronized => 0,
        State::Awaiting(_) => 1,
        State::WithBuffer(..) => 2,
    }
}

// Writes a line, if there was memory to print it.
fn write_line<O: Sink>(out: &mut O, line: Result<Vec<u8>, AllocError>) -> Result<Flow, PerformError>
    requires is_open { O.closed out.old ≡ false }
    ensures still_open { O.closed out.new ≡ false }
    ensures wrote { (all : List ℕ) → IfOk line (λ v. v.items ≡ all) → WroteLine all (O.taken out.old) (O.taken out.new) result }
    ensures fault { IfErr result IsCommandFault }
    ensures faults { CountsOutput result (O.faults out.old) (O.faults out.new) }
{
    let Ok(line) = line else {
        return Err(PerformError::Memory);
    };
    match write_all(out, line.as_slice()) {
        Written::All => Ok(Flow::On),
        Written::Part(_) => Err(PerformError::WriteFault),
    }
}
