//! A case, played.
ghost use Rattle.std.specs.Prelude.{◌≡◌, [], None, false, IfOk};

use crate::case::{Case, Outcome};
use crate::pace::Pace;
use crate::port::PacedPort;
use crate::sign::Port;
use child_driver::Driver;
use client_state::State;
use performer::{PerformError, Report, perform};
use pipe_ports::ScriptHatch;
use std::alloc::{AllocError, Global};
use std::sync::Wait;
use std::thread::Threads;
use std::time::Clock;
use wire_print::{print_journal, print_lives, print_stage};

/// The longest name of a performer.
const LONGEST_NAME: u64 = 32;

/// What came of a performance.
#[derive(Debug, Drop)]
pub enum Played {
    /// This.
    Outcome(Outcome),
    /// A port waited in vain.
    Stuck,
    /// Nobody has this name.
    Nameless,
}

/// Plays the performance of a case.
pub fn play<R: Threads + Wait + Clock + Sync>(
    rt: &R,
    alloc: Global,
    case: &Case,
) -> Result<Played, AllocError> {
    let length = case.name.len();
    if length == 0 || length > LONGEST_NAME {
        return Ok(Played::Nameless);
    }
    let pace = Pace::new();
    let mut up = PacedPort::new(rt, alloc, &pace, Port::Up, &case.up)?;
    let mut down = PacedPort::new(rt, alloc, &pace, Port::Down, &case.down)?;
    let mut commands = PacedPort::new(rt, alloc, &pace, Port::Commands, &case.commands)?;
    let mut out = PacedPort::new(rt, alloc, &pace, Port::Out, &case.out)?;
    let driver = driver_of(alloc, case)?;
    let performed = perform(
        rt,
        alloc,
        &case.name,
        case.lang,
        &mut commands,
        &mut up,
        &mut down,
        driver,
        &mut out,
    );
    let mut outcome = Outcome::new(alloc);
    let end = match performed {
        Ok(report) => {
            print_report(alloc, case, &report, &mut outcome.report)?;
            report.end()
        }
        Err((error, _driver)) => Some(error),
    };
    if pace.has_run_out() {
        return Ok(Played::Stuck);
    }
    outcome.end = told_end(alloc, end)?;
    outcome.up.extend_from_slice(up.written())?;
    outcome.down.extend_from_slice(down.written())?;
    outcome.out.extend_from_slice(out.written())?;
    Ok(Played::Outcome(outcome))
}

// A driver of the case's language that was neither fed nor closed.
fn driver_of(alloc: Global, case: &Case) -> Result<Driver<ScriptHatch>, AllocError>
    ensures { IfOk result (λ d. (d.lang ≡ case.now.lang) × (d.notes ≡ []) × (d.life ≡ None) × (d.closed ≡ false)) }
{
    let mut hatch = ScriptHatch::new(alloc)?;
    hatch.deaf(case.deaf);
    hatch.next_limit(case.dies);
    let boot = Vec::from_slice(alloc, &case.boot)?;
    Ok(Driver::new(alloc, case.lang, boot, hatch))
}

// The performer's line, that of its lives, and its journal's.
fn print_report(
    alloc: Global,
    case: &Case,
    report: &Report<ScriptHatch>,
    lines: &mut Vec<u8>,
) -> Result<(), AllocError> {
    let stage = &report.stage;
    let awaits = match stage.state() {
        State::Synchronized => 0,
        State::Awaiting(_) => 1,
        State::WithBuffer(..) => 2,
    };
    let performer = print_stage(
        alloc,
        &case.name,
        report.who,
        awaits,
        stage.taken(),
        stage.doc(),
    )?;
    lines.extend_from_slice(&performer)?;
    let lives = print_lives(alloc, report.who, report.driver.hatch().past())?;
    lines.extend_from_slice(&lives)?;
    let journal = print_journal(alloc, report.who, report.driver.journal())?;
    lines.extend_from_slice(&journal)
}

// The error as Rust writes it.
fn told_end(alloc: Global, end: Option<PerformError>) -> Result<String, AllocError> {
    match end {
        Some(error) => format!(in alloc; "{error:?}"),
        None => Ok(String::new(alloc)),
    }
}
