//! A performer's run: the opening, the four activities, and what they leave.
ghost use Rattle.std.specs.Prelude.{◌≡◌, ◌≤◌, [], None, Result, true, false, length, IfOk, IfErr, OnErr};
ghost use Rattle.troop_ports.specs.Bytes.{at_end};
ghost use Rattle.activities.specs.declared.commands.Flow.{Flow};
ghost use Rattle.activities.specs.declared.errors.PerformError.{PerformError};
ghost use Rattle.activities.specs.Counts.{CountsActivity, CountsInput, CountsOutput};
ghost use Rattle.activities.specs.Driving.{told_driver};
ghost use Rattle.performer.specs.Ends.{error_of, first_error};
ghost use Rattle.performer.specs.Opening.{down_line, OpeningFails, CountsOpening};
ghost use Rattle.performer.specs.Performed.{SentBehindJoin, IsPlayedBy, TookAndTold, TypedAndShared};

use crate::opening::{open_down, open_up};
use crate::running::{Endings, Performed, perform_at};
use activities::{Flow, PerformError};
use block_queue::Taker;
use child_driver::Driver;
use ot_text::Text;
use pipe_ports::Hatch;
use stage_state::Stage;
use std::alloc::Global;
use std::sync::Wait;
use std::thread::Threads;
use troop_entry::Lang;
use troop_ports::{Link, Sink, Source};
use wire_lines::LineReader;

/// The errors of the four activities.
#[derive(Clone, Copy, Debug, PartialEq, Eq)]
pub struct Ends {
    /// That of the commands.
    pub commands: Option<PerformError>,
    /// That of the up line.
    pub up: Option<PerformError>,
    /// That of the down line.
    pub down: Option<PerformError>,
    /// Whether the driver wanted memory.
    pub starved: bool,
}

/// What a run leaves: the performer's number, its stage, its driver, whose last life was closed, the taker of its blocks, and the errors.
#[derive(Drop)]
pub struct Report<H: Hatch> {
    /// The performer's number.
    pub who: u32,
    /// Its stage.
    pub stage: Stage,
    /// Its driver, of which no life stands.
    pub driver: Driver<H>,
    /// The end of the queue through which the driver got its blocks.
    pub taker: Taker,
    /// The errors.
    pub ends: Ends,
}

impl<H: Hatch> Report<H> {
    /// The first error, in the order of the commands, the up line, the down line and the driver. It takes no memory.
    pub fn end(&self) -> Option<PerformError>
        ensures { result ≡ first_error self.now.ends }
    {
        let ends = self.ends;
        match (ends.commands, ends.up, ends.down) {
            (Some(error), _, _) => Some(error),
            (None, Some(error), _) => Some(error),
            (None, None, Some(error)) => Some(error),
            (None, None, None) => {
                if ends.starved {
                    Some(PerformError::Memory)
                } else {
                    None
                }
            }
        }
    }
}

/// Joins, asks for all entries, and runs the four activities until each has ended. `Err` comes from the opening, or from want of memory right behind it, and hands the driver back.
pub fn perform<
    C: Source + Send,
    L: Link + Send,
    H: Hatch + Send,
    O: Sink + Send,
    W: Threads + Wait + Sync,
>(
    rt: &W,
    alloc: Global,
    name: &Text,
    lang: Lang,
    commands: &mut C,
    up: &mut L,
    down: &mut L,
    driver: Driver<H>,
    out: &mut O,
) -> Result<Report<H>, (PerformError, Driver<H>)>
where
    H::C: Send,
    requires name { (1 ≤ length name.now) × (length name.now ≤ 32) }
    requires is_open { (C.closed commands.old ≡ false) × (O.closed out.old ≡ false) × (L.Source.closed up.old ≡ false) × (L.Source.closed down.old ≡ false) }
    requires driver { (driver.lang ≡ lang) × (driver.notes ≡ []) × (driver.life ≡ None) × (driver.closed ≡ false) }
    ensures opened { IfOk result (λ r. SentBehindJoin name.now lang r.who r.stage.staged r.ends.up (L.Source.remaining up.old) (L.Source.remaining up.new) (L.Sink.taken up.old) (L.Sink.taken up.new)) }
    ensures stage { IfOk result (λ r. IsPlayedBy r.who r.stage.staged) }
    ensures took { IfOk result (λ r. TookAndTold r.stage.staged r.ends.down (L.Source.remaining down.old) (L.Source.remaining down.new) r.taker.items r.ends.starved
        (told_driver H.buried H.faults H.C.taken H.C.faults driver) (told_driver H.buried H.faults H.C.taken H.C.faults r.driver)) }
    ensures asked { IfOk result (λ r. L.Sink.taken down.new ≡ at_end (L.Sink.taken down.old) (down_line r.who)) }
    ensures shared { IfOk result (λ r. (end : Result Flow PerformError) × (r.ends.commands ≡ error_of end)
        × TypedAndShared r.stage.staged name.now r.who end r.ends.up r.ends.down (C.remaining commands.old) (C.remaining commands.new) (O.taken out.old) (O.taken out.new)
        × CountsInput end (C.faults commands.old) (C.faults commands.new) × CountsOutput end (O.faults out.old) (O.faults out.new)) }
    ensures counts { IfOk result (λ r. CountsActivity r.ends.up (L.Source.faults up.old) (L.Source.faults up.new) × CountsActivity r.ends.down (L.Source.faults down.old) (L.Source.faults down.new)) }
    ensures closed { IfOk result (λ _. L.Source.closed up.new ≡ true) }
    ensures ended { IfOk result (λ r. r.driver.life ≡ None) }
    ensures err { IfErr result (λ e. (e.1 ≡ driver) × OpeningFails name.now lang e.0 (L.Source.remaining up.old) (L.Source.remaining up.new) (L.Sink.taken up.old) (L.Sink.taken up.new)
        (L.Sink.taken down.old) (L.Sink.taken down.new)) }
    ensures untouched { OnErr result ((commands.new ≡ commands.old) × (out.new ≡ out.old)) }
    ensures err_counts { IfErr result (λ e. CountsOpening e.0 (L.Source.faults up.old) (L.Source.faults up.new) (L.Source.faults down.old) (L.Source.faults down.new)) }
    ensures still_open { (C.closed commands.new ≡ false) × (O.closed out.new ≡ false) × (L.Source.closed down.new ≡ false) }
    ensures up_open { OnErr result (L.Source.closed up.new ≡ false) }
{
    let mut up_reader = LineReader::new(alloc, 1_048_576);
    let placing = match open_up(alloc, &mut up_reader, up, name, lang) {
        Ok(placing) => placing,
        Err(error) => return Err((error, driver)),
    };
    match open_down(alloc, down, placing.who) {
        Ok(()) => {}
        Err(error) => return Err((error, driver)),
    }
    let Ok(stage) = Stage::new(alloc, placing.who, placing.at) else {
        return Err((PerformError::Memory, driver));
    };
    let mut down_reader = LineReader::new(alloc, 1_073_741_824);
    match perform_at(
        rt,
        alloc,
        stage,
        placing.who,
        name,
        commands,
        out,
        &mut up_reader,
        up,
        &mut down_reader,
        down,
        driver,
    ) {
        Ok(performed) => Ok(report_of(placing.who, performed)),
        Err(driver) => Err((PerformError::Memory, driver)),
    }
}

// The report of what the four activities left.
fn report_of<H: Hatch>(who: u32, performed: Performed<H>) -> Report<H>
    ensures who { result.who ≡ who }
    ensures parts { (result.stage ≡ performed.stage) × (result.driver ≡ performed.driver) × (result.taker ≡ performed.taker) }
    ensures ends { result.ends ≡ record { commands = error_of performed.endings.commands; up = performed.endings.up; down = performed.endings.down; starved = performed.endings.starved } }
{
    let Performed {
        stage,
        driver,
        taker,
        endings,
    } = performed;
    let commands = match endings.commands {
        Ok(_) => None,
        Err(error) => Some(error),
    };
    Report {
        who,
        stage,
        driver,
        taker,
        ends: Ends {
            commands,
            up: endings.up,
            down: endings.down,
            starved: endings.starved,
        },
    }
}
