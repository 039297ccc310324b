//! The commands: what the performer types, line by line.
ghost use Rattle.std.specs.Prelude.{◌≡◌, ◌≤◌, ◌<◌, ◌+◌, ◌-◌, ◌^◌, [], true, false, min, length, IfOk, IfErr};
ghost use Rattle.activities.specs.Commands.{RanCommands, DidLine, longest_command, most_commands};
ghost use Rattle.activities.specs.Counts.{CountsInput, CountsOutput};
ghost use Rattle.activities.specs.Ending.{CommandsDone, FinishesStage, FinishesMemory, IsEnd, found_closed};
ghost use Rattle.activities.specs.Lines.{coming, MayRead, GoesWhole, FailsBare};
ghost use Rattle.activities.specs.Memory.{SeatMemory, Remembers, IsStageSeat, KeepsSeat, origin_at};

use crate::asking::do_command;
use crate::errors::PerformError;
use crate::reading::{next_line, value_or};
use crate::stage_hall::{StageSeat, play};
use ot_text::Text;
use seat_lock::Hall;
use stage_state::{Act, Stage};
use std::alloc::Global;
use std::sync::Wait;
use troop_ports::{Sink, Source};
use wire_json::{is_blank_line, read_command};
use wire_lines::{Line, LineReader};

/// How many bytes the lines of commands have at most, each with its line feed.
const MOST_COMMANDS: u64 = 1_073_741_824;

/// How commands go on.
#[derive(Clone, Copy, Debug, PartialEq, Eq)]
pub enum Flow {
    /// With the next one.
    On,
    /// No further: they have ended, or there was a leave command.
    Ended,
    /// No further: a command found the stage closed.
    Closed,
}

/// The number of the next line, and how many bytes the lines before it have.
#[derive(Clone, Copy, Debug, PartialEq, Eq)]
pub(crate) struct LineCount {
    pub(crate) number: u64,
    pub(crate) size: u64,
}

/// Does the commands until they end, and finishes the stage, unless a command found it closed.
pub fn type_commands<C: Source, O: Sink, W: Wait>(
    rt: &W,
    alloc: Global,
    hall: &Hall<Stage>,
    seat: &mut StageSeat,
    who: u32,
    name: &Text,
    reader: &mut LineReader,
    commands: &mut C,
    out: &mut O,
) -> Result<Flow, PerformError>
    requires seat { IsStageSeat hall.now seat.old × (seat.old.seen ≡ []) × (seat.old.own ≡ []) }
    requires is_open { (C.closed commands.old ≡ false) × (O.closed out.old ≡ false) × MayRead reader.old (C.remaining commands.old) × (reader.old.limit ≡ longest_command) }
    ensures seat { KeepsSeat hall.now seat.old seat.new }
    ensures still_open { (C.closed commands.new ≡ false) × (O.closed out.new ≡ false) }
    ensures done { CommandsDone (origin_at hall.now) name.now who result (coming reader.old (C.remaining commands.old)) (C.remaining commands.new)
        (O.taken out.old) (O.taken out.new) seat.old seat.new }
    ensures read_faults { CountsInput result (C.faults commands.old) (C.faults commands.new) }
    ensures write_faults { CountsOutput result (O.faults out.old) (O.faults out.new) }
{
    let end = run_commands(rt, alloc, hall, seat, who, name, reader, commands, out);
    finish_at(rt, hall, seat, end);
    end
}

// Finishes the stage, unless a command found it closed.
fn finish_at<W: Wait>(
    rt: &W,
    hall: &Hall<Stage>,
    seat: &mut StageSeat,
    end: Result<Flow, PerformError>,
)
    requires seat { IsStageSeat hall.now seat.old }
    requires done { IsEnd end }
    ensures seat { KeepsSeat hall.now seat.old seat.new }
    ensures own { FinishesStage (origin_at hall.now) end seat.old seat.new }
    ensures memory { (k : SeatMemory) → Remembers k seat.old → FinishesMemory k seat.new }
{
    if found_closed(end) {
        return;
    }
    let _ = play(rt, hall, seat, &Act::Finish);
}

// Whether a command found the stage closed.
fn found_closed(end: Result<Flow, PerformError>) -> bool
    ensures { result ≡ found_closed end }
{
    matches!(end, Ok(Flow::Closed))
}

// Does the commands, until they end.
fn run_commands<C: Source, O: Sink, W: Wait>(
    rt: &W,
    alloc: Global,
    hall: &Hall<Stage>,
    seat: &mut StageSeat,
    who: u32,
    name: &Text,
    reader: &mut LineReader,
    commands: &mut C,
    out: &mut O,
) -> Result<Flow, PerformError>
    requires seat { IsStageSeat hall.now seat.old × (seat.old.seen ≡ []) × (seat.old.own ≡ []) }
    requires is_open { (C.closed commands.old ≡ false) × (O.closed out.old ≡ false) × MayRead reader.old (C.remaining commands.old) × (reader.old.limit ≡ longest_command) }
    ensures seat { KeepsSeat hall.now seat.old seat.new }
    ensures still_open { (C.closed commands.new ≡ false) × (O.closed out.new ≡ false) }
    ensures end { IsEnd result }
    ensures ran { RanCommands (origin_at hall.now) name.now who result (coming reader.old (C.remaining commands.old)) (C.remaining commands.new)
        (O.taken out.old) (O.taken out.new) seat.old seat.new }
    ensures read_faults { CountsInput result (C.faults commands.old) (C.faults commands.new) }
    ensures write_faults { CountsOutput result (O.faults out.old) (O.faults out.new) }
{
    let mut count = LineCount { number: 1, size: 0 };
    for _ in rt.forever() {
        match do_line(
            rt, alloc, hall, seat, who, name, &mut count, reader, commands, out,
        ) {
            Ok(Flow::On) => {}
            Ok(Flow::Ended) => return Ok(Flow::Ended),
            Ok(Flow::Closed) => return Ok(Flow::Closed),
            Err(error) => return Err(error),
        }
    }
    unreachable!()
}

// Reads a line, and does its command.
fn do_line<C: Source, O: Sink, W: Wait>(
    rt: &W,
    alloc: Global,
    hall: &Hall<Stage>,
    seat: &mut StageSeat,
    who: u32,
    name: &Text,
    count: &mut LineCount,
    reader: &mut LineReader,
    commands: &mut C,
    out: &mut O,
) -> Result<Flow, PerformError>
    requires seat { IsStageSeat hall.now seat.old }
    requires is_open { (C.closed commands.old ≡ false) × (O.closed out.old ≡ false) × MayRead reader.old (C.remaining commands.old) × (reader.old.limit ≡ longest_command) }
    ensures seat { KeepsSeat hall.now seat.old seat.new }
    ensures still_open { (C.closed commands.new ≡ false) × (O.closed out.new ≡ false) × IfOk result (λ flow. flow ≡ Flow.On → MayRead reader.new (C.remaining commands.new))
        × (reader.new.limit ≡ longest_command) }
    ensures did { (k : SeatMemory) → Remembers k seat.old → DidLine (origin_at hall.now) seat.old.number count.old.number name.now who k
        (coming reader.old (C.remaining commands.old)) (coming reader.new (C.remaining commands.new)) (C.remaining commands.new) count.old.size count.new.size (O.taken out.old) (O.taken out.new) seat.new result }
    ensures whole { IfOk result (λ flow. flow ≡ Flow.On → GoesWhole reader.old (coming reader.old (C.remaining commands.old)) reader.new (coming reader.new (C.remaining commands.new))) }
    ensures bare { IfErr result (λ error. error ≡ PerformError.ReadFault → FailsBare reader.old.state (coming reader.old (C.remaining commands.old)) (C.remaining commands.new)) }
    ensures number { IfOk result (λ flow. flow ≡ Flow.On → count.new.number ≡ min (count.old.number + 1) (2 ^ 64 - 1)) }
    ensures read_faults { CountsInput result (C.faults commands.old) (C.faults commands.new) }
    ensures write_faults { CountsOutput result (O.faults out.old) (O.faults out.new) }
{
    let number = count.number;
    let text = match next_line(reader, commands) {
        Line::Text(text) => text,
        Line::End => return Ok(Flow::Ended),
        Line::Long => return Err(PerformError::BadInput { line: number }),
        Line::Fault => return Err(PerformError::ReadFault),
        Line::Memory => return Err(PerformError::Memory),
    };
    if !counts_in(count, text.as_slice()) {
        return Err(PerformError::TooMuch);
    }
    if is_blank_line(text.as_slice()) {
        return Ok(Flow::On);
    }
    let bad = PerformError::BadInput { line: number };
    match value_or(read_command(alloc, text.as_slice()), bad) {
        Ok(command) => do_command(rt, alloc, hall, seat, who, name, command, out),
        Err(error) => Err(error),
    }
}

// Counts the line, with its line feed, if it is within the limit of all lines.
fn counts_in(count: &mut LineCount, line: &[u8]) -> bool
    ensures within { result ≡ true → (count.new.size ≡ count.old.size + (length line.now + 1)) × (count.new.size ≤ most_commands) }
    ensures number { result ≡ true → count.new.number ≡ min (count.old.number + 1) (2 ^ 64 - 1) }
    ensures past { result ≡ false → (most_commands < count.old.size + (length line.now + 1)) × (count.new ≡ count.old) }
{
    let bytes = line.len() as u64;
    let size = count.size.saturating_add(bytes).saturating_add(1);
    if size > MOST_COMMANDS {
        return false;
    }
    count.size = size;
    count.number = count.number.saturating_add(1);
    true
}
