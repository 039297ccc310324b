//! The up line: it sends the calls that go out, and reads a reply to each.
ghost use Rattle.std.specs.Prelude.{◌≡◌, [], true, false, IfOk, IfErr};
ghost use Rattle.activities.specs.declared.errors.PerformError.TheVariants as PerformError;
ghost use Rattle.activities.specs.declared.errors.Side.TheVariants as Side;
ghost use Rattle.activities.specs.Counts.{CountsResult, CountsActivity};
ghost use Rattle.activities.specs.Ending.{UpDone};
ghost use Rattle.activities.specs.Lines.{coming, MayRead, GoesWhole, FailsBare};
ghost use Rattle.activities.specs.Memory.{IsStageSeat, KeepsSeat, origin_at};
ghost use Rattle.activities.specs.Up.{SentCall, WroteCall, ReadsReply, SentUp, longest_request, placing_of, placed_or_refused};

use crate::ending::halt_at;
use crate::errors::{PerformError, Side, What};
use crate::reading::{next_line, value_or};
use crate::stage_hall::{StageSeat, count_acts, play, wait_past};
use seat_lock::Hall;
use stage_state::{Act, ActReply, Next, Stage};
use std::alloc::Global;
use std::sync::Wait;
use troop_entry::{Call, Reply, Request};
use troop_ports::{Link, Written, write_all};
use wire_json::{WireReply, read_reply};
use wire_lines::{Line, LineReader};
use wire_print::print_request;

/// The longest line that the server takes, without its line feed.
const LONGEST_REQUEST: u64 = 1_048_576;

/// Where a call was placed, and for which performer.
#[derive(Clone, Copy, Debug, PartialEq, Eq)]
pub struct Placing {
    /// The position of its row.
    pub at: u64,
    /// The performer of its row.
    pub who: u32,
}

/// Sends the calls that go out, until none goes out any more, and closes the link. Where there is an error, which is answered, it halts the stage.
pub fn send_up<L: Link, W: Wait>(
    rt: &W,
    alloc: Global,
    hall: &Hall<Stage>,
    seat: &mut StageSeat,
    reader: &mut LineReader,
    link: &mut L,
) -> Option<PerformError>
    requires seat { IsStageSeat hall.now seat.old × (seat.old.seen ≡ []) × (seat.old.own ≡ []) }
    requires is_open { (L.Source.closed link.old ≡ false) × MayRead reader.old (L.Source.remaining link.old) × (reader.old.limit ≡ longest_request) }
    ensures seat { KeepsSeat hall.now seat.old seat.new }
    ensures closed { L.Source.closed link.new ≡ true }
    ensures done { UpDone (origin_at hall.now) result (coming reader.old (L.Source.remaining link.old)) (L.Source.remaining link.new)
        (L.Sink.taken link.old) (L.Sink.taken link.new) seat.old seat.new }
    ensures faults { CountsActivity result (L.Source.faults link.old) (L.Source.faults link.new) }
{
    let end = send_calls(rt, alloc, hall, seat, reader, link);
    halt_at(rt, hall, seat, &end);
    link.close();
    end
}

// Sends the calls that go out, until none goes out any more.
fn send_calls<L: Link, W: Wait>(
    rt: &W,
    alloc: Global,
    hall: &Hall<Stage>,
    seat: &mut StageSeat,
    reader: &mut LineReader,
    link: &mut L,
) -> Option<PerformError>
    requires seat { IsStageSeat hall.now seat.old × (seat.old.seen ≡ []) × (seat.old.own ≡ []) }
    requires is_open { (L.Source.closed link.old ≡ false) × MayRead reader.old (L.Source.remaining link.old) × (reader.old.limit ≡ longest_request) }
    ensures seat { KeepsSeat hall.now seat.old seat.new }
    ensures still_open { L.Source.closed link.new ≡ false }
    ensures sent { SentUp (origin_at hall.now) result (coming reader.old (L.Source.remaining link.old)) (L.Source.remaining link.new)
        (L.Sink.taken link.old) (L.Sink.taken link.new) seat.old seat.new }
    ensures faults { CountsActivity result (L.Source.faults link.old) (L.Source.faults link.new) }
{
    // The first line is the reply to the join.
    let mut number: u64 = 2;
    for _ in rt.forever() {
        let acts = count_acts(hall, seat);
        match play(rt, hall, seat, &Act::Next) {
            Ok(ActReply::Next(Next::Send { num, call })) => {
                match send_call(alloc, reader, link, num, call, number) {
                    Ok(_) => number = number.saturating_add(1),
                    Err(error) => return Some(error),
                }
            }
            Ok(ActReply::Next(Next::NotYet)) => {
                // What goes out next comes with an act, behind those that were counted before the question.
                wait_past(rt, hall, seat, acts);
            }
            Ok(ActReply::Next(Next::Done)) => return None,
            Ok(_) => unreachable!(),
            Err(_) => return Some(PerformError::Memory),
        }
    }
    unreachable!()
}

/// Writes the line of a call under its number, and reads the line of this number, which is its reply.
pub fn send_call<L: Link>(
    alloc: Global,
    reader: &mut LineReader,
    link: &mut L,
    num: u64,
    call: Call,
    number: u64,
) -> Result<Placing, PerformError>
    requires is_open { (L.Source.closed link.old ≡ false) × MayRead reader.old (L.Source.remaining link.old) × (reader.old.limit ≡ longest_request) }
    ensures still_open { (L.Source.closed link.new ≡ false) × IfOk result (λ _. MayRead reader.new (L.Source.remaining link.new)) × (reader.new.limit ≡ longest_request) }
    ensures sent { SentCall number (num, call) reader.old.state (coming reader.old (L.Source.remaining link.old)) (coming reader.new (L.Source.remaining link.new)) (L.Source.remaining link.new)
        (L.Sink.taken link.old) (L.Sink.taken link.new) result }
    ensures whole { IfOk result (λ _. GoesWhole reader.old (coming reader.old (L.Source.remaining link.old)) reader.new (coming reader.new (L.Source.remaining link.new))) }
    ensures faults { CountsResult result (L.Source.faults link.old) (L.Source.faults link.new) }
{
    match write_call(alloc, link, num, call) {
        Ok(()) => read_placing(alloc, reader, link, number),
        Err(error) => Err(error),
    }
}

// Writes the line of a call under its number.
fn write_call<L: Link>(
    alloc: Global,
    link: &mut L,
    num: u64,
    call: Call,
) -> Result<(), PerformError>
    requires is_open { L.Source.closed link.old ≡ false }
    ensures still_open { L.Source.closed link.new ≡ false }
    ensures wrote { WroteCall (num, call) (L.Sink.taken link.old) (L.Sink.taken link.new) result }
    ensures remaining { L.Source.remaining link.new ≡ L.Source.remaining link.old }
    ensures faults { CountsResult result (L.Source.faults link.old) (L.Source.faults link.new) }
{
    let Ok(line) = print_request(alloc, &Request::Call { num, call }) else {
        return Err(PerformError::Memory);
    };
    let bytes = line.len() as u64 - 1;
    if bytes > LONGEST_REQUEST {
        return Err(PerformError::LongRequest { bytes });
    }
    match write_all(link, line.as_slice()) {
        Written::All => {}
        Written::Part(_) => return Err(PerformError::NetFault),
    }
    Ok(())
}

// Reads the line of this number, which tells where the call was placed.
fn read_placing<L: Link>(
    alloc: Global,
    reader: &mut LineReader,
    link: &mut L,
    number: u64,
) -> Result<Placing, PerformError>
    requires is_open { (L.Source.closed link.old ≡ false) × MayRead reader.old (L.Source.remaining link.old) × (reader.old.limit ≡ longest_request) }
    ensures still_open { (L.Source.closed link.new ≡ false) × IfOk result (λ _. MayRead reader.new (L.Source.remaining link.new)) × (reader.new.limit ≡ longest_request) }
    ensures read { ReadsReply number (coming reader.old (L.Source.remaining link.old)) (coming reader.new (L.Source.remaining link.new)) (L.Source.remaining link.new) result }
    ensures whole { IfOk result (λ _. GoesWhole reader.old (coming reader.old (L.Source.remaining link.old)) reader.new (coming reader.new (L.Source.remaining link.new))) }
    ensures bare { IfErr result (λ error. error ≡ PerformError.NetFault → FailsBare reader.old.state (coming reader.old (L.Source.remaining link.old)) (L.Source.remaining link.new)) }
    ensures written { L.Source.taken_beside link.new ≡ L.Source.taken_beside link.old }
    ensures faults { CountsResult result (L.Source.faults link.old) (L.Source.faults link.new) }
{
    let text = match next_line(reader, link) {
        Line::Text(text) => text,
        Line::End => return Err(wrong(number, What::Ended)),
        Line::Long => return Err(wrong(number, What::Long)),
        Line::Fault => return Err(PerformError::NetFault),
        Line::Memory => return Err(PerformError::Memory),
    };
    let unread = wrong(number, What::Unread);
    match value_or(read_reply(alloc, text.as_slice()), unread) {
        Ok(reply) => placed_or_refused(reply),
        Err(error) => Err(error),
    }
}

// Where the reply says that the call was placed; or the refusal that it is.
fn placed_or_refused(reply: WireReply) -> Result<Placing, PerformError>
    ensures { result ≡ placed_or_refused (placing_of reply) reply }
{
    match placing_of(&reply) {
        Some(placing) => Ok(placing),
        None => Err(PerformError::Refused(reply)),
    }
}

// Where the reply says that the call was placed, if it says so.
fn placing_of(reply: &WireReply) -> Option<Placing>
    ensures { result ≡ placing_of reply.now }
{
    match *reply {
        WireReply::Desk(Reply::Placed { at, who }) => Some(Placing { at, who }),
        _ => None,
    }
}

// What is wrong with the line of this number.
fn wrong(line: u64, what: What) -> PerformError
    ensures { result ≡ PerformError.BadPeer Side.Up line what }
{
    PerformError::BadPeer {
        side: Side::Up,
        line,
        what,
    }
}
