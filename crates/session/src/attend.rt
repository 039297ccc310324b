//! The lines behind an opening.
ghost use Rattle.std.specs.Prelude.{◌≡◌, [], false};
ghost use Rattle.log_model.specs.Legal.{IsLegal};
ghost use Rattle.troop_hall.specs.Seats.{IsDeskSeat};
ghost use Rattle.wire_json.specs.declared.replies.WireReply.TheVariants.{Desk};
ghost use Rattle.session.specs.Ends.{CountsEnd, ReadsOn, IsWhole, stream, wires};
ghost use Rattle.session.specs.Parts.{HasTalked};
ghost use Rattle.session.specs.Printed.{reply_line};

use crate::SessionEnd;
use crate::replies::{send, take_turn};
use std::alloc::Global;
use std::sync::Wait;
use troop_entry::Reply;
use troop_hall::{DeskHall, DeskSeat};
use troop_ports::Link;
use wire_json::WireReply;
use wire_lines::{Line, LineReader};

// Answers the lines behind an opening, the first of which is line 2. Where the bytes end, the session ends so.
fn converse<L: Link, R: Wait>(
    rt: &R,
    alloc: Global,
    hall: &DeskHall,
    seat: &mut DeskSeat,
    link: &mut L,
    reader: &mut LineReader,
    who: u32,
    over: SessionEnd,
) -> SessionEnd
    requires seat { IsDeskSeat hall.now seat.old }
    requires is_open { L.Source.closed link.old ≡ false }
    requires going { ReadsOn reader.old (L.Source.remaining link.old) }
    requires whole { IsWhole over }
    ensures hall { IsDeskSeat hall.now seat.new }
    ensures legal { IsLegal seat.old.seen → IsLegal seat.new.seen }
    ensures talk { HasTalked reader.old.limit who over seat.old seat.new [] result (wires (stream reader.old (L.Source.remaining link.old)) (stream reader.new (L.Source.remaining link.new)) (L.Source.remaining link.new) (L.Sink.taken link.old) (L.Sink.taken link.new)) }
    ensures count { CountsEnd result (L.Source.faults link.old) (L.Source.faults link.new) }
    ensures still_open { L.Source.closed link.new ≡ false }
{
    for number in 2..u64::MAX {
        match reader.next(link) {
            Line::Text(line) => {
                match take_turn(rt, alloc, hall, seat, link, who, number, &line) {
                    Ok(false) => {}
                    Ok(true) => return SessionEnd::Left,
                    Err(end) => return end,
                }
            }
            Line::End => return over,
            Line::Long => {
                return match send(alloc, link, &WireReply::Long { line: number }) {
                    Ok(()) => SessionEnd::Long { line: number },
                    Err(end) => end,
                };
            }
            Line::Fault => return SessionEnd::LinkFault,
            Line::Memory => return SessionEnd::Memory,
        }
    }
    SessionEnd::Memory
}

// Writes the reply to an opening, and answers the lines behind it.
pub(crate) fn attend<L: Link, R: Wait>(
    rt: &R,
    alloc: Global,
    hall: &DeskHall,
    seat: &mut DeskSeat,
    link: &mut L,
    reader: &mut LineReader,
    reply: Reply,
    who: u32,
    over: SessionEnd,
) -> SessionEnd
    requires seat { IsDeskSeat hall.now seat.old }
    requires is_open { L.Source.closed link.old ≡ false }
    requires going { ReadsOn reader.old (L.Source.remaining link.old) }
    requires whole { IsWhole over }
    ensures hall { IsDeskSeat hall.now seat.new }
    ensures legal { IsLegal seat.old.seen → IsLegal seat.new.seen }
    ensures talk { HasTalked reader.old.limit who over seat.old seat.new (reply_line (Desk reply)) result (wires (stream reader.old (L.Source.remaining link.old)) (stream reader.new (L.Source.remaining link.new)) (L.Source.remaining link.new) (L.Sink.taken link.old) (L.Sink.taken link.new)) }
    ensures count { CountsEnd result (L.Source.faults link.old) (L.Source.faults link.new) }
    ensures still_open { L.Source.closed link.new ≡ false }
{
    match send(alloc, link, &WireReply::Desk(reply)) {
        Ok(()) => converse(rt, alloc, hall, seat, link, reader, who, over),
        Err(end) => end,
    }
}
