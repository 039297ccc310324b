//! Whole sessions.
ghost use Rattle.std.specs.Prelude.{◌≡◌, false, IfOk, Some};
ghost use Rattle.log_model.specs.Legal.{IsLegal};
ghost use Rattle.troop_hall.specs.Seats.{IsDeskSeat, IsLater};
ghost use Rattle.session.specs.Ends.{CountsEnd, ReadsOn, stream, wires};
ghost use Rattle.session.specs.Printed.{request_of};
ghost use Rattle.session.specs.Sessions.{HasServed, OpensBehind, line_limit, service_asked};

use crate::down::serve_down;
use crate::replies::{request_in, send_off};
use crate::service::Service;
use crate::snap::serve_snap;
use crate::up::serve_up;
use crate::{Opening, SessionEnd};
use std::alloc::{AllocError, Global};
use std::sync::Wait;
use troop_entry::{Call, Request};
use troop_hall::{DeskHall, DeskSeat};
use troop_ports::Link;
use wire_json::{Read, WireReply};
use wire_lines::{Line, LineReader};

/// How many bytes a line of a session may have, without its line feed.
const LINE_LIMIT: u64 = 1048576;

// What a first line asks for, if for anything.
fn service_in(alloc: Global, line: &[u8]) -> Result<Option<Service>, AllocError>
    ensures { IfOk result (λ service. service ≡ service_asked (request_of line.now)) }
{
    match request_in(alloc, line) {
        Read::Value(request) => Ok(service_of(request)),
        Read::Bad => Ok(None),
        Read::Memory => Err(AllocError),
    }
}

// What a first request asks for: a member's call opens nothing.
fn service_of(request: Request) -> Option<Service>
    ensures { result ≡ service_asked (Some request) }
{
    match request {
        Request::Call {
            call: Call::Join { name, lang },
            ..
        } => Some(Service::Up(Opening::Join { name, lang })),
        Request::Call { .. } => None,
        Request::Stay { name, lang } => Some(Service::Up(Opening::Stay { name, lang })),
        Request::Back { who } => Some(Service::Up(Opening::Back { who })),
        Request::Down { start, who } => Some(Service::Down { start, who }),
        Request::Snap { who } => Some(Service::Snap { who }),
    }
}

// Serves what this first line asks for, or refuses it.
fn open<L: Link, R: Wait>(
    rt: &R,
    alloc: Global,
    hall: &DeskHall,
    seat: &mut DeskSeat,
    link: &mut L,
    reader: &mut LineReader,
    line: &[u8],
) -> SessionEnd
    requires seat { IsDeskSeat hall.now seat.old }
    requires is_open { L.Source.closed link.old ≡ false }
    requires going { ReadsOn reader.old (L.Source.remaining link.old) }
    requires limit { reader.old.limit ≡ line_limit }
    ensures hall { IsDeskSeat hall.now seat.new × IsLater seat.old seat.new }
    ensures legal { IsLegal seat.old.seen → IsLegal seat.new.seen }
    ensures session { OpensBehind line.now seat.old seat.new result (wires (stream reader.old (L.Source.remaining link.old)) (stream reader.new (L.Source.remaining link.new)) (L.Source.remaining link.new) (L.Sink.taken link.old) (L.Sink.taken link.new)) }
    ensures count { CountsEnd result (L.Source.faults link.old) (L.Source.faults link.new) }
    ensures still_open { L.Source.closed link.new ≡ false }
{
    let Ok(service) = service_in(alloc, line) else {
        return SessionEnd::Memory;
    };
    match service {
        Some(Service::Up(opening)) => serve_up(rt, alloc, hall, seat, link, reader, opening),
        Some(Service::Down { start, who }) => serve_down(rt, alloc, hall, seat, link, start, who),
        Some(Service::Snap { who }) => serve_snap(rt, alloc, hall, seat, link, who),
        None => send_off(
            alloc,
            link,
            &WireReply::Unfit { line: 1 },
            SessionEnd::Unfit { line: 1 },
        ),
    }
}

/// Serves a link from its first line to the end of the session that this line opens. A link that gives no line at all ends with
/// `SessionEnd::Left`; a first line over the limit, or one that opens no session, is refused.
pub fn serve_link<L: Link, R: Wait>(
    rt: &R,
    alloc: Global,
    hall: &DeskHall,
    seat: &mut DeskSeat,
    link: &mut L,
) -> SessionEnd
    requires seat { IsDeskSeat hall.now seat.old }
    requires is_open { L.Source.closed link.old ≡ false }
    ensures hall { IsDeskSeat hall.now seat.new × IsLater seat.old seat.new }
    ensures legal { IsLegal seat.old.seen → IsLegal seat.new.seen }
    ensures session { HasServed seat.old seat.new result (L.Source.remaining link.old) (L.Source.remaining link.new) (L.Sink.taken link.old) (L.Sink.taken link.new) }
    ensures count { CountsEnd result (L.Source.faults link.old) (L.Source.faults link.new) }
    ensures still_open { L.Source.closed link.new ≡ false }
{
    let mut reader = LineReader::new(alloc, LINE_LIMIT);
    match reader.next(link) {
        Line::Text(line) => open(rt, alloc, hall, seat, link, &mut reader, &line),
        Line::End => SessionEnd::Left,
        Line::Long => send_off(
            alloc,
            link,
            &WireReply::Long { line: 1 },
            SessionEnd::Long { line: 1 },
        ),
        Line::Fault => SessionEnd::LinkFault,
        Line::Memory => SessionEnd::Memory,
    }
}
