//! Up lines.
ghost use Rattle.std.specs.Prelude.{◌≡◌, false};
ghost use Rattle.log_model.specs.Legal.{IsLegal};
ghost use Rattle.troop_hall.specs.Seats.{IsDeskSeat, IsLater};
ghost use Rattle.session.specs.declared.opening.Opening.TheVariants as opening;
ghost use Rattle.session.specs.Ends.{CountsEnd, ReadsOn, stream, wires};
ghost use Rattle.session.specs.UpLines.{HasAttended};

use crate::attend::attend;
use crate::join::{join, stay};
use crate::replies::send_off;
use crate::{Opening, SessionEnd};
use std::alloc::Global;
use std::sync::Wait;
use troop_entry::Reply;
use troop_hall::{DeskHall, DeskSeat};
use troop_ports::Link;
use wire_json::WireReply;
use wire_lines::LineReader;

// The up line of a performer who has joined, and goes on.
fn back<L: Link, R: Wait>(
    rt: &R,
    alloc: Global,
    hall: &DeskHall,
    seat: &mut DeskSeat,
    link: &mut L,
    reader: &mut LineReader,
    who: u32,
) -> SessionEnd
    requires seat { IsDeskSeat hall.now seat.old }
    requires is_open { L.Source.closed link.old ≡ false }
    requires going { ReadsOn reader.old (L.Source.remaining link.old) }
    ensures hall { IsDeskSeat hall.now seat.new × IsLater seat.old seat.new }
    ensures legal { IsLegal seat.new.seen }
    ensures session { HasAttended reader.old.limit (opening.Back who) seat.old seat.new result (wires (stream reader.old (L.Source.remaining link.old)) (stream reader.new (L.Source.remaining link.new)) (L.Source.remaining link.new) (L.Sink.taken link.old) (L.Sink.taken link.new)) }
    ensures count { CountsEnd result (L.Source.faults link.old) (L.Source.faults link.new) }
    ensures still_open { L.Source.closed link.new ≡ false }
{
    let Some(at) = hall.join_of(rt, seat, who) else {
        let reply = WireReply::Desk(Reply::NotMember { who });
        return send_off(alloc, link, &reply, SessionEnd::Stranger { who });
    };
    let reply = Reply::Kept { at, who };
    attend(
        rt,
        alloc,
        hall,
        seat,
        link,
        reader,
        reply,
        who,
        SessionEnd::Away,
    )
}

/// Serves an up line from its opening on: it places the join, or finds that of who is back, and then answers each line behind it by one
/// reply, up to and with a leave that stands in the log. A session that began with `Opening::Join` asks for the performer's leave at its
/// end, however that comes.
pub fn serve_up<L: Link, R: Wait>(
    rt: &R,
    alloc: Global,
    hall: &DeskHall,
    seat: &mut DeskSeat,
    link: &mut L,
    reader: &mut LineReader,
    opening: Opening,
) -> SessionEnd
    requires seat { IsDeskSeat hall.now seat.old }
    requires is_open { L.Source.closed link.old ≡ false }
    requires going { ReadsOn reader.old (L.Source.remaining link.old) }
    ensures hall { IsDeskSeat hall.now seat.new × IsLater seat.old seat.new }
    ensures legal { IsLegal seat.new.seen }
    ensures session { HasAttended reader.old.limit opening seat.old seat.new result (wires (stream reader.old (L.Source.remaining link.old)) (stream reader.new (L.Source.remaining link.new)) (L.Source.remaining link.new) (L.Sink.taken link.old) (L.Sink.taken link.new)) }
    ensures count { CountsEnd result (L.Source.faults link.old) (L.Source.faults link.new) }
    ensures still_open { L.Source.closed link.new ≡ false }
{
    match opening {
        Opening::Join { name, lang } => join(rt, alloc, hall, seat, link, reader, name, lang),
        Opening::Stay { name, lang } => stay(rt, alloc, hall, seat, link, reader, name, lang),
        Opening::Back { who } => back(rt, alloc, hall, seat, link, reader, who),
    }
}
