//! Up lines that begin with a join.
ghost use Rattle.std.specs.Prelude.{◌≡◌, false, IfOk, OnErr};
ghost use Rattle.log_model.specs.Legal.{IsLegal};
ghost use Rattle.troop_entry.specs.declared.call.Call.TheVariants.{Join};
ghost use Rattle.troop_hall.specs.Seats.{IsDeskSeat, IsLater, IsAnswered};
ghost use Rattle.session.specs.declared.opening.Opening.TheVariants as opening;
ghost use Rattle.session.specs.Ends.{CountsEnd, ReadsOn, IsWhole, stream, wires};
ghost use Rattle.session.specs.Parts.{Enters};
ghost use Rattle.session.specs.Replies.{join_ask};
ghost use Rattle.session.specs.UpLines.{HasAttended};

use crate::SessionEnd;
use crate::attend::attend;
use crate::replies::send_off;
use ot_text::Text;
use revision_log::Ask;
use std::alloc::{AllocError, Global};
use std::sync::Wait;
use troop_entry::{Call, Lang, Reply};
use troop_hall::{DeskHall, DeskSeat};
use troop_ports::Link;
use wire_json::WireReply;
use wire_lines::LineReader;

// Asks for a join of this name.
fn admit<R: Wait>(
    rt: &R,
    hall: &DeskHall,
    seat: &mut DeskSeat,
    name: Text,
    lang: Lang,
) -> Result<Reply, AllocError>
    requires { IsDeskSeat hall.now seat.old }
    ensures hall { IsDeskSeat hall.now seat.new × IsLater seat.old seat.new }
    ensures legal { IsLegal seat.new.seen }
    ensures ok { IfOk result (λ reply. IsAnswered (join_ask (Join name lang)) seat.old reply seat.new) }
    ensures memory { OnErr result (seat.new.own ≡ seat.old.own) }
{
    let ask = Ask {
        who: 0,
        num: 0,
        call: Call::Join { name, lang },
    };
    hall.call(rt, seat, &ask)
}

// Places a join of this name, and then the calls of its performer's lines. How the session ends, and the performer's number, if the join
// was placed.
fn enter<L: Link, R: Wait>(
    rt: &R,
    alloc: Global,
    hall: &DeskHall,
    seat: &mut DeskSeat,
    link: &mut L,
    reader: &mut LineReader,
    name: Text,
    lang: Lang,
    over: SessionEnd,
) -> (SessionEnd, Option<u32>)
    requires seat { IsDeskSeat hall.now seat.old }
    requires is_open { L.Source.closed link.old ≡ false }
    requires going { ReadsOn reader.old (L.Source.remaining link.old) }
    requires whole { IsWhole over }
    ensures hall { IsDeskSeat hall.now seat.new × IsLater seat.old seat.new }
    ensures legal { IsLegal seat.new.seen }
    ensures enters { Enters reader.old.limit (Join name lang) over seat.old seat.new result.0 result.1 (wires (stream reader.old (L.Source.remaining link.old)) (stream reader.new (L.Source.remaining link.new)) (L.Source.remaining link.new) (L.Sink.taken link.old) (L.Sink.taken link.new)) }
    ensures count { CountsEnd result.0 (L.Source.faults link.old) (L.Source.faults link.new) }
    ensures still_open { L.Source.closed link.new ≡ false }
{
    let Ok(reply) = admit(rt, hall, seat, name, lang) else {
        return (SessionEnd::Memory, None);
    };
    let Reply::Placed { who, .. } = reply else {
        let end = send_off(alloc, link, &WireReply::Desk(reply), SessionEnd::Crowded);
        return (end, None);
    };
    let end = attend(rt, alloc, hall, seat, link, reader, reply, who, over);
    (end, Some(who))
}

// The up line of a performer who joins, and leaves at its end.
pub(crate) fn join<L: Link, R: Wait>(
    rt: &R,
    alloc: Global,
    hall: &DeskHall,
    seat: &mut DeskSeat,
    link: &mut L,
    reader: &mut LineReader,
    name: Text,
    lang: Lang,
) -> SessionEnd
    requires seat { IsDeskSeat hall.now seat.old }
    requires is_open { L.Source.closed link.old ≡ false }
    requires going { ReadsOn reader.old (L.Source.remaining link.old) }
    ensures hall { IsDeskSeat hall.now seat.new × IsLater seat.old seat.new }
    ensures legal { IsLegal seat.new.seen }
    ensures session { HasAttended reader.old.limit (opening.Join name lang) seat.old seat.new result (wires (stream reader.old (L.Source.remaining link.old)) (stream reader.new (L.Source.remaining link.new)) (L.Source.remaining link.new) (L.Sink.taken link.old) (L.Sink.taken link.new)) }
    ensures count { CountsEnd result (L.Source.faults link.old) (L.Source.faults link.new) }
    ensures still_open { L.Source.closed link.new ≡ false }
{
    let over = SessionEnd::Left;
    let (end, joined) = enter(rt, alloc, hall, seat, link, reader, name, lang, over);
    let Some(who) = joined else {
        return end;
    };
    let _ = hall.leave(rt, seat, who);
    end
}

// The up line of a performer who joins, and stays where its link is lost.
pub(crate) fn stay<L: Link, R: Wait>(
    rt: &R,
    alloc: Global,
    hall: &DeskHall,
    seat: &mut DeskSeat,
    link: &mut L,
    reader: &mut LineReader,
    name: Text,
    lang: Lang,
) -> SessionEnd
    requires seat { IsDeskSeat hall.now seat.old }
    requires is_open { L.Source.closed link.old ≡ false }
    requires going { ReadsOn reader.old (L.Source.remaining link.old) }
    ensures hall { IsDeskSeat hall.now seat.new × IsLater seat.old seat.new }
    ensures legal { IsLegal seat.new.seen }
    ensures session { HasAttended reader.old.limit (opening.Stay name lang) seat.old seat.new result (wires (stream reader.old (L.Source.remaining link.old)) (stream reader.new (L.Source.remaining link.new)) (L.Source.remaining link.new) (L.Sink.taken link.old) (L.Sink.taken link.new)) }
    ensures count { CountsEnd result (L.Source.faults link.old) (L.Source.faults link.new) }
    ensures still_open { L.Source.closed link.new ≡ false }
{
    let over = SessionEnd::Away;
    let (end, _joined) = enter(rt, alloc, hall, seat, link, reader, name, lang, over);
    end
}
