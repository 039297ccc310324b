//! Requests that stand behind an opening, and the replies to them.
ghost use Rattle.std.specs.Prelude.{◌≡◌, ◌&&◌, false, IfOk, OnErr};
ghost use Rattle.log_model.specs.Legal.{IsLegal};
ghost use Rattle.troop_hall.specs.Seats.{IsDeskSeat, IsLater};
ghost use Rattle.wire_json.specs.Reads.{Answers as Reads};
ghost use Rattle.session.specs.Ends.{CountsEnd, IsWhole, Wrote};
ghost use Rattle.session.specs.Parts.{AnswersLine, CountsSent, Sends, TakesLine};
ghost use Rattle.session.specs.Printed.{reply_line, request_of};
ghost use Rattle.session.specs.Replies.{asks_leave, call_on_line, is_standing_reply};

use crate::SessionEnd;
use revision_log::Ask;
use std::alloc::{AllocError, Global};
use std::sync::Wait;
use troop_entry::{Reply, Request};
use troop_hall::{DeskHall, DeskSeat};
use troop_ports::{Link, Written, write_all};
use wire_json::{Read, WireReply, read_request};
use wire_print::print_reply;

// The request of a line, if it is one.
#[tactic(auto, unfolding(crate::specs::Printed::request_of))]
pub(crate) fn request_in(alloc: Global, line: &[u8]) -> Read<Request>
    ensures { Reads result (request_of line.now) }
{
    read_request(alloc, line)
}

// Writes a reply.
#[tactic(auto, unfolding(crate::specs::Printed::reply_line))]
pub(crate) fn send<L: Link>(
    alloc: Global,
    link: &mut L,
    reply: &WireReply,
) -> Result<(), SessionEnd>
    requires is_open { L.Source.closed link.old ≡ false }
    ensures bytes { Sends result (reply_line reply.now) (L.Sink.taken link.old) (L.Sink.taken link.new) }
    ensures remaining { L.Source.remaining link.new ≡ L.Source.remaining link.old }
    ensures count { CountsSent result (L.Source.faults link.old) (L.Source.faults link.new) }
    ensures still_open { L.Source.closed link.new ≡ false }
{
    let Ok(line) = print_reply(alloc, reply) else {
        return Err(SessionEnd::Memory);
    };
    match write_all(link, &line) {
        Written::All => Ok(()),
        Written::Part(_) => Err(SessionEnd::LinkFault),
    }
}

// Writes the last reply of a session that ends so.
pub(crate) fn send_off<L: Link>(
    alloc: Global,
    link: &mut L,
    reply: &WireReply,
    end: SessionEnd,
) -> SessionEnd
    requires is_open { L.Source.closed link.old ≡ false }
    requires whole { IsWhole end }
    ensures bytes { Wrote end result (reply_line reply.now) (L.Sink.taken link.old) (L.Sink.taken link.new) }
    ensures remaining { L.Source.remaining link.new ≡ L.Source.remaining link.old }
    ensures count { CountsEnd result (L.Source.faults link.old) (L.Source.faults link.new) }
    ensures still_open { L.Source.closed link.new ≡ false }
{
    match send(alloc, link, reply) {
        Ok(()) => end,
        Err(broken) => broken,
    }
}

// The reply to a line, and whether it was a leave that stands in the log.
fn reply_to<R: Wait>(
    rt: &R,
    alloc: Global,
    hall: &DeskHall,
    seat: &mut DeskSeat,
    who: u32,
    number: u64,
    line: &[u8],
) -> Result<(WireReply, bool), AllocError>
    requires { IsDeskSeat hall.now seat.old }
    ensures hall { IsDeskSeat hall.now seat.new × IsLater seat.old seat.new }
    ensures legal { IsLegal seat.old.seen → IsLegal seat.new.seen }
    ensures reply { IfOk result (λ p. AnswersLine who number (call_on_line line.now) seat.old p.0 seat.new) }
    ensures leaves { IfOk result (λ p. p.1 ≡ (asks_leave (call_on_line line.now) && is_standing_reply p.0)) }
    ensures memory { OnErr result (seat.new.own ≡ seat.old.own) }
{
    match request_in(alloc, line) {
        Read::Value(Request::Call { num, call }) => {
            if call.is_join() {
                return Ok((WireReply::Bad { line: number }, false));
            }
            let leaves = call.is_leave();
            let ask = Ask { who, num, call };
            let reply = hall.call(rt, seat, &ask)?;
            let stands = matches!(reply, Reply::Placed { .. } | Reply::Kept { .. });
            Ok((WireReply::Desk(reply), leaves && stands))
        }
        Read::Value(
            Request::Stay { .. }
            | Request::Back { .. }
            | Request::Down { .. }
            | Request::Snap { .. },
        )
        | Read::Bad => Ok((WireReply::Bad { line: number }, false)),
        Read::Memory => Err(AllocError),
    }
}

// Answers a line, and writes the reply. Whether it was a leave that stands in the log.
pub(crate) fn take_turn<L: Link, R: Wait>(
    rt: &R,
    alloc: Global,
    hall: &DeskHall,
    seat: &mut DeskSeat,
    link: &mut L,
    who: u32,
    number: u64,
    line: &[u8],
) -> Result<bool, SessionEnd>
    requires seat { IsDeskSeat hall.now seat.old }
    requires is_open { L.Source.closed link.old ≡ false }
    ensures hall { IsDeskSeat hall.now seat.new × IsLater seat.old seat.new }
    ensures legal { IsLegal seat.old.seen → IsLegal seat.new.seen }
    ensures turn { TakesLine result who number line.now seat.old seat.new (L.Sink.taken link.old) (L.Sink.taken link.new) }
    ensures remaining { L.Source.remaining link.new ≡ L.Source.remaining link.old }
    ensures count { CountsSent result (L.Source.faults link.old) (L.Source.faults link.new) }
    ensures still_open { L.Source.closed link.new ≡ false }
{
    let Ok((reply, leaves)) = reply_to(rt, alloc, hall, seat, who, number, line) else {
        return Err(SessionEnd::Memory);
    };
    send(alloc, link, &reply)?;
    Ok(leaves)
}
