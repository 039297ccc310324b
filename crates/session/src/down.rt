//! Down lines: the log's entries.
ghost use Rattle.std.specs.Prelude.{◌≡◌, ◌≤◌, [], false, length, take};
ghost use Rattle.log_model.specs.Legal.{IsLegal};
ghost use Rattle.log_model.specs.Log.{has_leave};
ghost use Rattle.troop_hall.specs.Seats.{IsDeskSeat, IsLater};
ghost use Rattle.session.specs.DownLines.{DownLine, Follows};
ghost use Rattle.session.specs.Ends.{CountsEnd};
ghost use Rattle.session.specs.Parts.{CountsSent, Sends};
ghost use Rattle.session.specs.Printed.{entry_line};
ghost use Rattle.session.specs.Shown.{Shows};

use crate::SessionEnd;
use crate::replies::send_off;
use std::alloc::Global;
use std::sync::Wait;
use troop_entry::Entry;
use troop_hall::{DeskHall, DeskSeat};
use troop_ports::{Link, Written, write_all};
use wire_json::WireReply;
use wire_print::print_entry;

// Writes an entry.
#[tactic(auto, unfolding(crate::specs::Printed::entry_line))]
fn show<L: Link>(alloc: Global, link: &mut L, entry: &Entry) -> Result<(), SessionEnd>
    requires is_open { L.Source.closed link.old ≡ false }
    ensures bytes { Sends result (entry_line entry.now) (L.Sink.taken link.old) (L.Sink.taken link.new) }
    ensures remaining { L.Source.remaining link.new ≡ L.Source.remaining link.old }
    ensures count { CountsSent result (L.Source.faults link.old) (L.Source.faults link.new) }
    ensures still_open { L.Source.closed link.new ≡ false }
{
    let Ok(line) = print_entry(alloc, entry) else {
        return Err(SessionEnd::Memory);
    };
    match write_all(link, &line) {
        Written::All => Ok(()),
        Written::Part(_) => Err(SessionEnd::LinkFault),
    }
}

// Writes these entries, up to and with the leave of this performer. Whether it is among them.
fn show_all<L: Link>(
    alloc: Global,
    link: &mut L,
    who: u32,
    entries: &[Entry],
) -> Result<bool, SessionEnd>
    requires is_open { L.Source.closed link.old ≡ false }
    ensures bytes { Shows result who entries.now (L.Sink.taken link.old) (L.Sink.taken link.new) }
    ensures remaining { L.Source.remaining link.new ≡ L.Source.remaining link.old }
    ensures count { CountsSent result (L.Source.faults link.old) (L.Source.faults link.new) }
    ensures still_open { L.Source.closed link.new ≡ false }
{
    for entry in entries {
        if let Err(end) = show(alloc, link, entry) {
            return Err(end);
        }
        if entry.is_leave_of(who) {
            return Ok(true);
        }
    }
    Ok(false)
}

// Writes the entries from this position on, as they come, up to and with the leave of this performer, which doesn't stand in front of
// it.
pub(crate) fn follow<L: Link, R: Wait>(
    rt: &R,
    alloc: Global,
    hall: &DeskHall,
    seat: &mut DeskSeat,
    link: &mut L,
    start: u64,
    who: u32,
) -> SessionEnd
    requires seat { IsDeskSeat hall.now seat.old }
    requires legal { IsLegal seat.old.seen }
    requires start { start ≤ length seat.old.seen }
    requires stays { has_leave (take start seat.old.seen) who ≡ false }
    requires is_open { L.Source.closed link.old ≡ false }
    ensures hall { IsDeskSeat hall.now seat.new × IsLater seat.old seat.new }
    ensures legal { IsLegal seat.new.seen }
    ensures own { seat.new.own ≡ seat.old.own }
    ensures follows { Follows [] start who seat.new.seen result (L.Sink.taken link.old) (L.Sink.taken link.new) }
    ensures remaining { L.Source.remaining link.new ≡ L.Source.remaining link.old }
    ensures count { CountsEnd result (L.Source.faults link.old) (L.Source.faults link.new) }
    ensures still_open { L.Source.closed link.new ≡ false }
{
    let mut next = start;
    for _ in rt.forever() {
        let Ok(found) = hall.wait_past(rt, seat, next) else {
            return SessionEnd::Memory;
        };
        match show_all(alloc, link, who, &found) {
            Ok(true) => return SessionEnd::Left,
            Ok(false) => next += found.len() as u64,
            Err(end) => return end,
        }
    }
    unreachable!()
}

/// Writes the entries from this position on, as they come, up to and with the leave of this performer, and none where that stands in front
/// of the position. The first line is unfit where the performer hasn't joined, or the position is past the log's end.
pub fn serve_down<L: Link, R: Wait>(
    rt: &R,
    alloc: Global,
    hall: &DeskHall,
    seat: &mut DeskSeat,
    link: &mut L,
    start: u64,
    who: u32,
) -> SessionEnd
    requires seat { IsDeskSeat hall.now seat.old }
    requires is_open { L.Source.closed link.old ≡ false }
    ensures hall { IsDeskSeat hall.now seat.new × IsLater seat.old seat.new }
    ensures legal { IsLegal seat.new.seen }
    ensures own { seat.new.own ≡ seat.old.own }
    ensures session { DownLine start who seat.old.seen seat.new.seen result (L.Sink.taken link.old) (L.Sink.taken link.new) }
    ensures remaining { L.Source.remaining link.new ≡ L.Source.remaining link.old }
    ensures count { CountsEnd result (L.Source.faults link.old) (L.Source.faults link.new) }
    ensures still_open { L.Source.closed link.new ≡ false }
{
    let known = hall.known(rt, seat, who);
    if !known.joined || known.length < start {
        let end = SessionEnd::Unfit { line: 1 };
        return send_off(alloc, link, &WireReply::Unfit { line: 1 }, end);
    }
    match known.left {
        Some(at) if at < start => SessionEnd::Left,
        _ => follow(rt, alloc, hall, seat, link, start, who),
    }
}
