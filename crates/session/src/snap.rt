//! Down lines that begin with a snapshot.
ghost use Rattle.std.specs.Prelude.{◌≡◌, ◌<◌, ◌^◌, [], false, suc, length, take, IfOk, OnOk};
ghost use Rattle.log_model.specs.Legal.{IsLegal, OpFits};
ghost use Rattle.log_model.specs.Log.{doc, doc_after};
ghost use Rattle.log_model.specs.Told.{doc_told};
ghost use Rattle.troop_entry.specs.Told.{op_told};
ghost use Rattle.troop_hall.specs.Seats.{IsDeskSeat, IsLater};
ghost use Rattle.session.specs.DownLines.{SnapLine};
ghost use Rattle.session.specs.Ends.{CountsEnd};
ghost use Rattle.session.specs.Parts.{CountsSent, Sends};
ghost use Rattle.session.specs.Printed.{snapshot_line};
ghost use Rattle.session.specs.Shown.{AreEntries};

use crate::SessionEnd;
use crate::down::follow;
use crate::replies::send_off;
use std::alloc::{AllocError, Global};
use std::sync::Wait;
use troop_doc::Doc;
use troop_entry::{Deed, Entry};
use troop_hall::{DeskHall, DeskSeat};
use troop_ports::{Link, Written, write_all};
use wire_json::WireReply;
use wire_print::print_snapshot;

// Writes a snapshot.
#[tactic(auto, unfolding(crate::specs::Printed::snapshot_line))]
fn show_snapshot<L: Link>(alloc: Global, link: &mut L, at: u64, doc: &Doc) -> Result<(), SessionEnd>
    requires is_open { L.Source.closed link.old ≡ false }
    ensures bytes { Sends result (snapshot_line at doc.now.pairs) (L.Sink.taken link.old) (L.Sink.taken link.new) }
    ensures remaining { L.Source.remaining link.new ≡ L.Source.remaining link.old }
    ensures count { CountsSent result (L.Source.faults link.old) (L.Source.faults link.new) }
    ensures still_open { L.Source.closed link.new ≡ false }
{
    let Ok(line) = print_snapshot(alloc, at, doc) else {
        return Err(SessionEnd::Memory);
    };
    match write_all(link, &line) {
        Written::All => Ok(()),
        Written::Part(_) => Err(SessionEnd::LinkFault),
    }
}

// Changes the document by the entry's operation, if it has one.
fn put(doc: &mut Doc, entry: &Entry) -> Result<(), AllocError>
    requires { OpFits (op_told entry.now.deed) (length doc.old.pairs) }
    ensures { OnOk result (doc.new.pairs ≡ doc_after entry.now.who (op_told entry.now.deed) doc.old.pairs) }
{
    match &entry.deed {
        Deed::Edit(op) | Deed::Reset(op) => {
            doc.reserve_for(op)?;
            doc.apply(op, entry.who);
            Ok(())
        }
        Deed::Join { .. } | Deed::Leave | Deed::Eval(_) => Ok(()),
    }
}

// The document that these entries make, which are those of a legal log.
fn doc_of(alloc: Global, entries: &[Entry]) -> Result<Doc, AllocError>
    requires { AreEntries entries.now }
    ensures { IfOk result (λ doc. doc.pairs ≡ doc_told [] entries.now) }
{
    let mut doc = Doc::new(alloc);
    for entry in entries {
        put(&mut doc, entry)?;
    }
    Ok(doc)
}

// The document behind the row at this position.
fn doc_behind<R: Wait>(
    rt: &R,
    alloc: Global,
    hall: &DeskHall,
    seat: &mut DeskSeat,
    at: u64,
) -> Result<Doc, AllocError>
    requires seat { IsDeskSeat hall.now seat.old }
    requires within { at < length seat.old.seen }
    ensures hall { IsDeskSeat hall.now seat.new × IsLater seat.old seat.new }
    ensures legal { IsLegal seat.new.seen }
    ensures own { seat.new.own ≡ seat.old.own }
    ensures doc { IfOk result (λ d. d.pairs ≡ doc (take (suc at) seat.new.seen)) }
{
    let found = hall.entries(rt, seat, 0)?;
    doc_of(alloc, &found[..=at as usize])
}

// Writes the document behind the row at this position, as a snapshot.
fn send_snapshot<L: Link, R: Wait>(
    rt: &R,
    alloc: Global,
    hall: &DeskHall,
    seat: &mut DeskSeat,
    link: &mut L,
    at: u64,
) -> Result<(), SessionEnd>
    requires seat { IsDeskSeat hall.now seat.old }
    requires within { at < length seat.old.seen }
    requires fits { length seat.old.seen < 2 ^ 64 }
    requires is_open { L.Source.closed link.old ≡ false }
    ensures hall { IsDeskSeat hall.now seat.new × IsLater seat.old seat.new }
    ensures legal { IsLegal seat.new.seen }
    ensures own { seat.new.own ≡ seat.old.own }
    ensures bytes { Sends result (snapshot_line (suc at) (doc (take (suc at) seat.new.seen))) (L.Sink.taken link.old) (L.Sink.taken link.new) }
    ensures remaining { L.Source.remaining link.new ≡ L.Source.remaining link.old }
    ensures count { CountsSent result (L.Source.faults link.old) (L.Source.faults link.new) }
    ensures still_open { L.Source.closed link.new ≡ false }
{
    let Ok(doc) = doc_behind(rt, alloc, hall, seat, at) else {
        return Err(SessionEnd::Memory);
    };
    show_snapshot(alloc, link, at + 1, &doc)
}

/// Writes the document behind this performer's join, and then the entries from there on, up to and with its leave. The first line is unfit
/// where the performer hasn't joined.
pub fn serve_snap<L: Link, R: Wait>(
    rt: &R,
    alloc: Global,
    hall: &DeskHall,
    seat: &mut DeskSeat,
    link: &mut L,
    who: u32,
) -> SessionEnd
    requires seat { IsDeskSeat hall.now seat.old }
    requires is_open { L.Source.closed link.old ≡ false }
    ensures hall { IsDeskSeat hall.now seat.new × IsLater seat.old seat.new }
    ensures legal { IsLegal seat.new.seen }
    ensures own { seat.new.own ≡ seat.old.own }
    ensures session { SnapLine who seat.old.seen seat.new.seen result (L.Sink.taken link.old) (L.Sink.taken link.new) }
    ensures remaining { L.Source.remaining link.new ≡ L.Source.remaining link.old }
    ensures count { CountsEnd result (L.Source.faults link.old) (L.Source.faults link.new) }
    ensures still_open { L.Source.closed link.new ≡ false }
{
    let Some(at) = hall.join_of(rt, seat, who) else {
        let end = SessionEnd::Unfit { line: 1 };
        return send_off(alloc, link, &WireReply::Unfit { line: 1 }, end);
    };
    if let Err(end) = send_snapshot(rt, alloc, hall, seat, link, at) {
        return end;
    }
    follow(rt, alloc, hall, seat, link, at + 1, who)
}
