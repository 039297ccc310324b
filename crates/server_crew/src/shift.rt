//! What a worker is and keeps.
ghost use Rattle.std.specs.Prelude.{◌≡◌, List, [], ◌∷◌, ◌++◌, false};
ghost use Rattle.troop_hall.specs.Seats.{IsDeskSeat, IsLater};
ghost use Rattle.server_crew.specs.Shifts.{IsShift};

use crate::gate::Gate;
use crate::gated::Gated;
use link_queue::Numbered;
use session::serve_link;
use std::alloc::Global;
use std::collections::VecDeque;
use std::sync::Wait;
use troop_hall::{DeskHall, DeskSeat};
use troop_ports::Link;

/// A seat, and the links that were served through it.
#[derive(Drop)]
pub struct Shift<L> {
    // The seat.
    pub seat: DeskSeat,
    // The links that were served, in order.
    pub links: VecDeque<L>,
    // Whether memory was wanting to keep a link.
    pub is_spoiled: bool,
}

/// Serves a link, closes it and keeps it.
pub fn serve_one<L: Link + Drop, G: Gate, R: Wait>(
    rt: &R,
    alloc: Global,
    hall: &DeskHall,
    gate: &G,
    shift: &mut Shift<L>,
    numbered: Numbered<L>,
)
    requires seat { IsDeskSeat hall.now shift.old.seat }
    requires is_open { L.Source.closed numbered.link ≡ false }
    ensures seat { IsDeskSeat hall.now shift.new.seat × IsLater shift.old.seat shift.new.seat }
    ensures served { (taken : List L) → IsShift L.Source.remaining L.Sink.taken L.Source.faults L.Source.closed shift.old taken → IsShift L.Source.remaining L.Sink.taken L.Source.faults L.Source.closed shift.new (taken ++ numbered.link ∷ []) }
{
    let Numbered { number, link } = numbered;
    let mut gated = Gated::new(link, gate, number);
    let _end = serve_link(rt, alloc, hall, &mut shift.seat, &mut gated);
    gated.close();
    let link = gated.into_inner();
    let Ok(()) = shift.links.push_back(link) else {
        shift.is_spoiled = true;
        return;
    };
}
