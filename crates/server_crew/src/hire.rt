//! Making workers.
ghost use Rattle.std.specs.Prelude.{◌≡◌, ◌+◌, ◌<◌, [], ◌∷◌, ◌++◌, All, IfOk, length};
ghost use Rattle.troop_hall.specs.Seats.{IsDeskSeat};
ghost use Rattle.server_crew.specs.Workers.{IsAtWork, indexes};

use crate::shift::Shift;
use crate::worker::Worker;
use link_queue::{LinkEnd, LinkQueue};
use std::alloc::{AllocError, Global};
use std::collections::VecDeque;
use troop_hall::{DeskHall, DeskSeat};
use troop_ports::Link;

/// Makes so many workers, each with a seat and an end of its own.
pub fn hire<L: Link + Drop>(
    alloc: Global,
    hall: &DeskHall,
    queue: &LinkQueue<L>,
    first: &mut DeskSeat,
    end: &mut LinkEnd<L>,
    count: u64,
) -> Result<Vec<Worker<L>>, AllocError>
    requires seat { IsDeskSeat hall.now first.old }
    requires queue { end.old.queue ≡ queue.now.table }
    requires parts { count < end.old.parts }
    ensures seat { IsDeskSeat hall.now first.new × (first.new.seen ≡ first.old.seen) × (first.new.own ≡ first.old.own) × (first.new.number ≡ first.old.number) × (first.new.index ≡ first.old.index) }
    ensures queue { (end.new.queue ≡ queue.now.table) × (end.new.put ≡ end.old.put) × (end.new.taken ≡ end.old.taken) }
    ensures parts { IfOk result (λ _. end.new.parts + count ≡ end.old.parts) }
    ensures workers { IfOk result (λ w. All (IsAtWork L.Source.remaining L.Sink.taken L.Source.faults L.Source.closed hall.now queue.now.table) w.items × (first.new.made ≡ first.old.made ++ indexes w.items) × (length w.items ≡ count)) }
{
    let mut workers = Vec::new(alloc);
    for hired in 0..count {
        let worker = hire_one(alloc, hall, queue, first, end);
        workers.push(worker)?;
    }
    Ok(workers)
}

// Makes one worker.
fn hire_one<L: Link + Drop>(
    alloc: Global,
    hall: &DeskHall,
    queue: &LinkQueue<L>,
    first: &mut DeskSeat,
    end: &mut LinkEnd<L>,
) -> Worker<L>
    requires seat { IsDeskSeat hall.now first.old }
    requires queue { end.old.queue ≡ queue.now.table }
    requires parts { 1 < end.old.parts }
    ensures seat { IsDeskSeat hall.now first.new × (first.new.seen ≡ first.old.seen) × (first.new.own ≡ first.old.own) × (first.new.number ≡ first.old.number) × (first.new.index ≡ first.old.index) }
    ensures made { first.new.made ≡ first.old.made ++ result.shift.seat.index ∷ [] }
    ensures queue { (end.new.queue ≡ queue.now.table) × (end.new.parts + 1 ≡ end.old.parts) × (end.new.put ≡ end.old.put) × (end.new.taken ≡ end.old.taken) }
    ensures worker { IsAtWork L.Source.remaining L.Sink.taken L.Source.faults L.Source.closed hall.now queue.now.table result }
{
    let seat = hall.seat(first);
    let end = queue.another(end);
    let shift = Shift {
        seat,
        links: VecDeque::new(alloc),
        is_spoiled: false,
    };
    Worker { shift, end }
}
