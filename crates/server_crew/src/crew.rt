//! The workers, and the acceptor beside them.
ghost use Rattle.std.specs.Prelude.{◌≡◌, ◌+◌, ◌<◌, [], length, All, IfOk};
ghost use Rattle.std.specs.Thread.{IsSync};
ghost use Rattle.server_crew.specs.Accepting.{HasTaken, CountsIf};
ghost use Rattle.link_queue.specs.Balance.{whole};
ghost use Rattle.link_queue.specs.Ends.{IsUnused};
ghost use Rattle.troop_hall.specs.Seats.{IsDeskSeat};
ghost use Rattle.server_crew.specs.Workers.{IsAtWork, HaveWorked};
ghost use Rattle.server_crew.specs.Ready.{IsCrewReady};

use crate::acceptor::accept_and_end;
use crate::gate::Gate;
use crate::hire::hire;
use crate::shift::Shift;
use crate::worker::{WORKERS, Worker, serve_all};
use link_queue::{LinkEnd, LinkQueue};
use std::alloc::{AllocError, Global};
use std::collections::VecDeque;
use std::sync::Wait;
use std::thread::{Threads, join_mut};
use troop_hall::{DeskHall, DeskSeat};
use troop_ports::{Door, Link};

/// The workers of a server, with what it takes to close it down without memory.
#[derive(Drop)]
pub struct Crew<L> {
    /// The first seat of the hall.
    pub first: DeskSeat,
    /// The first end of the queue, into which links are put.
    pub end: LinkEnd<L>,
    /// The workers.
    pub workers: Vec<Worker<L>>,
    /// With room for all shifts.
    pub shifts: VecDeque<Shift<L>>,
    /// With room for all seats.
    pub seats: Vec<DeskSeat>,
}

/// Makes a crew for this hall and this queue, of which these are the first seat and the first end.
pub fn form<L: Link + Drop>(
    alloc: Global,
    hall: &DeskHall,
    queue: &LinkQueue<L>,
    mut first: DeskSeat,
    mut end: LinkEnd<L>,
) -> Result<Crew<L>, AllocError>
    requires seat { IsDeskSeat hall.now first × (first.index ≡ 0) × (first.own ≡ []) × (first.made ≡ []) }
    requires queue { end.queue ≡ queue.now.table }
    requires parts { end.parts ≡ whole }
    requires none { IsUnused end }
    ensures { IfOk result (λ crew. IsCrewReady L.Source.remaining L.Sink.taken L.Source.faults L.Source.closed hall.now queue.now.table [] crew) }
{
    let workers = hire(alloc, hall, queue, &mut first, &mut end, WORKERS)?;
    let shifts = VecDeque::with_capacity(alloc, workers.len() + 1)?;
    let seats = Vec::with_capacity(alloc, workers.len() + 1)?;
    Ok(Crew {
        first,
        end,
        workers,
        shifts,
        seats,
    })
}

/// Accepts links beside the workers who serve them, until no more come and all that were handed to workers are served. The answer
/// says whether the door had a fault.
pub fn run<'a, D: Door + Send, G: Gate + Sync, R: Threads + Wait + Sync>(
    rt: &'a R,
    alloc: Global,
    door: &'a mut D,
    sessions: Option<u64>,
    gate: &'a G,
    hall: &'a DeskHall,
    queue: &'a LinkQueue<D::L>,
    end: &'a mut LinkEnd<D::L>,
    workers: &'a mut [Worker<D::L>],
) -> bool
where
    D::L: Drop + Send,
    requires queue { end.old.queue ≡ queue.now.table }
    requires part { 0 < end.old.parts }
    requires workers { All (IsAtWork D.L.Source.remaining D.L.Sink.taken D.L.Source.faults D.L.Source.closed hall.now queue.now.table) workers.old }
    ensures workers { All (IsAtWork D.L.Source.remaining D.L.Sink.taken D.L.Source.faults D.L.Source.closed hall.now queue.now.table) workers.new }
    ensures worked { HaveWorked workers.old workers.new }
    ensures marks { (end.new.marks_put ≡ end.old.marks_put + length workers.old) × (end.new.marks_taken ≡ end.old.marks_taken) }
    ensures retired { D.retired door.new ≡ D.retired door.old }
    ensures taken { HasTaken sessions (D.links door.old) (D.links door.new) end.old end.new (D.places door.old) (D.places door.new) result }
    ensures count { CountsIf result (D.faults door.old) (D.faults door.new) }
{
    let mut failed = false;
    let count = workers.len() as u64;
    join_mut(
        rt,
        &mut || {
            failed = accept_and_end(rt, door, sessions, queue, end, count);
        },
        &mut ||
            requires { IsSync R.row × All (IsAtWork D.L.Source.remaining D.L.Sink.taken D.L.Source.faults D.L.Source.closed hall.now queue.now.table) workers.now }
            ensures { All (IsAtWork D.L.Source.remaining D.L.Sink.taken D.L.Source.faults D.L.Source.closed hall.entry.now queue.entry.now.table) workers.exit.now × HaveWorked workers.entry.now workers.exit.now }
        { serve_all(rt, alloc, hall, queue, gate, workers) },
    );
    failed
}
