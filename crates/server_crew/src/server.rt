//! The server.
ghost use Rattle.std.specs.Prelude.{◌≡◌, List, length, Ok, Err, IfOk, IfErr};
ghost use Rattle.troop_entry.specs.declared.row.Row.{Row};
ghost use Rattle.log_model.specs.Legal.{IsLegal};
ghost use Rattle.server_crew.specs.Accepting.{HasEnough, IsWithinAsked};
ghost use Rattle.server_crew.specs.Crews.{IsRun, CountsServe, KeepsPlaces, HasWanted};

use crate::ServeError;
use crate::closing::close_down;
use crate::crew::{form, run};
use crate::gate::Gate;
use link_queue::LinkQueue;
use revision_log::Desk;
use std::alloc::Global;
use std::sync::Wait;
use std::thread::Threads;
use troop_hall::DeskHall;
use troop_ports::Door;

/// How many links may wait for a worker.
const WAITING: usize = 64;

/// Serves the links of a door over one log, until the door is closed or so many were accepted, and all that were accepted are
/// served. The log begins empty, and is handed out closed.
///
/// All links go back to the door, but those that no memory was found to keep: these are dropped, and the answer is
/// `ServeError::Memory`.
pub fn serve<D: Door + Send, G: Gate + Sync, R: Threads + Wait + Sync>(
    rt: &R,
    alloc: Global,
    door: &mut D,
    sessions: Option<u64>,
    gate: &G,
) -> Result<Desk, ServeError>
where
    D::L: Drop + Send,
    ensures legal { IfOk result IsLegal }
    ensures served { IfOk result (λ desk. (taken : List D.L) × IsRun D.L.Source.remaining D.L.Sink.taken D.L.Source.faults D.L.Source.closed taken desk (D.links door.old) (D.links door.new) (D.retired door.old) (D.retired door.new) × HasEnough sessions (length taken) (D.links door.new)) }
    ensures fault { result ≡ Err ServeError.DoorFault → (taken : List D.L) × (log : List Row) × IsLegal log × IsRun D.L.Source.remaining D.L.Sink.taken D.L.Source.faults D.L.Source.closed taken log (D.links door.old) (D.links door.new) (D.retired door.old) (D.retired door.new) × IsWithinAsked sessions (length taken) }
    ensures cause { CountsServe result (D.faults door.old) (D.faults door.new) }
    ensures places { KeepsPlaces result (D.places door.old) (D.places door.new) }
    ensures wanting { result ≡ Err ServeError.Memory → HasWanted D.L.Source.remaining D.L.Sink.taken D.L.Source.faults D.L.Source.closed sessions (D.links door.old) (D.links door.new) (D.retired door.old) (D.retired door.new) (D.places door.old) (D.places door.new) (D.faults door.old) (D.faults door.new) }
{
    let Ok((hall, first)) = DeskHall::new(alloc, Desk::new(alloc)) else {
        return Err(ServeError::Memory);
    };
    let Ok((queue, end)) = LinkQueue::new(alloc, WAITING) else {
        return Err(ServeError::Memory);
    };
    let Ok(mut crew) = form(alloc, &hall, &queue, first, end) else {
        return Err(ServeError::Memory);
    };
    let workers = crew.workers.as_mut_slice();
    let failed = run(
        rt,
        alloc,
        door,
        sessions,
        gate,
        &hall,
        &queue,
        &mut crew.end,
        workers,
    );
    let closed = close_down(rt, alloc, door, gate, hall, &queue, crew);
    if closed.is_spoiled {
        return Err(ServeError::Memory);
    }
    if failed {
        return Err(ServeError::DoorFault);
    }
    Ok(closed.desk)
}
