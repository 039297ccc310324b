//! What is done once all links are served.
ghost use Rattle.std.specs.Prelude.{◌≡◌, ℕ, ◌+◌, ◌<◌, ◌≤◌, List, [], ◌++◌, map, flat_map, length, Option, option_map, true, false, vec_len, vec_capacity};
ghost use Rattle.std.specs.VecDeque.{deque_len, deque_capacity};
ghost use Rattle.seat_lock.specs.Lists.{AllOf};
ghost use Rattle.link_queue.specs.Balance.{weigh, whole};
ghost use Rattle.troop_hall.specs.Seats.{IsDeskSeat, IsLater};
ghost use Rattle.server_crew.specs.Shifts.{IsShift, all_links, HaveLost};
ghost use Rattle.server_crew.specs.Workers.{all_taken};
ghost use Rattle.log_model.specs.Legal.{IsLegal};
ghost use Rattle.server_crew.specs.Ready.{IsCrewReady};
ghost use Rattle.server_crew.specs.Crews.{IsRun, IsServedInPart};

use crate::crew::Crew;
use crate::gate::Gate;
use crate::shift::{Shift, serve_one};
use crate::worker::Worker;
use link_queue::{LinkEnd, LinkQueue};
use revision_log::Desk;
use std::alloc::Global;
use std::collections::VecDeque;
use std::sync::Wait;
use troop_hall::{DeskHall, DeskSeat};
use troop_ports::{Door, Link};

/// A log that was closed.
#[derive(Drop)]
pub struct Closed {
    pub desk: Desk,
    /// Whether memory was wanting to keep a link.
    pub is_spoiled: bool,
}

/// Serves what is left, hands all links back to the door and closes the log. It takes no memory but for the links that are left.
pub fn close_down<D: Door, G: Gate, R: Wait>(
    rt: &R,
    alloc: Global,
    door: &mut D,
    gate: &G,
    hall: DeskHall,
    queue: &LinkQueue<D::L>,
    crew: Crew<D::L>,
) -> Closed
where
    D::L: Drop,
    requires ready { IsCrewReady D.L.Source.remaining D.L.Sink.taken D.L.Source.faults D.L.Source.closed hall queue.now.table crew.end.put crew }
    requires places { length crew.end.put ≤ D.places door.old }
    requires empty { hall.first ≡ [] }
    ensures legal { IsLegal result.desk }
    ensures links { D.links door.new ≡ D.links door.old }
    ensures run { result.is_spoiled ≡ false → (links : Option (List D.L)) → links ≡ option_map (λ others. crew.end.put ++ others) (D.links door.new) → IsRun D.L.Source.remaining D.L.Sink.taken D.L.Source.faults D.L.Source.closed crew.end.put result.desk links (D.links door.new) (D.retired door.old) (D.retired door.new) }
    ensures places { D.places door.old ≤ D.places door.new + length crew.end.put }
    ensures lost { result.is_spoiled ≡ true → D.places door.old < D.places door.new + length crew.end.put }
    ensures all_places { result.is_spoiled ≡ false → D.places door.new + length crew.end.put ≡ D.places door.old }
    ensures back { (returned : List D.L) × IsServedInPart D.L.Source.remaining D.L.Sink.taken D.L.Source.faults D.L.Source.closed crew.end.put returned result.desk × (D.retired door.new ≡ option_map (λ others. others ++ returned) (D.retired door.old)) × (D.places door.new + length returned ≡ D.places door.old) }
    ensures count { D.faults door.new ≡ D.faults door.old }
{
    let Crew {
        first,
        mut end,
        workers,
        mut shifts,
        mut seats,
    } = crew;
    gather(queue, &mut end, VecDeque::from_vec(workers), &mut shifts);
    let mut last = Shift {
        seat: first,
        links: VecDeque::new(alloc),
        is_spoiled: false,
    };
    sweep(rt, alloc, &hall, queue, gate, &mut end, &mut last);
    shifts.push_back_reserved(last);
    let is_spoiled = hand_back(door, shifts, &mut seats);
    let desk = hall.close(rt, seats);
    Closed { desk, is_spoiled }
}

// Takes in the workers' ends, and hands out their shifts.
fn gather<L: Link + Drop>(
    queue: &LinkQueue<L>,
    end: &mut LinkEnd<L>,
    mut workers: VecDeque<Worker<L>>,
    shifts: &mut VecDeque<Shift<L>>,
)
    requires queue { end.old.queue ≡ queue.now.table }
    requires part { 0 < end.old.parts }
    requires queues { AllOf (λ w. (w.end.queue ≡ queue.now.table) × (w.end.parts ≡ 1) × (w.end.put ≡ [])) workers.items }
    requires room { deque_len shifts.old + length workers.items ≤ deque_capacity shifts.old }
    ensures queue { (end.new.queue ≡ queue.now.table) × (end.new.parts ≡ end.old.parts + length workers.items) }
    ensures moved { (end.new.put ≡ end.old.put) × (end.new.taken ≡ end.old.taken ++ all_taken workers.items) }
    ensures shifts { shifts.new.items ≡ shifts.old.items ++ map (λ w. w.shift) workers.items }
    ensures room { (deque_len shifts.new ≡ deque_len shifts.old + length workers.items) × (deque_capacity shifts.new ≡ deque_capacity shifts.old) }
{
    while let Some(worker) = workers.pop_front() {
        let Worker { shift, end: other } = worker;
        queue.absorb(end, other);
        shifts.push_back_reserved(shift);
    }
}

// Serves what is left in the queue, until nothing is.
fn sweep<L: Link + Drop, G: Gate, R: Wait>(
    rt: &R,
    alloc: Global,
    hall: &DeskHall,
    queue: &LinkQueue<L>,
    gate: &G,
    end: &mut LinkEnd<L>,
    shift: &mut Shift<L>,
)
    requires seat { IsDeskSeat hall.now shift.old.seat }
    requires queue { end.old.queue ≡ queue.now.table }
    requires whole { end.old.parts ≡ whole }
    requires none { IsShift L.Source.remaining L.Sink.taken L.Source.faults L.Source.closed shift.old [] }
    ensures seat { IsDeskSeat hall.now shift.new.seat × IsLater shift.old.seat shift.new.seat }
    ensures served { (taken : List L) × (end.new.taken ≡ end.old.taken ++ taken) × IsShift L.Source.remaining L.Sink.taken L.Source.faults L.Source.closed shift.new taken }
    ensures all { (f : L → ℕ) → weigh f end.old.put ≡ weigh f end.new.taken }
{
    for _ in rt.forever() {
        match queue.take_left(rt, end) {
            Some(numbered) => serve_one(rt, alloc, hall, gate, shift, numbered),
            None => return,
        }
    }
    unreachable!()
}

// Hands all links back to the door, shift by shift, and hands out the seats. The answer says whether a link was lost.
fn hand_back<D: Door>(
    door: &mut D,
    mut shifts: VecDeque<Shift<D::L>>,
    seats: &mut Vec<DeskSeat>,
) -> bool
where
    D::L: Drop,
    requires places { length (all_links shifts.items) ≤ D.places door.old }
    requires room { vec_len seats.old + length shifts.items ≤ vec_capacity seats.old }
    ensures retired { D.retired door.new ≡ option_map (λ others. others ++ all_links shifts.items) (D.retired door.old) }
    ensures links { D.links door.new ≡ D.links door.old }
    ensures places { D.places door.new + length (all_links shifts.items) ≡ D.places door.old }
    ensures count { D.faults door.new ≡ D.faults door.old }
    ensures seats { seats.new.items ≡ seats.old.items ++ map (λ s. s.seat) shifts.items }
    ensures spoiled { result ≡ false → AllOf (λ s. s.is_spoiled ≡ false) shifts.items }
    ensures lost { result ≡ true → HaveLost shifts.items }
{
    let mut is_spoiled = false;
    while let Some(shift) = shifts.pop_front() {
        let Shift {
            seat,
            links,
            is_spoiled: has_lost,
        } = shift;
        retire_all(door, links);
        seats.push_reserved(seat);
        is_spoiled = is_spoiled || has_lost;
    }
    is_spoiled
}

// Hands links back to the door, in order.
fn retire_all<D: Door>(door: &mut D, mut links: VecDeque<D::L>)
where
    D::L: Drop,
    requires { length links.items ≤ D.places door.old }
    ensures retired { D.retired door.new ≡ option_map (λ others. others ++ links.items) (D.retired door.old) }
    ensures links { D.links door.new ≡ D.links door.old }
    ensures places { D.places door.new + length links.items ≡ D.places door.old }
    ensures count { D.faults door.new ≡ D.faults door.old }
{
    while let Some(link) = links.pop_front() {
        door.retire(link);
    }
}
