//! Workers, which serve links as they come.
ghost use Rattle.std.specs.Prelude.{◌≡◌, All};
ghost use Rattle.server_crew.specs.Workers.{IsAtWork, HasWorked, HaveWorked};

use crate::gate::Gate;
use crate::shift::{Shift, serve_one};
use link_queue::{LinkEnd, LinkQueue};
use std::alloc::Global;
use std::sync::Wait;
use std::thread;
use std::thread::Threads;
use troop_hall::DeskHall;
use troop_ports::Link;

/// How many links are served at once.
pub const WORKERS: u64 = 64;

/// A worker has an end of the queue, and serves what it takes there.
#[derive(Drop)]
pub struct Worker<L> {
    pub shift: Shift<L>,
    pub end: LinkEnd<L>,
}

// Serves links as they come, until no more come.
fn work<L: Link + Drop, G: Gate, R: Wait>(
    rt: &R,
    alloc: Global,
    hall: &DeskHall,
    queue: &LinkQueue<L>,
    gate: &G,
    worker: &mut Worker<L>,
)
    requires { IsAtWork L.Source.remaining L.Sink.taken L.Source.faults L.Source.closed hall.now queue.now.table worker.old }
    ensures work { IsAtWork L.Source.remaining L.Sink.taken L.Source.faults L.Source.closed hall.now queue.now.table worker.new }
    ensures worked { HasWorked worker.old worker.new }
{
    for _ in rt.forever() {
        match queue.take(rt, &mut worker.end) {
            Some(numbered) => serve_one(rt, alloc, hall, gate, &mut worker.shift, numbered),
            None => return,
        }
    }
    unreachable!()
}

/// Lets each worker serve links, each on a thread of its own.
pub fn serve_all<L: Link + Send + Drop, G: Gate + Sync, R: Threads + Wait + Sync>(
    rt: &R,
    alloc: Global,
    hall: &DeskHall,
    queue: &LinkQueue<L>,
    gate: &G,
    workers: &mut [Worker<L>],
)
    requires { All (IsAtWork L.Source.remaining L.Sink.taken L.Source.faults L.Source.closed hall.now queue.now.table) workers.old }
    ensures work { All (IsAtWork L.Source.remaining L.Sink.taken L.Source.faults L.Source.closed hall.now queue.now.table) workers.new }
    ensures worked { HaveWorked workers.old workers.new }
{
    thread::for_each_mut(
        rt,
        workers,
        WORKERS as usize,
        &|_, w: &mut Worker<L>|
            requires { IsAtWork L.Source.remaining L.Sink.taken L.Source.faults L.Source.closed hall.now queue.now.table w.old }
            ensures { IsAtWork L.Source.remaining L.Sink.taken L.Source.faults L.Source.closed hall.entry.now queue.entry.now.table w.new × HasWorked w.old w.new }
        { work(rt, alloc, hall, queue, gate, w) },
    );
}
