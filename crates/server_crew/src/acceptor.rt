//! The acceptor, which hands links to the workers.
ghost use Rattle.std.specs.Prelude.{◌≡◌, ◌≢◌, ◌+◌, ◌<◌, Some};
ghost use Rattle.server_crew.specs.Accepting.{HasTaken, CountsIf, and_more};

use link_queue::{LinkEnd, LinkQueue, Numbered};
use std::sync::Wait;
use troop_ports::{Accepted, Door};

/// Takes links from the door, at most so many, and hands them to the workers; then tells each of so many workers that no more come.
/// The answer says whether the door had a fault.
pub fn accept_and_end<D: Door, R: Wait>(
    rt: &R,
    door: &mut D,
    sessions: Option<u64>,
    queue: &LinkQueue<D::L>,
    end: &mut LinkEnd<D::L>,
    workers: u64,
) -> bool
where
    D::L: Drop,
    requires queue { end.old.queue ≡ queue.now.table }
    requires part { 0 < end.old.parts }
    ensures marks { (end.new.marks_put ≡ end.old.marks_put + workers) × (end.new.marks_taken ≡ end.old.marks_taken) }
    ensures retired { D.retired door.new ≡ D.retired door.old }
    ensures taken { HasTaken sessions (D.links door.old) (D.links door.new) end.old end.new (D.places door.old) (D.places door.new) result }
    ensures count { CountsIf result (D.faults door.old) (D.faults door.new) }
{
    let failed = accept_all(rt, door, sessions, queue, end);
    for told in 0..workers {
        queue.put(rt, end, None);
    }
    failed
}

// Takes links from the door, at most so many, and hands them to the workers.
fn accept_all<D: Door, R: Wait>(
    rt: &R,
    door: &mut D,
    sessions: Option<u64>,
    queue: &LinkQueue<D::L>,
    end: &mut LinkEnd<D::L>,
) -> bool
where
    D::L: Drop,
    requires queue { end.old.queue ≡ queue.now.table }
    requires part { 0 < end.old.parts }
    ensures marks { (end.new.marks_put ≡ end.old.marks_put) × (end.new.marks_taken ≡ end.old.marks_taken) }
    ensures retired { D.retired door.new ≡ D.retired door.old }
    ensures taken { HasTaken sessions (D.links door.old) (D.links door.new) end.old end.new (D.places door.old) (D.places door.new) result }
    ensures count { CountsIf result (D.faults door.old) (D.faults door.new) }
{
    let mut rest = sessions;
    let mut number = 0u64;
    for _ in rt.forever() {
        if rest == Some(0) {
            return false;
        }
        match door.accept() {
            Accepted::Link(link) => {
                number = number.saturating_add(1);
                queue.put(rt, end, Some(Numbered { number, link }));
            }
            Accepted::Closed => return false,
            Accepted::Failed => return true,
        }
        rest = one_fewer(rest);
    }
    unreachable!()
}

// One fewer, where there is a number.
fn one_fewer(rest: Option<u64>) -> Option<u64>
    requires { rest ≢ Some 0 }
    ensures { rest ≡ and_more 1 result }
{
    match rest {
        Some(count) => Some(count - 1),
        None => None,
    }
}
