//! A gate that holds a read until another link was written to, and a door that waits for a write.
ghost use Rattle.std.specs.Prelude.{Some};

use server_crew::Gate;
use std::sync::atomic::{AtomicU64, Ordering};
use std::thread;
use troop_ports::{Accepted, BytesLink, Door, ListDoor};

/// How many turns are waited at most.
const TURNS: u64 = 10_000_000;

/// Holds the second read of one link until another has had its first write.
#[derive(Drop)]
pub struct Turnstile {
    // The number of the link that is held, or 0.
    held: u64,
    // The number of the link whose write is awaited.
    awaited: u64,
    // 1 once it was written to.
    written: AtomicU64,
    // 1 once the turns had run out.
    ran_out: AtomicU64,
}

impl Turnstile {
    /// A gate that has seen nothing.
    pub fn new(held: u64, awaited: u64) -> Turnstile {
        Turnstile {
            held,
            awaited,
            written: AtomicU64::new(0),
            ran_out: AtomicU64::new(0),
        }
    }

    /// Waits for the first write.
    pub fn await_write(&self) {
        for _ in 0..TURNS {
            if self.written.load(Ordering::SeqCst) != 0 {
                return;
            }
            thread::yield_now();
        }
        self.ran_out.store(1, Ordering::SeqCst);
    }

    /// Whether the turns ran out.
    pub fn has_run_out(&self) -> bool {
        self.ran_out.load(Ordering::SeqCst) != 0
    }
}

impl Gate for Turnstile {
    fn hold(&self, link: u64, reads: u64) {
        if link == self.held && reads == 2 {
            self.await_write();
        }
    }

    fn wrote(&self, link: u64, _bytes: u64) {
        if link == self.awaited {
            self.written.store(1, Ordering::SeqCst);
        }
    }
}

/// A door that gives its second link only behind the first write that the gate awaits.
#[derive(Drop)]
pub struct LateDoor<'g> {
    pub inner: ListDoor<BytesLink>,
    pub gate: &'g Turnstile,
    pub given: u64,
}

impl<'g> Door for LateDoor<'g> {
    type L = BytesLink;

    ghost links = { λ d. Some d.inner.links };

    ghost retired = { λ d. Some d.inner.retired };

    ghost places = { λ d. d.inner.places };

    ghost faults = { λ d. d.inner.faults };

    fn accept(&mut self) -> Accepted<BytesLink> {
        if self.given == 1 {
            self.gate.await_write();
        }
        self.given = self.given.saturating_add(1);
        self.inner.accept()
    }

    fn retire(&mut self, link: BytesLink) {
        self.inner.retire(link);
    }
}
