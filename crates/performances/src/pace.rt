//! How far the ports of a performance have come, as the others see it.

use std::sync::atomic::{AtomicU64, Ordering};
use std::thread;
use std::time::{Clock, Duration};

/// How many turns are waited at most.
const TURNS: u64 = 30_000;

/// How many milliseconds a turn has at least.
const TURN: u64 = 1;

/// When a port goes on.
#[derive(Clone, Copy, Debug, PartialEq, Eq)]
pub enum Moment {
    /// Once so many lines were written on the up link.
    Sent(u64),
    /// Once so many lines were printed.
    Printed(u64),
    /// Once the up link was closed.
    Closed,
}

/// How many lines were written on the up link and printed, and whether the up link was closed.
#[derive(Drop)]
pub struct Pace {
    sent: AtomicU64,
    printed: AtomicU64,
    // 1 once it was closed.
    closed: AtomicU64,
    // 1 once the turns had run out.
    ran_out: AtomicU64,
}

impl Pace {
    /// Nothing was written yet.
    pub fn new() -> Pace {
        Pace {
            sent: AtomicU64::new(0),
            printed: AtomicU64::new(0),
            closed: AtomicU64::new(0),
            ran_out: AtomicU64::new(0),
        }
    }

    /// Counts the lines that end in this piece, which was written on the up link.
    pub fn count_sent(&self, piece: &[u8]) {
        self.sent.fetch_add(count_feeds(piece), Ordering::SeqCst);
    }

    /// Counts the lines that end in this piece, which was printed.
    pub fn count_printed(&self, piece: &[u8]) {
        self.printed.fetch_add(count_feeds(piece), Ordering::SeqCst);
    }

    /// The up link was closed: no more lines are written on it.
    pub fn close(&self) {
        self.closed.store(1, Ordering::SeqCst);
    }

    /// Waits for the moment, and answers whether it has come. It doesn't where the up link is closed with fewer lines, or where the turns
    /// run out.
    pub fn await_moment<R: Clock>(&self, rt: &R, moment: Moment) -> bool {
        for _ in 0..TURNS {
            if self.has_run_out() {
                return false;
            }
            // The lines are counted behind this, so they are all where the link was closed.
            let is_closed = self.closed.load(Ordering::SeqCst) != 0;
            let has_come = match moment {
                Moment::Sent(lines) => self.sent.load(Ordering::SeqCst) >= lines,
                Moment::Printed(lines) => self.printed.load(Ordering::SeqCst) >= lines,
                Moment::Closed => is_closed,
            };
            if has_come {
                return true;
            }
            if is_closed && matches!(moment, Moment::Sent(_)) {
                return false;
            }
            thread::sleep(rt, Duration::from_millis(TURN));
        }
        self.ran_out.store(1, Ordering::SeqCst);
        false
    }

    /// Whether the turns ran out.
    pub fn has_run_out(&self) -> bool {
        self.ran_out.load(Ordering::SeqCst) != 0
    }
}

// How many line feeds stand in the piece.
fn count_feeds(piece: &[u8]) -> u64 {
    piece.iter().filter(|b| **b == b'\n').count() as u64
}
