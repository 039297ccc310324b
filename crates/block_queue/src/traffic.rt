//! How many items went in and out, for whoever waits.
use std::sync::{Condvar, Mutex, Wait};

/// How many items were pushed and popped.
#[derive(Clone, Copy, Debug)]
struct Counts {
    pushed: u64,
    popped: u64,
}

/// The items that went in and out of a queue, counted, so that who finds it empty or full can sleep.
#[derive(Drop)]
pub struct Traffic {
    // How many there were.
    counts: Mutex<Counts>,
    // Told of each.
    moved: Condvar,
}

impl Traffic {
    /// None so far.
    pub fn new() -> Traffic {
        Traffic {
            counts: Mutex::new(Counts {
                pushed: 0,
                popped: 0,
            }),
            moved: Condvar::new(),
        }
    }

    /// Counts an item that was pushed.
    pub fn count_pushed<R: Wait>(&self, rt: &R) {
        let mut counts = self.counts.lock(rt);
        counts.pushed = counts.pushed.saturating_add(1);
        drop(counts);
        self.moved.notify_all();
    }

    /// Counts an item that was popped.
    pub fn count_popped<R: Wait>(&self, rt: &R) {
        let mut counts = self.counts.lock(rt);
        counts.popped = counts.popped.saturating_add(1);
        drop(counts);
        self.moved.notify_all();
    }

    /// Sleeps until more were pushed than were popped.
    pub fn wait_for_item<R: Wait>(&self, rt: &R) {
        let counts = self.moved.wait_while(rt, self.counts.lock(rt), |counts| {
            counts.pushed <= counts.popped
        });
        drop(counts);
    }

    /// Sleeps until fewer than so many were pushed that weren't popped.
    pub fn wait_for_room<R: Wait>(&self, rt: &R, room: u64) {
        let counts = self.moved.wait_while(rt, self.counts.lock(rt), |counts| {
            counts.popped.saturating_add(room) <= counts.pushed
        });
        drop(counts);
    }
}
