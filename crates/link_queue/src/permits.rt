//! A number of permits.
use std::sync::{Condvar, Mutex, Wait};

/// Permits that threads take and give back. Who finds none sleeps, and is called when one is given back.
#[derive(Drop)]
pub struct Permits {
    // How many there are to take.
    free: Mutex<u64>,
    // Told of each that is given back.
    given: Condvar,
}

impl Permits {
    /// So many permits.
    pub fn new(count: u64) -> Permits {
        Permits {
            free: Mutex::new(count),
            given: Condvar::new(),
        }
    }

    /// Waits for a permit, and takes it.
    pub fn take<R: Wait>(&self, rt: &R) {
        let mut free = self
            .given
            .wait_while(rt, self.free.lock(rt), |free| *free == 0);
        *free -= 1;
    }

    /// Gives a permit back.
    pub fn give<R: Wait>(&self, rt: &R) {
        let mut free = self.free.lock(rt);
        *free = free.saturating_add(1);
        drop(free);
        self.given.notify_one();
    }
}
