//! A link whose reads wait until another link was written to.
ghost use Rattle.std.specs.Prelude.{Some};
ghost use Rattle.troop_ports.specs.Wires.{wire_faults};

use std::sync::atomic::{AtomicU64, Ordering};
use std::thread;
use troop_ports::{BytesLink, Got, Link, Put, Sink, Source};

/// How many turns are waited at most.
const TURNS: u64 = 10_000_000;

/// A link in memory that takes part in a count of calls.
#[derive(Drop)]
pub struct HeldLink<'c> {
    pub wire: BytesLink,
    /// How often links that count were written to and closed.
    pub calls: &'c AtomicU64,
    /// Whether this one counts.
    pub counts: bool,
    /// For each read how many such calls it waits for. A further one waits for none.
    pub waits: &'static [u64],
}

impl<'c> HeldLink<'c> {
    // Counts a call.
    fn count(&self) {
        if self.counts {
            self.calls.fetch_add(1, Ordering::SeqCst);
        }
    }
}

// Waits for so many calls.
fn wait_for(calls: &AtomicU64, awaited: u64) {
    for _ in 0..TURNS {
        if calls.load(Ordering::SeqCst) >= awaited {
            return;
        }
        thread::yield_now();
    }
}

impl<'c> Source for HeldLink<'c> {
    ghost remaining = { λ link. Some link.wire.feed.remaining };

    ghost taken_beside = { λ link. Some link.wire.drain.taken };

    ghost faults = { λ link. wire_faults link.wire };

    ghost closed = { λ link. link.wire.is_closed };

    fn read(&mut self, buf: &mut [u8]) -> Got {
        if let [first, others @ ..] = self.waits {
            wait_for(self.calls, *first);
            self.waits = others;
        }
        self.wire.read(buf)
    }
}

impl<'c> Sink for HeldLink<'c> {
    ghost taken = { λ link. Some link.wire.drain.taken };

    ghost remaining_beside = { λ link. Some link.wire.feed.remaining };

    ghost faults = { λ link. wire_faults link.wire };

    ghost closed = { λ link. link.wire.is_closed };

    fn write(&mut self, piece: &[u8]) -> Put {
        let put = self.wire.write(piece);
        self.count();
        put
    }
}

impl<'c> Link for HeldLink<'c> {
    ghost use Rattle.std.proofs.Common.{refl};

    ghost one_count = { λ link. refl };

    ghost one_state = { λ link. refl };

    ghost remaining_is = { λ link. refl };

    ghost taken_is = { λ link. refl };

    fn close(&mut self) {
        self.wire.close();
        self.count();
    }
}
