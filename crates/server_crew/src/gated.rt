//! A link whose reads and writes a gate sees.
ghost use Rattle.std.specs.Prelude.{◌≡◌};

use crate::gate::Gate;
use troop_ports::{Got, Link, Put, Sink, Source};

/// A link whose reads and writes a gate sees. It tells what the link tells.
pub struct Gated<'g, L, G> {
    // The link.
    inner: L,
    // Who sees it.
    gate: &'g G,
    // The link's number.
    number: u64,
    // How many reads there were.
    reads: u64,
}

impl<'g, L, G> Gated<'g, L, G> {
    /// The link of this number, not read yet.
    pub fn new(inner: L, gate: &'g G, number: u64) -> Gated<'g, L, G>
        ensures { result.inner ≡ inner }
    {
        Gated {
            inner,
            gate,
            number,
            reads: 0,
        }
    }

    /// The link.
    pub fn into_inner(self) -> L
        ensures { result ≡ self.entry.inner }
    {
        let Gated {
            inner,
            gate: _,
            number: _,
            reads: _,
        } = self;
        inner
    }
}

impl<'g, L: Link, G: Gate> Source for Gated<'g, L, G> {
    ghost remaining = { λ link. L.Source.remaining link.inner };

    ghost taken_beside = { λ link. L.Source.taken_beside link.inner };

    ghost faults = { λ link. L.Source.faults link.inner };

    ghost closed = { λ link. L.Source.closed link.inner };

    fn read(&mut self, buf: &mut [u8]) -> Got {
        self.reads = self.reads.saturating_add(1);
        self.gate.hold(self.number, self.reads);
        self.inner.read(buf)
    }
}

impl<'g, L: Link, G: Gate> Sink for Gated<'g, L, G> {
    ghost taken = { λ link. L.Sink.taken link.inner };

    ghost remaining_beside = { λ link. L.Sink.remaining_beside link.inner };

    ghost faults = { λ link. L.Sink.faults link.inner };

    ghost closed = { λ link. L.Sink.closed link.inner };

    fn write(&mut self, piece: &[u8]) -> Put {
        let put = self.inner.write(piece);
        if let Put::Took(count) = put {
            self.gate.wrote(self.number, count as u64);
        }
        put
    }
}

impl<'g, L: Link, G: Gate> Link for Gated<'g, L, G> {
    ghost one_count = { λ link. L.Link.one_count link.inner };

    ghost one_state = { λ link. L.Link.one_state link.inner };

    ghost remaining_is = { λ link. L.Link.remaining_is link.inner };

    ghost taken_is = { λ link. L.Link.taken_is link.inner };

    fn close(&mut self) {
        self.inner.close();
    }
}
