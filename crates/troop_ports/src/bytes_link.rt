//! A link in memory.
ghost use Rattle.std.specs.Prelude.{◌≡◌, ◌<◌, [], Some, true, false, IfOk, length};
ghost use Rattle.troop_ports.specs.Faults.{CountsRead, CountsWrite};
ghost use Rattle.troop_ports.specs.Feeds.{got_of, feed_after, buffer_after};
ghost use Rattle.troop_ports.specs.Drains.{put_of, drain_after};
ghost use Rattle.troop_ports.specs.Wires.{wire_faults};

use crate::{BytesSink, BytesSource, Got, Link, Put, Sink, Source};
use std::alloc::{AllocError, Global};
use std::marker::Model;

/// A source and a sink in memory as one link, of whose reads and writes listed ones fail.
#[derive(Drop)]
pub struct BytesLink {
    // What it gives.
    source: BytesSource,
    // What it takes.
    sink: BytesSink,
    // Whether it was closed.
    is_closed: bool,
}

impl Model for BytesLink {
    ghost use Rattle.troop_ports.specs.Wires.{Wire};

    ghost Value = { Wire };

    ghost view = { λ link. record { feed = link.source; drain = link.sink; is_closed = link.is_closed } };
}

impl BytesLink {
    /// A link that no call has been made to. The reads that fail are given by their numbers, from 1, and the
    /// writes by theirs.
    pub fn new(
        alloc: Global,
        bytes: &[u8],
        pieces: &[u64],
        read_fails: &[u64],
        room: u64,
        write_fails: &[u64],
    ) -> Result<BytesLink, AllocError>
        ensures feed { IfOk result (λ link. link.feed ≡ record { remaining = bytes.now; pieces = pieces.now; fails = read_fails.now; calls = 0; faults = 0 }) }
        ensures drain { IfOk result (λ link. link.drain ≡ record { taken = []; room = room; fails = write_fails.now; calls = 0; faults = 0 }) }
        ensures is_open { IfOk result (λ link. link.is_closed ≡ false) }
    {
        let source = BytesSource::new(alloc, bytes, pieces, read_fails)?;
        let sink = BytesSink::new(alloc, room, write_fails)?;
        Ok(BytesLink {
            source,
            sink,
            is_closed: false,
        })
    }

    /// The bytes that were taken.
    pub fn written(&self) -> &[u8]
        ensures { result.now ≡ self.now.drain.taken }
    {
        self.sink.bytes()
    }
}

impl Source for BytesLink {
    ghost remaining = { λ link. Some link.feed.remaining };

    ghost taken_beside = { λ link. Some link.drain.taken };

    ghost faults = { wire_faults };

    ghost closed = { λ link. link.is_closed };

    fn read(&mut self, buf: &mut [u8]) -> Got
        requires room { 0 < length buf.old }
        ensures answer { result ≡ got_of self.old.feed (length buf.old) }
        ensures after { self.new ≡ record { feed = feed_after self.old.feed result; drain = self.old.drain; is_closed = self.old.is_closed } }
        ensures copied { buf.new ≡ buffer_after self.old.feed.remaining result buf.old }
        ensures cause { CountsRead result (wire_faults self.old) (wire_faults self.new) }
    {
        self.source.read(buf)
    }
}

impl Sink for BytesLink {
    ghost taken = { λ link. Some link.drain.taken };

    ghost remaining_beside = { λ link. Some link.feed.remaining };

    ghost faults = { wire_faults };

    ghost closed = { λ link. link.is_closed };

    fn write(&mut self, piece: &[u8]) -> Put
        requires some { 0 < length piece.now }
        ensures answer { result ≡ put_of self.old.drain (length piece.now) }
        ensures after { self.new ≡ record { feed = self.old.feed; drain = drain_after self.old.drain result piece.now; is_closed = self.old.is_closed } }
        ensures cause { CountsWrite result (wire_faults self.old) (wire_faults self.new) }
    {
        self.sink.write(piece)
    }
}

impl Link for BytesLink {
    ghost use Rattle.std.proofs.Common.{refl};

    ghost one_count = { λ link. refl };

    ghost one_state = { λ link. refl };

    ghost remaining_is = { λ link. refl };

    ghost taken_is = { λ link. refl };

    fn close(&mut self)
        ensures { self.new ≡ record { feed = self.old.feed; drain = self.old.drain; is_closed = true } }
    {
        self.is_closed = true;
    }
}
