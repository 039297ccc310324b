//! Ports in memory, which go on as the others do.
ghost use Rattle.std.specs.Prelude.{◌≡◌, ◌<◌, None, false, IfOk, length};
ghost use Rattle.troop_ports.specs.Bytes.{GotFits, PutFits};

use crate::pace::{Moment, Pace};
use crate::script::{Portion, Script};
use crate::sign::Port;
use std::alloc::{AllocError, Global};
use std::time::Clock;
use troop_ports::{BytesSink, BytesSource, Got, Link, Put, Sink, Source};

// What is given from a moment on.
#[derive(Drop)]
struct Flow {
    moment: Moment,
    source: BytesSource,
}

/// A link that follows a script, as a source or a sink alone too. It tells no bytes.
#[derive(Drop)]
pub struct PacedPort<'p, R: Clock> {
    rt: &'p R,
    pace: &'p Pace,
    port: Port,
    flows: Vec<Flow>,
    // How many reads there were.
    reads: u64,
    // The numbers of the reads that fail, from 1.
    failing_reads: Vec<u64>,
    sink: BytesSink,
    // How many reads and writes failed.
    faults: u64,
    is_closed: bool,
}

impl<'p, R: Clock> PacedPort<'p, R> {
    /// An open link. What is written on the up link and printed sets the pace.
    pub fn new(
        rt: &'p R,
        alloc: Global,
        pace: &'p Pace,
        port: Port,
        script: &Script,
    ) -> Result<PacedPort<'p, R>, AllocError>
        ensures { IfOk result (λ link. link.is_closed ≡ false) }
    {
        let mut flows = Vec::new(alloc);
        flows.push(flow_of(alloc, &script.first)?)?;
        for portion in &script.later {
            flows.push(flow_of(alloc, portion)?)?;
        }
        let failing_reads = Vec::from_slice(alloc, &script.failing_reads)?;
        let sink = BytesSink::new(alloc, script.room, &script.failing_writes)?;
        Ok(PacedPort {
            rt,
            pace,
            port,
            flows,
            reads: 0,
            failing_reads,
            sink,
            faults: 0,
            is_closed: false,
        })
    }

    /// What was written on it.
    pub fn written(&self) -> &[u8] {
        self.sink.bytes()
    }
}

fn flow_of(alloc: Global, portion: &Portion) -> Result<Flow, AllocError> {
    let source = BytesSource::new(alloc, &portion.bytes, &portion.lines, &[])?;
    Ok(Flow {
        moment: portion.moment,
        source,
    })
}

// The next piece of the flows whose moment comes.
fn next_piece<R: Clock>(rt: &R, pace: &Pace, flows: &mut [Flow], buf: &mut [u8]) -> Got
    requires room { 0 < length buf.old }
    ensures fits { GotFits result buf.new }
{
    for flow in flows {
        if pace.await_moment(rt, flow.moment) {
            match flow.source.read(buf) {
                Got::Bytes(count) => return Got::Bytes(count),
                Got::End => {}
                Got::Failed => return Got::Failed,
            }
        }
    }
    Got::End
}

impl<'p, R: Clock> Source for PacedPort<'p, R> {
    ghost remaining = { λ _. None };

    ghost taken_beside = { λ _. None };

    ghost faults = { λ link. link.faults };

    ghost closed = { λ link. link.is_closed };

    fn read(&mut self, buf: &mut [u8]) -> Got {
        self.reads = self.reads.saturating_add(1);
        if self.failing_reads.contains(&self.reads) {
            self.faults = self.faults.saturating_add(1);
            return Got::Failed;
        }
        match next_piece(self.rt, self.pace, &mut self.flows, buf) {
            Got::Bytes(count) => Got::Bytes(count),
            Got::End => Got::End,
            Got::Failed => {
                self.faults = self.faults.saturating_add(1);
                Got::Failed
            }
        }
    }
}

// Writes the front of the piece, and counts its lines.
fn write_piece(pace: &Pace, port: Port, sink: &mut BytesSink, piece: &[u8]) -> Put
    requires some { 0 < length piece.now }
    ensures fits { PutFits result piece.now }
{
    let put = sink.write(piece);
    if let Put::Took(count) = put {
        match port {
            Port::Up => pace.count_sent(&piece[..count]),
            Port::Out => pace.count_printed(&piece[..count]),
            Port::Down | Port::Commands => {}
        }
    }
    put
}

impl<'p, R: Clock> Sink for PacedPort<'p, R> {
    ghost taken = { λ _. None };

    ghost remaining_beside = { λ _. None };

    ghost faults = { λ link. link.faults };

    ghost closed = { λ link. link.is_closed };

    fn write(&mut self, piece: &[u8]) -> Put {
        match write_piece(self.pace, self.port, &mut self.sink, piece) {
            Put::Took(count) => Put::Took(count),
            Put::Failed => {
                self.faults = self.faults.saturating_add(1);
                Put::Failed
            }
        }
    }
}

impl<'p, R: Clock> Link for PacedPort<'p, R> {
    ghost use Rattle.std.proofs.Common.{refl};

    ghost one_count = { λ link. refl };

    ghost one_state = { λ link. refl };

    ghost remaining_is = { λ link. refl };

    ghost taken_is = { λ link. refl };

    fn close(&mut self) {
        self.is_closed = true;
        if self.port == Port::Up {
            self.pace.close();
        }
    }
}
