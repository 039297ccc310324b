//! TCP's streams and listeners of std as links, doors and a net, which tell no bytes and no links.
ghost use Rattle.std.specs.Prelude.{◌≡◌, None, is_none, false};

use crate::{Accepted, Dialled, Door, Got, Link, Listening, Net, Put, Sink, Source};
use std::io;
use std::io::{Read, Write};
use std::net::{SocketAddr, TcpListener, TcpStream};
use std::time::Duration;

/// How many seconds a write may wait for its peer before it counts as a fault.
const LONGEST_WRITE: u64 = 60;

/// A stream, with a count of its errors and of the writes that took nothing.
///
/// What is written goes out at once. A write is to fail once it has waited for a minute, so that a peer that stops reading
/// doesn't hold its writer for ever.
#[derive(Drop)]
pub struct TcpLink {
    // The stream, until the link is closed.
    stream: Option<TcpStream>,
    // How many of its calls were errors, or writes that took nothing.
    faults: u64,
}

impl TcpLink {
    /// An open link over the stream. An error of its settings is counted.
    pub fn new(stream: TcpStream) -> TcpLink
        ensures { ⟦<TcpLink as Source>⟧.closed result ≡ false }
    {
        let wait = Some(Duration::from_secs(LONGEST_WRITE));
        let is_set = stream.set_nodelay(true).is_ok() && stream.set_write_timeout(wait).is_ok();
        let faults = if is_set { 0 } else { 1 };
        TcpLink {
            stream: Some(stream),
            faults,
        }
    }
}

impl Source for TcpLink {
    ghost remaining = { λ _. None };

    ghost taken_beside = { λ _. None };

    ghost faults = { λ link. link.faults };

    ghost closed = { λ link. is_none link.stream };

    fn read(&mut self, buf: &mut [u8]) -> Got {
        let Some(stream) = &mut self.stream else {
            unreachable!()
        };
        match stream.read(buf) {
            Ok(0) => Got::End,
            Ok(count) => Got::Bytes(count),
            Err(_) => {
                self.faults = self.faults.saturating_add(1);
                Got::Failed
            }
        }
    }
}

impl Sink for TcpLink {
    ghost taken = { λ _. None };

    ghost remaining_beside = { λ _. None };

    ghost faults = { λ link. link.faults };

    ghost closed = { λ link. is_none link.stream };

    fn write(&mut self, piece: &[u8]) -> Put {
        let Some(stream) = &mut self.stream else {
            unreachable!()
        };
        match stream.write(piece) {
            Ok(count) if count > 0 => Put::Took(count),
            _ => {
                self.faults = self.faults.saturating_add(1);
                Put::Failed
            }
        }
    }
}

impl Link for TcpLink {
    ghost use Rattle.std.proofs.Common.{refl};

    ghost one_count = { λ link. refl };

    ghost one_state = { λ link. refl };

    ghost remaining_is = { λ link. refl };

    ghost taken_is = { λ link. refl };

    fn close(&mut self) {
        self.stream = None;
    }
}

/// A listener, with a count of the errors of its accepts. It is never closed by itself.
#[derive(Drop)]
pub struct TcpDoor {
    // The listener.
    listener: TcpListener,
    // How many links are out.
    out: u64,
    // How many accepts met an error.
    faults: u64,
}

impl TcpDoor {
    /// The listener, with no link out and no error counted yet.
    pub fn new(listener: TcpListener) -> TcpDoor {
        TcpDoor {
            listener,
            out: 0,
            faults: 0,
        }
    }

    /// The address at which it listens.
    pub fn local_addr(&self) -> io::Result<SocketAddr> {
        self.listener.local_addr()
    }
}

impl Door for TcpDoor {
    type L = TcpLink;

    ghost links = { λ _. None };

    ghost retired = { λ _. None };

    ghost places = { λ door. door.out };

    ghost faults = { λ door. door.faults };

    fn accept(&mut self) -> Accepted<TcpLink> {
        match self.listener.accept() {
            Ok((stream, _)) if self.out < u64::MAX => {
                self.out += 1;
                Accepted::Link(TcpLink::new(stream))
            }
            _ => {
                self.faults = self.faults.saturating_add(1);
                Accepted::Failed
            }
        }
    }

    fn retire(&mut self, _link: TcpLink) {
        self.out -= 1;
    }
}

/// The network of the system, with a count of its errors and of those of what came back.
#[derive(Drop)]
pub struct TcpNet<'r, R> {
    // The runtime, which opens listeners and streams.
    rt: &'r R,
    // How many links are out.
    out: u64,
    // How many doors are out.
    doors_out: u64,
    // How many calls met an error, and the counts of what came back.
    faults: u64,
}

impl<'r, R: std::net::Net<Listener = TcpListener, Stream = TcpStream>> TcpNet<'r, R> {
    /// The network that the runtime reaches, with nothing out and no error counted yet.
    pub fn new(rt: &'r R) -> TcpNet<'r, R> {
        TcpNet {
            rt,
            out: 0,
            doors_out: 0,
            faults: 0,
        }
    }
}

impl<'r, R: std::net::Net<Listener = TcpListener, Stream = TcpStream>> Net for TcpNet<'r, R> {
    type L = TcpLink;

    type D = TcpDoor;

    ghost doors = { λ _. None };

    ghost links = { λ _. None };

    ghost retired = { λ _. None };

    ghost shut_doors = { λ _. None };

    ghost places = { λ net. net.out };

    ghost door_places = { λ net. net.doors_out };

    ghost faults = { λ net. net.faults };

    ghost site = { λ _. None };

    fn listen(&mut self, addr: &str) -> Listening<TcpDoor> {
        match TcpListener::bind(self.rt, addr) {
            Ok(listener) if self.doors_out < u64::MAX => {
                self.doors_out += 1;
                Listening::Door(TcpDoor::new(listener))
            }
            _ => {
                self.faults = self.faults.saturating_add(1);
                Listening::Failed
            }
        }
    }

    fn dial(&mut self, addr: &str) -> Dialled<TcpLink> {
        match TcpStream::connect(self.rt, addr) {
            Ok(stream) if self.out < u64::MAX => {
                self.out += 1;
                Dialled::Link(TcpLink::new(stream))
            }
            _ => {
                self.faults = self.faults.saturating_add(1);
                Dialled::Failed
            }
        }
    }

    fn retire(&mut self, link: TcpLink) {
        self.out -= 1;
        self.faults = self.faults.saturating_add(link.faults);
    }

    fn shut(&mut self, door: TcpDoor) {
        self.doors_out -= 1;
        self.faults = self.faults.saturating_add(door.faults);
    }
}
