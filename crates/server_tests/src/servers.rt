//! Servers over doors in memory, and over TCP.
ghost use Rattle.std.specs.Prelude.{◌≡◌, false, All, IfOk};

use crate::gates::{LateDoor, Turnstile};
use server_crew::{Gate, NoGate, ServeError, serve};
use std::alloc::{AllocError, Global};
use std::sync::Wait;
use std::test::Fail;
use std::thread::Threads;
use troop_ports::*;

/// A first line that joins.
const JOIN: &[u8] = b"{\"call\":\"join\",\"lang\":\"lines\",\"name\":\"ann\"}\n";

/// The edit that changes nothing, without a number.
const EDIT: &[u8] = b"{\"call\":\"edit\",\"op\":[],\"seen\":0}\n";

/// A leave without a number.
const LEAVE: &[u8] = b"{\"call\":\"leave\"}\n";

fn bytes_of(alloc: Global, lines: &[&[u8]]) -> Result<Vec<u8>, AllocError> {
    let mut bytes = Vec::new(alloc);
    for line in lines {
        bytes.extend_from_slice(line)?;
    }
    Ok(bytes)
}

fn lengths_of(alloc: Global, lines: &[&[u8]]) -> Result<Vec<u64>, AllocError> {
    let mut lengths = Vec::new(alloc);
    for line in lines {
        lengths.push(line.len() as u64)?;
    }
    Ok(lengths)
}

fn open_link(alloc: Global, bytes: &[u8], pieces: &[u64]) -> Result<BytesLink, AllocError>
    ensures { IfOk result (λ link. link.is_closed ≡ false) }
{
    BytesLink::new(alloc, bytes, pieces, &[], 1 << 16, &[])
}

// So many links, each of which gives these bytes, in these pieces.
fn links(
    alloc: Global,
    count: u64,
    bytes: &[u8],
    pieces: &[u64],
) -> Result<Vec<BytesLink>, AllocError>
    ensures { IfOk result (λ links. All (λ link. link.is_closed ≡ false) links.items) }
{
    let mut links = Vec::new(alloc);
    for _ in 0..count {
        links.push(open_link(alloc, bytes, pieces)?)?;
    }
    Ok(links)
}

// A door with so many links, each of which gives these lines, one a read. The accepts of these numbers fail.
fn door_of(
    alloc: Global,
    count: u64,
    lines: &[&[u8]],
    fails: &[u64],
) -> Result<ListDoor<BytesLink>, AllocError> {
    let bytes = bytes_of(alloc, lines)?;
    let pieces = lengths_of(alloc, lines)?;
    ListDoor::new(alloc, links(alloc, count, &bytes, &pieces)?, fails)
}

// How many rows the log has in the end, or why there is none.
fn rows_served<D: Door + Send, G: Gate + Sync, R: Threads + Wait + Sync>(
    rt: &R,
    alloc: Global,
    door: &mut D,
    sessions: Option<u64>,
    gate: &G,
) -> Result<u64, ServeError>
where
    D::L: Drop + Send,
{
    match serve(rt, alloc, door, sessions, gate) {
        Ok(desk) => Ok(desk.length()),
        Err(error) => Err(error),
    }
}

/// What is played, and what must come of it.
struct Case {
    /// How many links the door has, each with a join.
    links: u64,
    /// Which accepts fail.
    fails: &'static [u64],
    /// How many links are asked for.
    sessions: Option<u64>,
    /// How many rows the log has, or that the door's fault ends it.
    rows: Result<u64, ServeError>,
    /// How many links came back.
    retired: usize,
}

const CASES: &[Case] = &[
    Case {
        links: 70,
        fails: &[],
        sessions: None,
        rows: Ok(140),
        retired: 70,
    },
    Case {
        links: 2,
        fails: &[],
        sessions: Some(1),
        rows: Ok(2),
        retired: 1,
    },
    Case {
        links: 1,
        fails: &[],
        sessions: Some(0),
        rows: Ok(0),
        retired: 0,
    },
    Case {
        links: 1,
        fails: &[],
        sessions: Some(5),
        rows: Ok(2),
        retired: 1,
    },
    Case {
        links: 2,
        fails: &[2],
        sessions: None,
        rows: Err(ServeError::DoorFault),
        retired: 1,
    },
];

// Whether the case comes to its rows, and its links came back.
fn comes_out<R: Threads + Wait + Sync>(
    rt: &R,
    alloc: Global,
    case: &Case,
) -> Result<bool, AllocError> {
    let mut door = door_of(alloc, case.links, &[JOIN], case.fails)?;
    let rows = rows_served(rt, alloc, &mut door, case.sessions, &NoGate);
    Ok(rows == case.rows && door.retired().len() == case.retired)
}

#[test]
fn a_server_ends_with_its_door_its_number_or_a_fault(rt: HostRuntime) -> Result<(), Fail> {
    for case in CASES {
        let is_so = comes_out(&rt, rt.alloc(), case)?;
        assert_eq!(rt;
            (case.links, case.sessions, is_so),
            (case.links, case.sessions, true)
        );
    }
    Ok(())
}

#[test]
fn sessions_run_side_by_side(rt: HostRuntime) -> Result<(), Fail> {
    let gate = Turnstile::new(1, 2);
    let mut door = door_of(rt.alloc(), 2, &[JOIN, EDIT], &[])?;
    let rows = rows_served(&rt, rt.alloc(), &mut door, None, &gate);
    assert_eq!(rt; (rows, gate.has_run_out()), (Ok(6), false));
    Ok(())
}

#[test]
fn the_door_is_asked_beside_the_sessions(rt: HostRuntime) -> Result<(), Fail> {
    let gate = Turnstile::new(0, 1);
    let mut door = LateDoor {
        inner: door_of(rt.alloc(), 2, &[JOIN], &[])?,
        gate: &gate,
        given: 0,
    };
    let rows = rows_served(&rt, rt.alloc(), &mut door, None, &gate);
    assert_eq!(rt; (rows, gate.has_run_out()), (Ok(4), false));
    Ok(())
}

// All that a link gives up to its end.
fn read_all<L: Link>(alloc: Global, link: &mut L) -> Result<Vec<u8>, Fail>
    requires { L.Source.closed link.old ≡ false }
{
    let mut all = Vec::new(alloc);
    let mut buf = [0; 64];
    for _ in 0..100 {
        match link.read(&mut buf) {
            Got::Bytes(count) => all.extend_from_slice(&buf[..count])?,
            Got::End => break,
            Got::Failed => return Err(Fail::new("a fault")),
        }
    }
    Ok(all)
}

// A performer joins over the link, and leaves.
fn asks<L: Link>(link: &mut L) -> bool
    requires { L.Sink.closed link.old ≡ false }
    ensures { L.Sink.closed link.new ≡ false }
{
    let join = write_all(link, JOIN);
    let leave = write_all(link, LEAVE);
    (join, leave) == (Written::All, Written::All)
}

/// What a performer is told that joins and leaves.
const REPLIES: &[u8] = b"{\"at\":0,\"who\":1}\n{\"at\":1,\"who\":1}\n";

fn is_told<L: Link>(alloc: Global, link: &mut L) -> Result<bool, Fail>
    requires { L.Source.closed link.old ≡ false }
{
    Ok(read_all(alloc, link)?.as_slice() == REPLIES)
}

#[test]
fn a_link_over_tcp_is_served_and_closed(rt: HostRuntime) -> Result<(), Fail> {
    let mut net = TcpNet::new(&rt);
    let Listening::Door(mut door) = net.listen("127.0.0.1:0") else {
        return Err(Fail::new("no door"));
    };
    let addr = format!(in rt.alloc(); "{}", door.local_addr()?)?;
    let Dialled::Link(mut near) = net.dial(addr.as_str()) else {
        return Err(Fail::new("no link"));
    };
    assert!(rt; asks(&mut near));
    assert_eq!(rt;
        rows_served(&rt, rt.alloc(), &mut door, Some(1), &NoGate),
        Ok(2)
    );
    assert!(rt; is_told(rt.alloc(), &mut near)?);
    net.retire(near);
    net.shut(door);
    Ok(())
}
