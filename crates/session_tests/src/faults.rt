//! Links that are lost, lines at the limit, and lines over it.
ghost use Rattle.troop_hall.specs.Seats.{IsDeskSeat};

use crate::links::{ROOM, Reading, comes_to, link_of, new_hall};
use session::{SessionEnd, serve_link};
use std::alloc::{AllocError, Global};
use std::process::Abort;
use std::sync::Wait;
use std::test::Fail;
use troop_hall::{DeskHall, DeskSeat};
use troop_ports::BytesLink;

/// The lines of an up line: a join, a line that is no request, and an edit.
const LINES: &str =
    "{\"call\":\"join\",\"lang\":\"lines\",\"name\":\"ann\"}\n{\"call\":\"edit\"}\n{\"call\":\"edit\",\"op\":[\"hi\"],\"seen\":1}\n";

/// The failing read and write of a link, of which one is none, and how many rows the log then has.
const LOST: &[(u64, u64, u64)] = &[
    (1, 0, 0),
    (2, 0, 2),
    (3, 0, 2),
    (4, 0, 3),
    (0, 1, 2),
    (0, 2, 2),
    (0, 3, 3),
];

// Serves a link whose reads and writes fail so, to its fault. How many rows the log then has, the last of which is the leave of the one
// performer; or none.
fn rows_left<R: Wait>(
    rt: &R,
    alloc: Global,
    failing_read: u64,
    failing_write: u64,
) -> Result<Option<u64>, Fail> {
    let (hall, mut seat) = new_hall(alloc)?;
    let mut link = link_of(alloc, LINES, Reading::FailsAt(failing_read), failing_write)?;
    let end = serve_link(rt, alloc, &hall, &mut seat, &mut link);
    let known = hall.known(rt, &mut seat, 1);
    let is_lost = end == SessionEnd::LinkFault && known.left == known.length.checked_sub(1);
    Ok(is_lost.then_some(known.length))
}

#[test]
fn who_loses_its_link_leaves(rt: HostRuntime) -> Result<(), Fail> {
    let alloc = rt.alloc();
    for (failing_read, failing_write, rows) in LOST {
        assert_eq!(rt;
            rows_left(&rt, alloc, *failing_read, *failing_write)?,
            Some(*rows)
        );
    }
    Ok(())
}

/// How many bytes a line may have.
const LIMIT: usize = 1_048_576;

/// What stands in front of a line that is one byte too long, what its session writes, and how it ends.
const TOO_LONG: &[(&str, &str, SessionEnd)] = &[
    (
        "",
        "{\"line\":1,\"no\":\"long\"}\n",
        SessionEnd::Long { line: 1 },
    ),
    (
        "{\"call\":\"join\",\"lang\":\"lines\",\"name\":\"ann\"}\n",
        "{\"at\":0,\"who\":1}\n{\"line\":2,\"no\":\"long\"}\n",
        SessionEnd::Long { line: 2 },
    ),
];

// These bytes, and behind them a line that is one byte too long.
fn with_long_line(alloc: Global, front: &str) -> Result<Vec<u8>, AllocError> {
    let mut bytes = Vec::from_slice(alloc, front.as_bytes())?;
    bytes.resize(front.len() + LIMIT + 1, b'x')?;
    Ok(bytes)
}

// Serves a link of these bytes and a line that is one byte too long: whether it wrote this, and ended so.
fn is_too_long<R: Wait>(
    rt: &R,
    alloc: Global,
    hall: &DeskHall,
    seat: &mut DeskSeat,
    row: &(&str, &str, SessionEnd),
) -> Result<bool, AllocError>
    requires { IsDeskSeat hall.now seat.old }
    ensures { IsDeskSeat hall.now seat.new }
{
    let bytes = with_long_line(alloc, row.0)?;
    let mut link = BytesLink::new(alloc, &bytes, &[], &[], ROOM, &[])?;
    Ok(comes_to(rt, alloc, hall, seat, &mut link, row.1, row.2))
}

// Serves a link for each row.
fn serve_too_long<R: Wait + Abort>(
    rt: &R,
    alloc: Global,
    hall: &DeskHall,
    seat: &mut DeskSeat,
) -> Result<(), Fail>
    requires { IsDeskSeat hall.now seat.old }
    ensures { IsDeskSeat hall.now seat.new }
{
    for row in TOO_LONG {
        let is_so = is_too_long(rt, alloc, hall, seat, row)?;
        assert_eq!(rt; (row.0, is_so), (row.0, true));
    }
    Ok(())
}

#[test]
fn a_line_over_the_limit_ends_a_session(rt: HostRuntime) -> Result<(), Fail> {
    let alloc = rt.alloc();
    let (hall, mut seat) = new_hall(alloc)?;
    serve_too_long(&rt, alloc, &hall, &mut seat)?;
    assert_eq!(rt; hall.known(&rt, &mut seat, 1).left, Some(1));
    Ok(())
}

/// A join, a line that is no request, and a leave.
const SHORT: &[&[u8]] = &[
    b"{\"call\":\"join\",\"lang\":\"lines\",\"name\":\"ann\"}",
    b"x",
    b"{\"call\":\"leave\"}",
];

// These lines, each with so many spaces behind it that it is as long as a line may be.
fn padded(alloc: Global, lines: &[&[u8]]) -> Result<Vec<u8>, AllocError> {
    let mut bytes = Vec::new(alloc);
    for line in lines {
        let mut long = Vec::from_slice(alloc, line)?;
        long.resize(LIMIT, b' ')?;
        bytes.extend_from_slice(&long)?;
        bytes.push(b'\n')?;
    }
    Ok(bytes)
}

#[test]
fn lines_at_the_limit_are_read(rt: HostRuntime) -> Result<(), Fail> {
    let alloc = rt.alloc();
    let (hall, mut seat) = new_hall(alloc)?;
    let bytes = padded(alloc, SHORT)?;
    let mut link = BytesLink::new(alloc, &bytes, &[], &[], ROOM, &[])?;
    let written = "{\"at\":0,\"who\":1}\n{\"line\":2,\"no\":\"bad\"}\n{\"at\":1,\"who\":1}\n";
    let is_so = comes_to(
        &rt,
        alloc,
        &hall,
        &mut seat,
        &mut link,
        written,
        SessionEnd::Left,
    );
    assert!(rt; is_so);
    Ok(())
}
