//! Links in memory that are served by a hall.
ghost use Rattle.std.specs.Prelude.{◌≡◌, IfOk, false};
ghost use Rattle.troop_hall.specs.Seats.{IsDeskSeat};

use revision_log::Desk;
use session::{SessionEnd, serve_link};
use std::alloc::{AllocError, Global};
use std::process::Abort;
use std::sync::Wait;
use std::test::Fail;
use troop_hall::{DeskHall, DeskSeat};
use troop_ports::BytesLink;

/// How a link is read.
#[derive(Clone, Copy)]
pub enum Reading {
    /// One byte at a time.
    Bytes,
    /// One line at a time.
    Lines,
    /// One line at a time, and the read of this number fails.
    FailsAt(u64),
}

/// A link, and what its session has to come to.
#[derive(Clone, Copy)]
pub struct Dialled {
    /// What it shows.
    pub name: &'static str,
    /// Its bytes.
    pub bytes: &'static str,
    /// How they are read.
    pub reading: Reading,
    /// What is written on it.
    pub written: &'static str,
    /// How the session ends.
    pub end: SessionEnd,
}

/// How much a link takes.
pub const ROOM: u64 = 10000;

// The lengths of the pieces that these bytes are read in.
fn pieces_of(alloc: Global, bytes: &str, reading: Reading) -> Result<Vec<u64>, AllocError> {
    let mut pieces = Vec::new(alloc);
    match reading {
        Reading::Bytes => {
            for _byte in bytes.as_bytes() {
                pieces.push(1)?;
            }
        }
        Reading::Lines | Reading::FailsAt(_) => {
            for line in bytes.split_inclusive('\n') {
                pieces.push(line.len() as u64)?;
            }
        }
    }
    Ok(pieces)
}

/// An open link in memory of these bytes, of which one write may fail; 0 is none.
pub fn link_of(
    alloc: Global,
    bytes: &str,
    reading: Reading,
    failing_write: u64,
) -> Result<BytesLink, AllocError>
    ensures { IfOk result (λ link. link.is_closed ≡ false) }
{
    let pieces = pieces_of(alloc, bytes, reading)?;
    let failing_read = match reading {
        Reading::FailsAt(number) => number,
        Reading::Bytes | Reading::Lines => 0,
    };
    BytesLink::new(
        alloc,
        bytes.as_bytes(),
        &pieces,
        &[failing_read],
        ROOM,
        &[failing_write],
    )
}

/// A hall over an empty log, and its first seat.
pub fn new_hall(alloc: Global) -> Result<(DeskHall, DeskSeat), Fail>
    ensures { IfOk result (λ p. IsDeskSeat p.0 p.1) }
{
    match DeskHall::new(alloc, Desk::new(alloc)) {
        Ok(made) => Ok(made),
        Err(_) => Err("a hall".into()),
    }
}

/// Serves a link: whether these bytes were written on it, and its session ended so.
pub fn comes_to<R: Wait>(
    rt: &R,
    alloc: Global,
    hall: &DeskHall,
    seat: &mut DeskSeat,
    link: &mut BytesLink,
    written: &str,
    end: SessionEnd,
) -> bool
    requires seat { IsDeskSeat hall.now seat.old }
    requires is_open { link.old.is_closed ≡ false }
    ensures { IsDeskSeat hall.now seat.new }
{
    let ended = serve_link(rt, alloc, hall, seat, link);
    ended == end && link.written() == written.as_bytes()
}

/// Serves the link, and looks at what was written on it and how its session ended.
pub fn serve<R: Wait + Abort>(
    rt: &R,
    alloc: Global,
    hall: &DeskHall,
    seat: &mut DeskSeat,
    dialled: &Dialled,
) -> Result<(), Fail>
    requires { IsDeskSeat hall.now seat.old }
    ensures { IsDeskSeat hall.now seat.new }
{
    let mut link = link_of(alloc, dialled.bytes, dialled.reading, 0)?;
    let is_so = comes_to(
        rt,
        alloc,
        hall,
        seat,
        &mut link,
        dialled.written,
        dialled.end,
    );
    assert_eq!(rt; (dialled.name, is_so), (dialled.name, true));
    Ok(())
}
