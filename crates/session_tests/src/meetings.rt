//! Two sessions side by side: a down line follows what an up line places.
ghost use Rattle.std.specs.Prelude.{◌≡◌, false};
ghost use Rattle.troop_hall.specs.Seats.{IsDeskSeat};

use crate::links::{Dialled, Reading, link_of, new_hall, serve};
use session::{SessionEnd, serve_link};
use std::alloc::Global;
use std::sync::Wait;
use std::test::Fail;
use std::thread::{Threads, join};
use troop_hall::{DeskHall, DeskSeat};
use troop_ports::BytesLink;

/// A performer that joins, and whose link is then lost.
const STAY: Dialled = Dialled {
    name: "stay",
    bytes: "{\"call\":\"stay\",\"lang\":\"lines\",\"name\":\"ann\"}\n",
    reading: Reading::Lines,
    written: "{\"at\":0,\"who\":1}\n",
    end: SessionEnd::Away,
};

/// What it asks for over a new link.
const UP: &str =
    "{\"call\":\"back\",\"who\":1}\n{\"call\":\"edit\",\"num\":1,\"op\":[\"hi\"],\"seen\":1}\n{\"call\":\"leave\",\"num\":2}\n";

/// Who follows it.
const DOWN: &str = "{\"call\":\"down\",\"from\":0,\"who\":1}\n";

/// What the follower is written.
const ENTRIES: &str =
    "{\"at\":0,\"deed\":\"join\",\"lang\":\"lines\",\"name\":\"ann\",\"seen\":0,\"who\":1}\n{\"at\":1,\"deed\":\"edit\",\"op\":[\"hi\"],\"seen\":1,\"who\":1}\n{\"at\":2,\"deed\":\"leave\",\"seen\":2,\"who\":1}\n";

// Serves a link through a seat, and hands both back.
fn serve_seat<R: Wait>(
    rt: &R,
    alloc: Global,
    hall: &DeskHall,
    mut seat: DeskSeat,
    mut link: BytesLink,
) -> (DeskSeat, BytesLink, SessionEnd)
    requires seat { IsDeskSeat hall.now seat }
    requires is_open { link.is_closed ≡ false }
{
    let end = serve_link(rt, alloc, hall, &mut seat, &mut link);
    (seat, link, end)
}

// Serves two links side by side, each through a seat of its own: whether both performers have left by then, and the follower was shown
// all entries.
fn follows<R: Threads + Wait + Sync>(
    rt: &R,
    alloc: Global,
    hall: &DeskHall,
    first: DeskSeat,
    second: DeskSeat,
    down: BytesLink,
    up: BytesLink,
) -> bool
    requires seats { IsDeskSeat hall.now first × IsDeskSeat hall.now second }
    requires are_open { (down.is_closed ≡ false) × (up.is_closed ≡ false) }
{
    let ((_first, down, down_end), (_second, _up, up_end)) = join(
        rt,
        || -> (DeskSeat, BytesLink, SessionEnd)
            requires { IsDeskSeat hall.now first × (down.is_closed ≡ false) }
        { serve_seat(rt, alloc, hall, first, down) },
        || -> (DeskSeat, BytesLink, SessionEnd)
            requires { IsDeskSeat hall.now second × (up.is_closed ≡ false) }
        { serve_seat(rt, alloc, hall, second, up) },
    );
    (down_end, up_end) == (SessionEnd::Left, SessionEnd::Left)
        && down.written() == ENTRIES.as_bytes()
}

#[test]
fn a_down_line_follows_an_up_line(rt: HostRuntime) -> Result<(), Fail> {
    let alloc = rt.alloc();
    let (hall, mut first) = new_hall(alloc)?;
    serve(&rt, alloc, &hall, &mut first, &STAY)?;
    let second = hall.seat(&mut first);
    let down = link_of(alloc, DOWN, Reading::Lines, 0)?;
    let up = link_of(alloc, UP, Reading::Lines, 0)?;
    let is_followed = follows(&rt, alloc, &hall, first, second, down, up);
    assert!(rt; is_followed);
    Ok(())
}
