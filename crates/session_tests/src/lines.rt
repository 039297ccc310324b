//! Up lines and down lines by themselves, as a caller serves them who has read a link's first line.
ghost use Rattle.troop_hall.specs.Seats.{IsDeskSeat};

use crate::links::{Reading, link_of, new_hall};
use ot_text::Text;
use session::{Opening, SessionEnd, serve_down, serve_snap, serve_up};
use std::alloc::{AllocError, Global};
use std::sync::Wait;
use std::test::Fail;
use troop_entry::Lang;
use troop_hall::{DeskHall, DeskSeat};
use wire_lines::LineReader;

// An up line of Ann's that leaves: whether its two calls were placed.
fn is_served_up<R: Wait>(
    rt: &R,
    alloc: Global,
    hall: &DeskHall,
    seat: &mut DeskSeat,
) -> Result<bool, AllocError>
    requires { IsDeskSeat hall.now seat.old }
    ensures { IsDeskSeat hall.now seat.new }
{
    let opening = Opening::Stay {
        name: Text::of(alloc, "ann")?,
        lang: Lang::Lines,
    };
    let mut up = link_of(alloc, "{\"call\":\"leave\"}\n", Reading::Lines, 0)?;
    let mut reader = LineReader::new(alloc, 1048576);
    let end = serve_up(rt, alloc, hall, seat, &mut up, &mut reader, opening);
    let written = "{\"at\":0,\"who\":1}\n{\"at\":1,\"who\":1}\n".as_bytes();
    Ok(end == SessionEnd::Left && up.written() == written)
}

// A down line from the leave on: whether it shows just this.
fn is_served_down<R: Wait>(
    rt: &R,
    alloc: Global,
    hall: &DeskHall,
    seat: &mut DeskSeat,
) -> Result<bool, AllocError>
    requires { IsDeskSeat hall.now seat.old }
    ensures { IsDeskSeat hall.now seat.new }
{
    let mut down = link_of(alloc, "", Reading::Lines, 0)?;
    let end = serve_down(rt, alloc, hall, seat, &mut down, 1, 1);
    let written = "{\"at\":1,\"deed\":\"leave\",\"seen\":1,\"who\":1}\n".as_bytes();
    Ok(end == SessionEnd::Left && down.written() == written)
}

// A snapshot for nobody: whether it is refused.
fn is_refused_a_snapshot<R: Wait>(
    rt: &R,
    alloc: Global,
    hall: &DeskHall,
    seat: &mut DeskSeat,
) -> Result<bool, AllocError>
    requires { IsDeskSeat hall.now seat.old }
    ensures { IsDeskSeat hall.now seat.new }
{
    let mut snap = link_of(alloc, "", Reading::Lines, 0)?;
    let end = serve_snap(rt, alloc, hall, seat, &mut snap, 2);
    let written = "{\"line\":1,\"no\":\"unfit\"}\n".as_bytes();
    Ok(end == SessionEnd::Unfit { line: 1 } && snap.written() == written)
}

#[test]
fn lines_by_themselves(rt: HostRuntime) -> Result<(), Fail> {
    let alloc = rt.alloc();
    let (hall, mut seat) = new_hall(alloc)?;
    let up = is_served_up(&rt, alloc, &hall, &mut seat)?;
    let down = is_served_down(&rt, alloc, &hall, &mut seat)?;
    let snap = is_refused_a_snapshot(&rt, alloc, &hall, &mut seat)?;
    assert_eq!(rt; (up, down, snap), (true, true, true));
    Ok(())
}
