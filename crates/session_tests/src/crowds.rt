//! A log that takes no more joins.
ghost use Rattle.troop_hall.specs.Seats.{IsDeskSeat};

use crate::links::{Dialled, Reading, link_of, new_hall, serve};
use session::{SessionEnd, serve_link};
use std::alloc::{AllocError, Global};
use std::process::Abort;
use std::sync::Wait;
use std::test::Fail;
use troop_hall::{DeskHall, DeskSeat};

/// How many joins a log takes.
const MOST_JOINS: u64 = 4096;

const JOIN: &str = "{\"call\":\"join\",\"lang\":\"lines\",\"name\":\"ann\"}\n";

const ONE_TOO_MANY: Dialled = Dialled {
    name: "a join too many",
    bytes: JOIN,
    reading: Reading::Lines,
    written: "{\"joins\":4096,\"no\":\"crowded\"}\n",
    end: SessionEnd::Crowded,
};

const NOR_ONE_THAT_STAYS: Dialled = Dialled {
    name: "nor one that stays",
    bytes: "{\"call\":\"stay\",\"lang\":\"ghci\",\"name\":\"bo\"}\n",
    ..ONE_TOO_MANY
};

// Serves a link that joins and ends: whether its performer has left by then.
fn joins_and_leaves<R: Wait>(
    rt: &R,
    alloc: Global,
    hall: &DeskHall,
    seat: &mut DeskSeat,
) -> Result<bool, AllocError>
    requires { IsDeskSeat hall.now seat.old }
    ensures { IsDeskSeat hall.now seat.new }
{
    let mut link = link_of(alloc, JOIN, Reading::Lines, 0)?;
    Ok(serve_link(rt, alloc, hall, seat, &mut link) == SessionEnd::Left)
}

// Serves so many links, of which each joins and ends.
fn join_so_many<R: Wait + Abort>(
    rt: &R,
    alloc: Global,
    hall: &DeskHall,
    seat: &mut DeskSeat,
    joins: u64,
) -> Result<(), Fail>
    requires { IsDeskSeat hall.now seat.old }
    ensures { IsDeskSeat hall.now seat.new }
{
    for _ in 0..joins {
        let has_left = joins_and_leaves(rt, alloc, hall, seat)?;
        assert!(rt; has_left);
    }
    Ok(())
}

#[test]
fn a_full_log_takes_nobody(rt: HostRuntime) -> Result<(), Fail> {
    let alloc = rt.alloc();
    let (hall, mut seat) = new_hall(alloc)?;
    join_so_many(&rt, alloc, &hall, &mut seat, MOST_JOINS)?;
    serve(&rt, alloc, &hall, &mut seat, &ONE_TOO_MANY)?;
    serve(&rt, alloc, &hall, &mut seat, &NOR_ONE_THAT_STAYS)?;
    Ok(())
}
