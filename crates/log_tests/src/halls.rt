//! A desk that two threads ask, and one whose seats come and go.
ghost use Rattle.std.specs.Prelude.{IfOk};
ghost use Rattle.troop_hall.specs.Seats.{IsDeskSeat};

use ot_text::Text;
use revision_log::{Ask, Desk};
use std::alloc::{AllocError, Global};
use std::process::Abort;
use std::sync::Wait;
use std::test::Fail;
use std::thread::{Threads, join};
use troop_entry::{Call, Lang, Reply};
use troop_hall::{DeskHall, DeskSeat, Known};

/// How many evaluations each thread asks for.
const EVALUATIONS: u64 = 1000;

fn joining(alloc: Global, name: &str) -> Result<Ask, AllocError> {
    let call = Call::Join {
        name: Text::of(alloc, name)?,
        lang: Lang::Lines,
    };
    Ok(Ask {
        who: 0,
        num: 0,
        call,
    })
}

fn evaluating(alloc: Global, who: u32, num: u64) -> Result<Ask, AllocError> {
    let call = Call::Eval {
        seen: 0,
        text: Text::of(alloc, "hush")?,
    };
    Ok(Ask { who, num, call })
}

fn new_hall(alloc: Global) -> Result<(DeskHall, DeskSeat), Fail>
    ensures { IfOk result (λ p. IsDeskSeat p.0 p.1) }
{
    match DeskHall::new(alloc, Desk::new(alloc)) {
        Ok(made) => Ok(made),
        Err(_) => Err("a hall".into()),
    }
}

fn further_seat(hall: &DeskHall, first: &mut DeskSeat) -> DeskSeat
    requires { IsDeskSeat hall.now first.old }
    ensures { IsDeskSeat hall.now first.new × IsDeskSeat hall.now result }
{
    hall.seat(first)
}

// Whether the ask is answered so.
fn is_told<R: Wait>(rt: &R, hall: &DeskHall, seat: &mut DeskSeat, ask: &Ask, reply: Reply) -> bool
    requires { IsDeskSeat hall.now seat.old }
    ensures { IsDeskSeat hall.now seat.new }
{
    hall.call(rt, seat, ask) == Ok(reply)
}

fn is_placed<R: Wait>(rt: &R, hall: &DeskHall, seat: &mut DeskSeat, ask: &Ask) -> bool
    requires { IsDeskSeat hall.now seat.old }
    ensures { IsDeskSeat hall.now seat.new }
{
    matches!(hall.call(rt, seat, ask), Ok(Reply::Placed { .. }))
}

// Asks so many times, and counts what is placed.
fn ask_often<R: Wait>(rt: &R, hall: &DeskHall, mut seat: DeskSeat, ask: &Ask) -> (DeskSeat, u64)
    requires { IsDeskSeat hall.now seat }
    ensures { IsDeskSeat hall.now result.0 }
{
    let mut placed = 0u64;
    for _ in 0..EVALUATIONS {
        if is_placed(rt, hall, &mut seat, ask) {
            placed = placed.saturating_add(1);
        }
    }
    (seat, placed)
}

// Two threads ask, each through a seat of its own.
fn ask_side_by_side<R: Threads + Wait + Sync>(
    rt: &R,
    hall: &DeskHall,
    first: DeskSeat,
    second: DeskSeat,
    ann: &Ask,
    bo: &Ask,
) -> ((DeskSeat, u64), (DeskSeat, u64))
    requires { IsDeskSeat hall.now first × IsDeskSeat hall.now second }
    ensures { IsDeskSeat hall.now result.0.0 × IsDeskSeat hall.now result.1.0 }
{
    join(
        rt,
        || -> (DeskSeat, u64)
            requires { IsDeskSeat hall.now first }
            ensures { IsDeskSeat hall.entry.now result.0 }
        { ask_often(rt, hall, first, ann) },
        || -> (DeskSeat, u64)
            requires { IsDeskSeat hall.now second }
            ensures { IsDeskSeat hall.entry.now result.0 }
        { ask_often(rt, hall, second, bo) },
    )
}

fn close_with_both<R: Wait>(
    rt: &R,
    alloc: Global,
    hall: DeskHall,
    first: DeskSeat,
    second: DeskSeat,
) -> Result<Desk, AllocError>
    requires { IsDeskSeat hall first × IsDeskSeat hall second }
{
    let mut seats = Vec::new(alloc);
    seats.push(first)?;
    seats.push(second)?;
    Ok(hall.close(rt, seats))
}

// How much each thread places, and how many rows the log has in the end.
fn count_side_by_side<R: Threads + Wait + Sync>(
    rt: &R,
    alloc: Global,
    hall: DeskHall,
    first: DeskSeat,
    second: DeskSeat,
    ann: &Ask,
    bo: &Ask,
) -> Result<(u64, u64, u64), AllocError>
    requires { IsDeskSeat hall first × IsDeskSeat hall second }
{
    let ((first, by_ann), (second, by_bo)) = ask_side_by_side(rt, &hall, first, second, ann, bo);
    let desk = close_with_both(rt, alloc, hall, first, second)?;
    Ok((by_ann, by_bo, desk.length()))
}

fn are_placed<R: Wait>(rt: &R, hall: &DeskHall, seat: &mut DeskSeat, ann: &Ask, bo: &Ask) -> bool
    requires { IsDeskSeat hall.now seat.old }
    ensures { IsDeskSeat hall.now seat.new }
{
    let is_ann = is_told(rt, hall, seat, ann, Reply::Placed { at: 0, who: 1 });
    let is_bo = is_told(rt, hall, seat, bo, Reply::Placed { at: 1, who: 2 });
    is_ann && is_bo
}

// Ann and Bo join, in this order.
fn have_joined<R: Wait>(
    rt: &R,
    alloc: Global,
    hall: &DeskHall,
    seat: &mut DeskSeat,
) -> Result<bool, AllocError>
    requires { IsDeskSeat hall.now seat.old }
    ensures { IsDeskSeat hall.now seat.new }
{
    let ann = joining(alloc, "ann")?;
    let bo = joining(alloc, "bo")?;
    Ok(are_placed(rt, hall, seat, &ann, &bo))
}

fn place_each_once<R: Threads + Wait + Sync + Abort>(
    rt: &R,
    alloc: Global,
    ann: &Ask,
    bo: &Ask,
) -> Result<(), Fail> {
    let (hall, mut first) = new_hall(alloc)?;
    assert!(rt; have_joined(rt, alloc, &hall, &mut first)?);
    let second = further_seat(&hall, &mut first);
    let counts = count_side_by_side(rt, alloc, hall, first, second, ann, bo)?;
    assert_eq!(rt; counts, (EVALUATIONS, EVALUATIONS, 2002));
    Ok(())
}

#[test]
fn two_threads_place_each_call_once(rt: HostRuntime) -> Result<(), Fail> {
    let ann = evaluating(rt.alloc(), 1, 0)?;
    let bo = evaluating(rt.alloc(), 2, 0)?;
    place_each_once(&rt, rt.alloc(), &ann, &bo)
}

// How many entries came, once there was one.
fn wait_for_one<R: Wait>(rt: &R, hall: &DeskHall, mut seat: DeskSeat) -> (DeskSeat, usize)
    requires { IsDeskSeat hall.now seat }
    ensures { IsDeskSeat hall.now result.0 }
{
    let count = match hall.wait_past(rt, &mut seat, 0) {
        Ok(entries) => entries.len(),
        Err(_) => 0,
    };
    (seat, count)
}

fn ask_once<R: Wait>(rt: &R, hall: &DeskHall, mut seat: DeskSeat, ask: &Ask) -> (DeskSeat, bool)
    requires { IsDeskSeat hall.now seat }
    ensures { IsDeskSeat hall.now result.0 }
{
    let is_placed = is_told(rt, hall, &mut seat, ask, Reply::Placed { at: 0, who: 1 });
    (seat, is_placed)
}

// One thread waits for a row, and the other places it.
fn wait_beside<R: Threads + Wait + Sync>(
    rt: &R,
    hall: &DeskHall,
    first: DeskSeat,
    second: DeskSeat,
    ask: &Ask,
) -> ((DeskSeat, usize), (DeskSeat, bool))
    requires { IsDeskSeat hall.now first × IsDeskSeat hall.now second }
    ensures { IsDeskSeat hall.now result.0.0 × IsDeskSeat hall.now result.1.0 }
{
    join(
        rt,
        || -> (DeskSeat, usize)
            requires { IsDeskSeat hall.now first }
            ensures { IsDeskSeat hall.entry.now result.0 }
        { wait_for_one(rt, hall, first) },
        || -> (DeskSeat, bool)
            requires { IsDeskSeat hall.now second }
            ensures { IsDeskSeat hall.entry.now result.0 }
        { ask_once(rt, hall, second, ask) },
    )
}

#[test]
fn a_row_wakes_who_waits_for_it(rt: HostRuntime) -> Result<(), Fail> {
    let alloc = rt.alloc();
    let (ann, again) = (joining(alloc, "ann")?, evaluating(alloc, 1, 1)?);
    let (hall, mut first) = new_hall(alloc)?;
    let second = further_seat(&hall, &mut first);
    let ((mut first, count), (mut second, is_placed)) = wait_beside(
        &rt, &hall, first, second, &ann,
    );
    assert!(rt; count == 1 && is_placed);
    assert!(rt; is_kept(&rt, &hall, &mut first, &mut second, &again));
    assert!(rt; has_left(&rt, &hall, &mut first, &mut second));
    assert!(rt; is_leave_told(&rt, &hall, &mut second)?);
    Ok(())
}

// A call that was placed through one seat is asked again through another.
fn is_kept<R: Wait>(
    rt: &R,
    hall: &DeskHall,
    first: &mut DeskSeat,
    second: &mut DeskSeat,
    ask: &Ask,
) -> bool
    requires { IsDeskSeat hall.now first.old × IsDeskSeat hall.now second.old }
    ensures { IsDeskSeat hall.now first.new × IsDeskSeat hall.now second.new }
{
    let is_placed = is_told(rt, hall, first, ask, Reply::Placed { at: 1, who: 1 });
    let is_kept = is_told(rt, hall, second, ask, Reply::Kept { at: 1, who: 1 });
    is_placed && is_kept
}

fn is_known<R: Wait>(rt: &R, hall: &DeskHall, seat: &mut DeskSeat) -> bool
    requires { IsDeskSeat hall.now seat.old }
    ensures { IsDeskSeat hall.now seat.new }
{
    let known = hall.known(rt, seat, 1);
    let is_so = known
        == Known {
            joined: true,
            left: Some(2),
            length: 3,
        };
    is_so && hall.join_of(rt, seat, 1) == Some(0)
}

// The performer leaves through one seat, and the other knows of it.
fn has_left<R: Wait>(rt: &R, hall: &DeskHall, first: &mut DeskSeat, second: &mut DeskSeat) -> bool
    requires { IsDeskSeat hall.now first.old × IsDeskSeat hall.now second.old }
    ensures { IsDeskSeat hall.now first.new × IsDeskSeat hall.now second.new }
{
    let reply = hall.leave(rt, second, 1);
    is_known(rt, hall, first) && reply == Reply::Placed { at: 2, who: 1 }
}

fn is_leave_told<R: Wait>(rt: &R, hall: &DeskHall, seat: &mut DeskSeat) -> Result<bool, AllocError>
    requires { IsDeskSeat hall.now seat.old }
{
    let length = hall.look(seat);
    let entries = hall.entries(rt, seat, 2)?;
    Ok(length == 3 && entries.len() == 1 && entries[0].at == 2)
}
