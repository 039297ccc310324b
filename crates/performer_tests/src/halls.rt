//! A stage that several seats ask.
ghost use Rattle.performer_tests.specs.Seats.{IsSeatOfStage};

use crate::shape::Shape;
use seat_lock::{Hall, SeatOf};
use stage_state::{Act, ActReply, Next, Stage, growth_law};
use std::alloc::{AllocError, Global};
use std::sync::Wait;
use std::test::Fail;

/// What an act of a seat is answered.
#[derive(Clone, Copy)]
enum Told {
    Typed,
    SendsTheFirst,
    NotYet,
}

fn is_reply(reply: &ActReply, told: Told) -> bool {
    match (reply, told) {
        (ActReply::Typed(Ok(())), Told::Typed) => true,
        (ActReply::Next(Next::Send { num, .. }), Told::SendsTheFirst) => *num == 1,
        (ActReply::Next(Next::NotYet), Told::NotYet) => true,
        _ => false,
    }
}

fn is_told<R: Wait>(
    rt: &R,
    hall: &Hall<Stage>,
    seat: &mut SeatOf<Stage>,
    act: &Act,
    told: Told,
) -> bool
    requires { IsSeatOfStage hall.now seat.old }
    ensures { IsSeatOfStage hall.now seat.new }
{
    match hall.call(rt, seat, act) {
        Ok(reply) => is_reply(&reply, told),
        Err(_) => false,
    }
}

// What one seat types the other sends, and then there is nothing more to send.
fn act_in_turn<R: Wait>(
    rt: &R,
    hall: &Hall<Stage>,
    first: &mut SeatOf<Stage>,
    second: &mut SeatOf<Stage>,
    typing: &Act,
) -> bool
    requires { IsSeatOfStage hall.now first.old × IsSeatOfStage hall.now second.old }
    ensures { IsSeatOfStage hall.now first.new × IsSeatOfStage hall.now second.new }
{
    let is_typed = is_told(rt, hall, first, typing, Told::Typed);
    let is_sent = is_told(rt, hall, second, &Act::Next, Told::SendsTheFirst);
    let is_quiet = is_told(rt, hall, first, &Act::Next, Told::NotYet);
    is_typed && is_sent && is_quiet && hall.look(first) == 2
}

fn close_with_both<R: Wait>(
    rt: &R,
    alloc: Global,
    hall: Hall<Stage>,
    first: SeatOf<Stage>,
    second: SeatOf<Stage>,
) -> Result<Stage, AllocError>
    requires { IsSeatOfStage hall first × IsSeatOfStage hall second }
{
    let mut seats = Vec::new(alloc);
    seats.push(first)?;
    seats.push(second)?;
    Ok(hall.close(rt, seats))
}

#[test]
fn two_seats_act_at_one_stage(rt: HostRuntime) -> Result<(), Fail> {
    growth_law();
    let alloc = rt.alloc();
    let typing = Act::Typed(Shape(0, "a", 0).op(alloc)?);
    let Ok((hall, mut first)) = Hall::new(alloc, Stage::new(alloc, 1, 0)?) else {
        return Err("a hall".into());
    };
    let mut second = hall.seat(&mut first);
    assert!(rt; act_in_turn(&rt, &hall, &mut first, &mut second, &typing));
    let stage = close_with_both(&rt, alloc, hall, first, second)?;
    assert!(rt; matches!(stage.acts(), [Act::Typed(_), Act::Next]));
    Ok(())
}
