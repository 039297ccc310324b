//! A hall over a list of marks, asked by one thread.
ghost use Rattle.std.specs.Prelude.{◌≡◌, ◌-◌, ◌^◌, ◌++◌, ◌∷◌, [], IfOk};
ghost use Rattle.log_tests.specs.Rows.{IsSeatOfRows};

use seat_lock::{Hall, Played, SeatOf};
use std::alloc::{AllocError, Global};
use std::marker::Model;
use std::sync::Wait;
use std::test::Fail;

#[derive(Clone, Copy)]
struct Mark {
    seat: u64,
    amount: u64,
}

/// Keeps each amount but 0, and answers how many it had.
#[derive(Drop)]
struct Tally {
    marks: Vec<Mark>,
}

impl Model for Tally {
    ghost use Rattle.std.specs.Prelude.{List};
    ghost use Rattle.log_tests.specs.declared.locks.Mark.{Mark};

    ghost Value = { List Mark };

    ghost view = { λ tally. tally.marks.items };
}

impl Played for Tally {
    ghost use Rattle.std.specs.Prelude.{length, not, ◌==◌};
    ghost use Rattle.std.proofs.Common.{rules};

    type Ask = u64;

    type Reply = u64;

    type Row = Mark;

    type Fixed = ();

    ghost rows = { λ marks. marks };

    ghost fixed = { λ _. tt };

    ghost seat_of = { λ mark. mark.seat };

    ghost answer = { λ _ marks ask. length marks };

    ghost accepts = { λ _ marks ask. not (ask == 0) };

    ghost row_made = { λ _ marks seat ask. record { seat = seat; amount = ask } };

    ghost is_free = { λ ask. ask == 0 };

    ghost legal = { λ _ marks. Unit {0} };

    ghost carries_seat = { λ f xs seat ask. Prim.search rules };

    fn play(&mut self, seat: u64, ask: &u64) -> Result<u64, AllocError> {
        let count = self.marks.len() as u64;
        let amount = *ask;
        if amount != 0 {
            self.marks.push(Mark { seat, amount })?;
        }
        Ok(count)
    }

    fn length(&self) -> u64 {
        self.marks.len() as u64
    }
}

type TallySeat = SeatOf<Tally>;

fn new_hall(alloc: Global) -> Result<(Hall<Tally>, TallySeat), Fail>
    ensures { IfOk result (λ p. IsSeatOfRows p.0 p.1) }
{
    let marks = Vec::new(alloc);
    match Hall::new(alloc, Tally { marks }) {
        Ok(made) => Ok(made),
        Err(_) => Err("a hall".into()),
    }
}

fn further_seat(hall: &Hall<Tally>, first: &mut TallySeat) -> TallySeat
    requires { IsSeatOfRows hall.now first.old }
    ensures { IsSeatOfRows hall.now first.new × IsSeatOfRows hall.now result }
{
    hall.seat(first)
}

// Whether the ask is answered so.
fn is_told<R: Wait>(rt: &R, hall: &Hall<Tally>, seat: &mut TallySeat, ask: u64, reply: u64) -> bool
    requires { IsSeatOfRows hall.now seat.old }
    ensures { IsSeatOfRows hall.now seat.new }
{
    hall.call(rt, seat, &ask) == Ok(reply)
}

// What the other seat counts while this one has the turn.
fn counted_beside<R: Wait>(
    rt: &R,
    hall: &Hall<Tally>,
    seat: &mut TallySeat,
    mut other: TallySeat,
) -> (u64, TallySeat)
    requires { IsSeatOfRows hall.now seat.old × IsSeatOfRows hall.now other }
    ensures { IsSeatOfRows hall.now seat.new }
{
    hall.with(
        rt,
        seat,
        move |_: &Tally| -> (u64, TallySeat)
            requires { IsSeatOfRows hall.now other }
        {
            let count = hall.look(&mut other);
            (count, other)
        },
    )
}

// Two more marks are asked for, of which the last is none.
fn are_told<R: Wait>(
    rt: &R,
    hall: &Hall<Tally>,
    second: &mut TallySeat,
    third: &mut TallySeat,
) -> bool
    requires { IsSeatOfRows hall.now second.old × IsSeatOfRows hall.now third.old }
    ensures { IsSeatOfRows hall.now second.new × IsSeatOfRows hall.now third.new }
{
    let is_kept = is_told(rt, hall, third, 7, 1);
    is_told(rt, hall, second, 0, 2) && is_kept
}

// Both marks are counted, by the other seat too while the first has the turn. The other seat is dropped.
fn are_counted<R: Wait>(rt: &R, hall: &Hall<Tally>, first: &mut TallySeat, other: TallySeat) -> bool
    requires { IsSeatOfRows hall.now first.old × IsSeatOfRows hall.now other }
    ensures { IsSeatOfRows hall.now first.new }
{
    let (count, _) = counted_beside(rt, hall, first, other);
    hall.wait_past(rt, first, 1) == 2 && count == 2
}

fn close_with_both<R: Wait>(
    rt: &R,
    alloc: Global,
    hall: Hall<Tally>,
    first: TallySeat,
    third: TallySeat,
) -> Result<Tally, AllocError>
    requires { IsSeatOfRows hall first × IsSeatOfRows hall third }
{
    let mut seats = Vec::new(alloc);
    seats.push(third)?;
    seats.push(first)?;
    Ok(hall.close(rt, seats))
}

fn are_both(marks: &[Mark]) -> bool {
    match marks {
        [one, two] => (one.seat, one.amount, two.seat, two.amount) == (0, 5, 2, 7),
        _ => false,
    }
}

fn ends_with_both<R: Wait>(
    rt: &R,
    alloc: Global,
    hall: Hall<Tally>,
    first: TallySeat,
    third: TallySeat,
) -> Result<bool, AllocError>
    requires { IsSeatOfRows hall first × IsSeatOfRows hall third }
{
    let tally = close_with_both(rt, alloc, hall, first, third)?;
    Ok(are_both(tally.marks.as_slice()))
}

#[test]
fn seats_come_and_go(rt: HostRuntime) -> Result<(), Fail> {
    let (hall, mut first) = new_hall(rt.alloc())?;
    assert!(rt; is_told(&rt, &hall, &mut first, 5, 0));
    let mut second = further_seat(&hall, &mut first);
    let mut third = further_seat(&hall, &mut second);
    assert_eq!(rt;
        (first.number(), second.number(), third.number()),
        (0, 1, 2)
    );
    assert!(rt; are_told(&rt, &hall, &mut second, &mut third));
    assert!(rt; are_counted(&rt, &hall, &mut first, second));
    assert!(rt; ends_with_both(&rt, rt.alloc(), hall, first, third)?);
    Ok(())
}
