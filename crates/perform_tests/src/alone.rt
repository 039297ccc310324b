//! The activities one after the other, on one thread: nothing waits for anybody.
ghost use Rattle.std.specs.Prelude.{◌≡◌, [], false, IfOk};
ghost use Rattle.activities.specs.Memory.{IsStageSeat, origin_at};
ghost use Rattle.block_queue.specs.Values.{IsEndOf};

use activities::{
    Flow, Placing, StageSeat, drive, print_performer, send_call, send_up, take_down, type_commands,
};
use block_queue::{Feeder, Queue, Taker};
use child_driver::Driver;
use ot_text::Text;
use performer::PerformError;
use pipe_ports::ScriptHatch;
use seat_lock::Hall;
use stage_state::Stage;
use std::alloc::{AllocError, Global};
use std::sync::Wait;
use std::test::Fail;
use troop_entry::{Call, Lang};
use troop_ports::{BytesLink, BytesSink, CalmSource};
use wire_lines::LineReader;

const JOIN: &str = "{\"call\":\"join\",\"lang\":\"lines\",\"name\":\"ann\"}\n";

const COMMANDS: &str = "[\"reset\",\"d1\"]\n[\"eval\",0]\n\n[\"show\"]\n[\"leave\"]\n[\"show\"]\n";

const PRINTED: &str =
    "{\"no\":\"blank\",\"place\":0}\n{\"awaits\":0,\"marks\":[],\"name\":\"ann\",\"taken\":0,\"text\":\"\",\"who\":1}\n";

const REPLIES: &str = "{\"at\":1,\"who\":1}\n{\"at\":2,\"who\":1}\n";

const REQUESTS: &str =
    "{\"call\":\"reset\",\"num\":1,\"seen\":0,\"text\":\"d1\"}\n{\"call\":\"leave\",\"num\":2}\n";

const ENTRIES: &str =
    "{\"at\":0,\"deed\":\"join\",\"lang\":\"lines\",\"name\":\"ann\",\"seen\":0,\"who\":1}\n{\"at\":1,\"deed\":\"eval\",\"seen\":1,\"text\":\"d1\",\"who\":2}\n{\"at\":2,\"deed\":\"leave\",\"seen\":2,\"who\":1}\n";

// Sends the call over the link: whether it was placed as the join of performer 1, and this was written.
fn joins(alloc: Global, link: &mut BytesLink, join: Call) -> bool
    requires { link.old.is_closed ≡ false }
{
    let mut reader = LineReader::new(alloc, 1_048_576);
    let placing = send_call(alloc, &mut reader, link, 0, join, 1);
    placing == Ok(Placing { at: 0, who: 1 }) && link.written() == JOIN.as_bytes()
}

#[test]
fn join_is_placed(rt: HostRuntime) -> Result<(), Fail> {
    let alloc = rt.alloc();
    let join = Call::Join {
        name: Text::of(alloc, "ann")?,
        lang: Lang::Lines,
    };
    let mut link = BytesLink::new(alloc, b"{\"at\":0,\"who\":1}\n", &[], &[], 1000, &[])?;
    assert!(rt; joins(alloc, &mut link, join));
    Ok(())
}

// A hall over the stage of performer 1, and its first seat.
fn new_hall(alloc: Global) -> Result<(Hall<Stage>, StageSeat), Fail>
    ensures seat { IfOk result (λ p. IsStageSeat p.0 p.1 × (p.1.seen ≡ []) × (p.1.own ≡ [])) }
    ensures own { IfOk result (λ p. (origin_at p.0).own ≡ 1) }
{
    match Hall::new(alloc, Stage::new(alloc, 1, 0)?) {
        Ok(made) => Ok(made),
        Err(_) => Err("a hall".into()),
    }
}

// Does the commands: whether they ended, and printed this.
fn is_typed<R: Wait>(
    rt: &R,
    alloc: Global,
    hall: &Hall<Stage>,
    seat: &mut StageSeat,
    name: &Text,
    commands: &mut CalmSource,
    out: &mut BytesSink,
) -> bool
    requires { IsStageSeat hall.now seat.old × (seat.old.seen ≡ []) × (seat.old.own ≡ []) }
{
    let mut reader = LineReader::new(alloc, 1_048_576);
    let typed = type_commands(rt, alloc, hall, seat, 1, name, &mut reader, commands, out);
    typed == Ok(Flow::Ended) && out.bytes() == PRINTED.as_bytes()
}

// Does Ann's commands: whether they ended, and printed what they should.
fn types<R: Wait>(
    rt: &R,
    alloc: Global,
    hall: &Hall<Stage>,
    seat: &mut StageSeat,
) -> Result<bool, AllocError>
    requires { IsStageSeat hall.now seat.old × (seat.old.seen ≡ []) × (seat.old.own ≡ []) }
{
    let name = Text::of(alloc, "ann")?;
    let mut commands = CalmSource::new(alloc, COMMANDS.as_bytes())?;
    let mut out = BytesSink::new(alloc, 1000, &[])?;
    Ok(is_typed(rt, alloc, hall, seat, &name, &mut commands, &mut out))
}

// Sends what goes out: whether there was no error, and this was written.
fn is_sent<R: Wait>(
    rt: &R,
    alloc: Global,
    hall: &Hall<Stage>,
    seat: &mut StageSeat,
    link: &mut BytesLink,
) -> bool
    requires seat { IsStageSeat hall.now seat.old × (seat.old.seen ≡ []) × (seat.old.own ≡ []) }
    requires is_open { link.old.is_closed ≡ false }
{
    let mut reader = LineReader::new(alloc, 1_048_576);
    let end = send_up(rt, alloc, hall, seat, &mut reader, link);
    end == None && link.written() == REQUESTS.as_bytes()
}

// Sends what goes out over a link with replies: whether it is what it should be.
fn sends<R: Wait>(
    rt: &R,
    alloc: Global,
    hall: &Hall<Stage>,
    seat: &mut StageSeat,
) -> Result<bool, AllocError>
    requires { IsStageSeat hall.now seat.old × (seat.old.seen ≡ []) × (seat.old.own ≡ []) }
{
    let mut up = BytesLink::new(alloc, REPLIES.as_bytes(), &[], &[], 1000, &[])?;
    Ok(is_sent(rt, alloc, hall, seat, &mut up))
}

#[test]
fn what_is_typed_goes_out(rt: HostRuntime) -> Result<(), Fail> {
    let alloc = rt.alloc();
    let (hall, mut first) = new_hall(alloc)?;
    let mut second = hall.seat(&mut first);
    let typed = types(&rt, alloc, &hall, &mut first)?;
    let sent = sends(&rt, alloc, &hall, &mut second)?;
    assert_eq!(rt; (typed, sent), (true, true));
    Ok(())
}

// Takes what the link tells: how that ends.
fn end_of_down<R: Wait>(
    rt: &R,
    alloc: Global,
    hall: &Hall<Stage>,
    seat: &mut StageSeat,
    link: &mut BytesLink,
    queue: &Queue,
    feeder: &mut Feeder,
) -> Option<PerformError>
    requires seat { IsStageSeat hall.now seat.old × ((origin_at hall.now).own ≡ 1) }
    requires is_open { link.old.is_closed ≡ false }
    requires queue { IsEndOf queue.now feeder.old }
{
    let mut reader = LineReader::new(alloc, 1_073_741_824);
    take_down(rt, alloc, hall, seat, 1, &mut reader, link, queue, feeder)
}

// Takes the entries of a link: how that ends.
fn takes<R: Wait>(
    rt: &R,
    alloc: Global,
    queue: &Queue,
    feeder: &mut Feeder,
) -> Result<Option<PerformError>, Fail>
    requires { IsEndOf queue.now feeder.old }
{
    let mut down = BytesLink::new(alloc, ENTRIES.as_bytes(), &[], &[], 0, &[])?;
    let (hall, mut first) = new_hall(alloc)?;
    Ok(end_of_down(rt, alloc, &hall, &mut first, &mut down, queue, feeder))
}

// Feeds the driver what comes through the queue: whether memory was enough, and it then has had one life.
fn is_fed<R: Wait>(
    rt: &R,
    queue: &Queue,
    taker: &mut Taker,
    driver: &mut Driver<ScriptHatch>,
) -> bool
    requires queue { IsEndOf queue.now taker.old }
    requires is_open { driver.old.closed ≡ false }
{
    let is_starved = drive(rt, queue, taker, driver);
    !is_starved && driver.lives() == 1
}

// Feeds a driver what comes through the queue: whether memory was enough, and it then has had one life.
fn feeds<R: Wait>(
    rt: &R,
    alloc: Global,
    queue: &Queue,
    taker: &mut Taker,
) -> Result<bool, AllocError>
    requires { IsEndOf queue.now taker.old }
{
    let hatch = ScriptHatch::new(alloc)?;
    let mut driver = Driver::new(alloc, Lang::Lines, Vec::new(alloc), hatch);
    Ok(is_fed(rt, queue, taker, &mut driver))
}

#[test]
fn what_is_told_is_taken_and_fed(rt: HostRuntime) -> Result<(), Fail> {
    let alloc = rt.alloc();
    let (queue, mut feeder, mut taker) = Queue::new(alloc, 2)?;
    let end = takes(&rt, alloc, &queue, &mut feeder)?;
    let is_fed = feeds(&rt, alloc, &queue, &mut taker)?;
    assert_eq!(rt; end, Some(PerformError::Dropped { at: 2 }));
    assert!(rt; is_fed);
    Ok(())
}

// Prints the performer: whether the line is this.
fn is_printed(
    alloc: Global,
    name: &Text,
    stage: &Stage,
    expected: &str,
) -> Result<bool, AllocError> {
    let line = print_performer(alloc, name, 1, stage)?;
    Ok(line.as_slice() == expected.as_bytes())
}

#[test]
fn performer_that_has_done_nothing_is_printed(rt: HostRuntime) -> Result<(), Fail> {
    let alloc = rt.alloc();
    let name = Text::of(alloc, "ann")?;
    let stage = Stage::new(alloc, 1, 0)?;
    let expected =
        "{\"awaits\":0,\"marks\":[],\"name\":\"ann\",\"taken\":0,\"text\":\"\",\"who\":1}\n";
    assert!(rt; is_printed(alloc, &name, &stage, expected)?);
    Ok(())
}
