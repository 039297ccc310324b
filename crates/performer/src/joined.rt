//! The activities beside one another.
ghost use Rattle.std.specs.Prelude.{◌≡◌, [], None, true, false};
ghost use Rattle.std.specs.Thread.{IsSync};
ghost use Rattle.block_queue.specs.Values.{IsEndOf};
ghost use Rattle.activities.specs.Commands.{longest_command};
ghost use Rattle.activities.specs.Counts.{CountsActivity, CountsInput, CountsOutput};
ghost use Rattle.activities.specs.Down.{longest_entry};
ghost use Rattle.activities.specs.Driving.{told_driver, Drove};
ghost use Rattle.activities.specs.Ending.{DownDone, UpDone, CommandsDone};
ghost use Rattle.activities.specs.Lines.{coming, MayRead};
ghost use Rattle.activities.specs.Memory.{IsStageSeat, KeepsSeat, origin_at};
ghost use Rattle.activities.specs.Up.{longest_request};

use activities::{Flow, PerformError, StageSeat, drive, send_up, take_down, type_commands};
use block_queue::{Feeder, Queue, Taker};
use child_driver::Driver;
use ot_text::Text;
use pipe_ports::Hatch;
use seat_lock::Hall;
use stage_state::Stage;
use std::alloc::Global;
use std::sync::Wait;
use std::thread::{Threads, join_mut};
use troop_ports::{Link, Sink, Source};
use wire_lines::LineReader;

// The up line beside the down line.
pub(crate) fn both_lines<U: Link + Send, L: Link + Send, W: Threads + Wait + Sync>(
    rt: &W,
    alloc: Global,
    hall: &Hall<Stage>,
    up_seat: &mut StageSeat,
    up_reader: &mut LineReader,
    up: &mut U,
    seat: &mut StageSeat,
    who: u32,
    reader: &mut LineReader,
    link: &mut L,
    queue: &Queue,
    feeder: &mut Feeder,
) -> (Option<PerformError>, Option<PerformError>)
    requires up { IsStageSeat hall.now up_seat.old × (up_seat.old.seen ≡ []) × (up_seat.old.own ≡ []) × (U.Source.closed up.old ≡ false) × MayRead up_reader.old (U.Source.remaining up.old) × (up_reader.old.limit ≡ longest_request) }
    requires seat { IsStageSeat hall.now seat.old × ((origin_at hall.now).own ≡ who) }
    requires is_open { (L.Source.closed link.old ≡ false) × MayRead reader.old (L.Source.remaining link.old) × (reader.old.limit ≡ longest_entry) }
    requires queue { IsEndOf queue.now feeder.old }
    ensures up_seat { KeepsSeat hall.now up_seat.old up_seat.new }
    ensures up { UpDone (origin_at hall.now) result.0 (coming up_reader.old (U.Source.remaining up.old)) (U.Source.remaining up.new) (U.Sink.taken up.old) (U.Sink.taken up.new) up_seat.old up_seat.new }
    ensures up_faults { CountsActivity result.0 (U.Source.faults up.old) (U.Source.faults up.new) }
    ensures closed { U.Source.closed up.new ≡ true }
    ensures seat { KeepsSeat hall.now seat.old seat.new }
    ensures queue { IsEndOf queue.now feeder.new }
    ensures down { DownDone (origin_at hall.now) result.1 (coming reader.old (L.Source.remaining link.old)) (L.Source.remaining link.new) seat.old seat.new feeder.old.items feeder.new.items }
    ensures still_open { L.Source.closed link.new ≡ false }
    ensures written { L.Source.taken_beside link.new ≡ L.Source.taken_beside link.old }
    ensures faults { CountsActivity result.1 (L.Source.faults link.old) (L.Source.faults link.new) }
{
    join_mut(
        rt,
        &mut || -> Option<PerformError>
            requires { IsStageSeat hall.now up_seat.now × (up_seat.now.seen ≡ []) × (up_seat.now.own ≡ []) × (U.Source.closed up.now ≡ false) × MayRead up_reader.now (U.Source.remaining up.now) × (up_reader.now.limit ≡ longest_request) }
            ensures seat { KeepsSeat hall.entry.now up_seat.entry.now up_seat.exit.now }
            ensures up { UpDone (origin_at hall.entry.now) result (coming up_reader.entry.now (U.Source.remaining up.entry.now)) (U.Source.remaining up.exit.now) (U.Sink.taken up.entry.now) (U.Sink.taken up.exit.now) up_seat.entry.now up_seat.exit.now }
            ensures faults { CountsActivity result (U.Source.faults up.entry.now) (U.Source.faults up.exit.now) }
            ensures closed { U.Source.closed up.exit.now ≡ true }
        { send_up(rt, alloc, hall, up_seat, up_reader, up) },
        &mut || -> Option<PerformError>
            requires { IsStageSeat hall.now seat.now × ((origin_at hall.now).own ≡ who) × (L.Source.closed link.now ≡ false) × MayRead reader.now (L.Source.remaining link.now) × (reader.now.limit ≡ longest_entry) × IsEndOf queue.now feeder.now }
            ensures seat { KeepsSeat hall.entry.now seat.entry.now seat.exit.now }
            ensures queue { IsEndOf queue.entry.now feeder.exit.now }
            ensures down { DownDone (origin_at hall.entry.now) result (coming reader.entry.now (L.Source.remaining link.entry.now)) (L.Source.remaining link.exit.now) seat.entry.now seat.exit.now feeder.entry.now.items feeder.exit.now.items }
            ensures still_open { L.Source.closed link.exit.now ≡ false }
            ensures written { L.Source.taken_beside link.exit.now ≡ L.Source.taken_beside link.entry.now }
            ensures faults { CountsActivity result (L.Source.faults link.entry.now) (L.Source.faults link.exit.now) }
        { take_down(rt, alloc, hall, seat, who, reader, link, queue, feeder) },
    )
}

/// How the commands and both lines ended.
type LinesEnded = (
    Result<Flow, PerformError>,
    (Option<PerformError>, Option<PerformError>),
);

// The commands beside both lines.
pub(crate) fn commands_and_lines<
    C: Source + Send,
    U: Link + Send,
    L: Link + Send,
    O: Sink + Send,
    W: Threads + Wait + Sync,
>(
    rt: &W,
    alloc: Global,
    hall: &Hall<Stage>,
    first_seat: &mut StageSeat,
    name: &Text,
    commands_reader: &mut LineReader,
    commands: &mut C,
    out: &mut O,
    up_seat: &mut StageSeat,
    up_reader: &mut LineReader,
    up: &mut U,
    seat: &mut StageSeat,
    who: u32,
    reader: &mut LineReader,
    link: &mut L,
    queue: &Queue,
    feeder: &mut Feeder,
) -> LinesEnded
    requires commands { IsStageSeat hall.now first_seat.old × (first_seat.old.seen ≡ []) × (first_seat.old.own ≡ []) × (C.closed commands.old ≡ false) × (O.closed out.old ≡ false) × MayRead commands_reader.old (C.remaining commands.old) × (commands_reader.old.limit ≡ longest_command) }
    requires up { IsStageSeat hall.now up_seat.old × (up_seat.old.seen ≡ []) × (up_seat.old.own ≡ []) × (U.Source.closed up.old ≡ false) × MayRead up_reader.old (U.Source.remaining up.old) × (up_reader.old.limit ≡ longest_request) }
    requires seat { IsStageSeat hall.now seat.old × ((origin_at hall.now).own ≡ who) }
    requires is_open { (L.Source.closed link.old ≡ false) × MayRead reader.old (L.Source.remaining link.old) × (reader.old.limit ≡ longest_entry) }
    requires queue { IsEndOf queue.now feeder.old }
    ensures first_seat { KeepsSeat hall.now first_seat.old first_seat.new }
    ensures commands { CommandsDone (origin_at hall.now) name.now who result.0 (coming commands_reader.old (C.remaining commands.old)) (C.remaining commands.new) (O.taken out.old) (O.taken out.new) first_seat.old first_seat.new }
    ensures read_faults { CountsInput result.0 (C.faults commands.old) (C.faults commands.new) }
    ensures write_faults { CountsOutput result.0 (O.faults out.old) (O.faults out.new) }
    ensures still_open { (C.closed commands.new ≡ false) × (O.closed out.new ≡ false) × (L.Source.closed link.new ≡ false) }
    ensures up_seat { KeepsSeat hall.now up_seat.old up_seat.new }
    ensures up { UpDone (origin_at hall.now) result.1.0 (coming up_reader.old (U.Source.remaining up.old)) (U.Source.remaining up.new) (U.Sink.taken up.old) (U.Sink.taken up.new) up_seat.old up_seat.new }
    ensures up_faults { CountsActivity result.1.0 (U.Source.faults up.old) (U.Source.faults up.new) }
    ensures closed { U.Source.closed up.new ≡ true }
    ensures seat { KeepsSeat hall.now seat.old seat.new }
    ensures queue { IsEndOf queue.now feeder.new }
    ensures down { DownDone (origin_at hall.now) result.1.1 (coming reader.old (L.Source.remaining link.old)) (L.Source.remaining link.new) seat.old seat.new feeder.old.items feeder.new.items }
    ensures written { L.Source.taken_beside link.new ≡ L.Source.taken_beside link.old }
    ensures faults { CountsActivity result.1.1 (L.Source.faults link.old) (L.Source.faults link.new) }
{
    let mut typing = || -> Result<Flow, PerformError>
        requires { IsStageSeat hall.now first_seat.now × (first_seat.now.seen ≡ []) × (first_seat.now.own ≡ []) × (C.closed commands.now ≡ false) × (O.closed out.now ≡ false) × MayRead commands_reader.now (C.remaining commands.now) × (commands_reader.now.limit ≡ longest_command) }
        ensures seat { KeepsSeat hall.entry.now first_seat.entry.now first_seat.exit.now }
        ensures commands { CommandsDone (origin_at hall.entry.now) name.entry.now who result (coming commands_reader.entry.now (C.remaining commands.entry.now)) (C.remaining commands.exit.now) (O.taken out.entry.now) (O.taken out.exit.now) first_seat.entry.now first_seat.exit.now }
        ensures read_faults { CountsInput result (C.faults commands.entry.now) (C.faults commands.exit.now) }
        ensures write_faults { CountsOutput result (O.faults out.entry.now) (O.faults out.exit.now) }
        ensures still_open { (C.closed commands.exit.now ≡ false) × (O.closed out.exit.now ≡ false) }
    {
        type_commands(
            rt,
            alloc,
            hall,
            first_seat,
            who,
            name,
            commands_reader,
            commands,
            out,
        )
    };
    let mut lines = || -> (Option<PerformError>, Option<PerformError>)
        requires up { IsSync W.row × IsStageSeat hall.now up_seat.now × (up_seat.now.seen ≡ []) × (up_seat.now.own ≡ []) × (U.Source.closed up.now ≡ false) × MayRead up_reader.now (U.Source.remaining up.now) × (up_reader.now.limit ≡ longest_request) }
        requires seat { IsStageSeat hall.now seat.now × ((origin_at hall.now).own ≡ who) }
        requires is_open { (L.Source.closed link.now ≡ false) × MayRead reader.now (L.Source.remaining link.now) × (reader.now.limit ≡ longest_entry) }
        requires queue { IsEndOf queue.now feeder.now }
        ensures up_seat { KeepsSeat hall.entry.now up_seat.entry.now up_seat.exit.now }
        ensures up { UpDone (origin_at hall.entry.now) result.0 (coming up_reader.entry.now (U.Source.remaining up.entry.now)) (U.Source.remaining up.exit.now) (U.Sink.taken up.entry.now) (U.Sink.taken up.exit.now) up_seat.entry.now up_seat.exit.now }
        ensures up_faults { CountsActivity result.0 (U.Source.faults up.entry.now) (U.Source.faults up.exit.now) }
        ensures closed { U.Source.closed up.exit.now ≡ true }
        ensures seat { KeepsSeat hall.entry.now seat.entry.now seat.exit.now }
        ensures queue { IsEndOf queue.entry.now feeder.exit.now }
        ensures down { DownDone (origin_at hall.entry.now) result.1 (coming reader.entry.now (L.Source.remaining link.entry.now)) (L.Source.remaining link.exit.now) seat.entry.now seat.exit.now feeder.entry.now.items feeder.exit.now.items }
        ensures still_open { L.Source.closed link.exit.now ≡ false }
        ensures written { L.Source.taken_beside link.exit.now ≡ L.Source.taken_beside link.entry.now }
        ensures faults { CountsActivity result.1 (L.Source.faults link.entry.now) (L.Source.faults link.exit.now) }
    {
        both_lines(
            rt, alloc, hall, up_seat, up_reader, up, seat, who, reader, link, queue, feeder,
        )
    };
    join_mut(rt, &mut typing, &mut lines)
}

/// How the four activities ended: the driver, the commands, the up line and the down line.
pub(crate) type Ended = (bool, LinesEnded);

// The driver beside the commands and both lines.
pub(crate) fn all_four<
    C: Source + Send,
    U: Link + Send,
    L: Link + Send,
    H: Hatch + Send,
    O: Sink + Send,
    W: Threads + Wait + Sync,
>(
    rt: &W,
    alloc: Global,
    hall: &Hall<Stage>,
    first_seat: &mut StageSeat,
    name: &Text,
    commands_reader: &mut LineReader,
    commands: &mut C,
    out: &mut O,
    up_seat: &mut StageSeat,
    up_reader: &mut LineReader,
    up: &mut U,
    seat: &mut StageSeat,
    who: u32,
    reader: &mut LineReader,
    link: &mut L,
    queue: &Queue,
    feeder: &mut Feeder,
    taker: &mut Taker,
    driver: &mut Driver<H>,
) -> Ended
where
    H::C: Send,
    requires commands { IsStageSeat hall.now first_seat.old × (first_seat.old.seen ≡ []) × (first_seat.old.own ≡ []) × (C.closed commands.old ≡ false) × (O.closed out.old ≡ false) × MayRead commands_reader.old (C.remaining commands.old) × (commands_reader.old.limit ≡ longest_command) }
    requires up { IsStageSeat hall.now up_seat.old × (up_seat.old.seen ≡ []) × (up_seat.old.own ≡ []) × (U.Source.closed up.old ≡ false) × MayRead up_reader.old (U.Source.remaining up.old) × (up_reader.old.limit ≡ longest_request) }
    requires seat { IsStageSeat hall.now seat.old × ((origin_at hall.now).own ≡ who) }
    requires is_open { (L.Source.closed link.old ≡ false) × MayRead reader.old (L.Source.remaining link.old) × (reader.old.limit ≡ longest_entry) }
    requires queue { IsEndOf queue.now feeder.old × IsEndOf queue.now taker.old }
    requires driver { driver.old.closed ≡ false }
    ensures first_seat { KeepsSeat hall.now first_seat.old first_seat.new }
    ensures commands { CommandsDone (origin_at hall.now) name.now who result.1.0 (coming commands_reader.old (C.remaining commands.old)) (C.remaining commands.new) (O.taken out.old) (O.taken out.new) first_seat.old first_seat.new }
    ensures read_faults { CountsInput result.1.0 (C.faults commands.old) (C.faults commands.new) }
    ensures write_faults { CountsOutput result.1.0 (O.faults out.old) (O.faults out.new) }
    ensures still_open { (C.closed commands.new ≡ false) × (O.closed out.new ≡ false) × (L.Source.closed link.new ≡ false) }
    ensures up_seat { KeepsSeat hall.now up_seat.old up_seat.new }
    ensures up { UpDone (origin_at hall.now) result.1.1.0 (coming up_reader.old (U.Source.remaining up.old)) (U.Source.remaining up.new) (U.Sink.taken up.old) (U.Sink.taken up.new) up_seat.old up_seat.new }
    ensures up_faults { CountsActivity result.1.1.0 (U.Source.faults up.old) (U.Source.faults up.new) }
    ensures closed { U.Source.closed up.new ≡ true }
    ensures seat { KeepsSeat hall.now seat.old seat.new }
    ensures queue { IsEndOf queue.now feeder.new × IsEndOf queue.now taker.new }
    ensures down { DownDone (origin_at hall.now) result.1.1.1 (coming reader.old (L.Source.remaining link.old)) (L.Source.remaining link.new) seat.old seat.new feeder.old.items feeder.new.items }
    ensures written { L.Source.taken_beside link.new ≡ L.Source.taken_beside link.old }
    ensures faults { CountsActivity result.1.1.1 (L.Source.faults link.old) (L.Source.faults link.new) }
    ensures drove { Drove result.0 taker.old.items taker.new.items (told_driver H.buried H.faults H.C.taken H.C.faults driver.old) (told_driver H.buried H.faults H.C.taken H.C.faults driver.new) }
    ensures ended { driver.new.life ≡ None }
{
    let mut driving = || -> bool
        requires { IsEndOf queue.now taker.now × (driver.now.closed ≡ false) }
        ensures queue { IsEndOf queue.entry.now taker.exit.now }
        ensures drove { Drove result taker.entry.now.items taker.exit.now.items (told_driver H.buried H.faults H.C.taken H.C.faults driver.entry.now) (told_driver H.buried H.faults H.C.taken H.C.faults driver.exit.now) }
        ensures ended { driver.exit.now.life ≡ None }
    { drive(rt, queue, taker, driver) };
    let mut others = || -> LinesEnded
        requires commands { IsSync W.row × IsStageSeat hall.now first_seat.now × (first_seat.now.seen ≡ []) × (first_seat.now.own ≡ []) × (C.closed commands.now ≡ false) × (O.closed out.now ≡ false) × MayRead commands_reader.now (C.remaining commands.now) × (commands_reader.now.limit ≡ longest_command) }
        requires up { IsStageSeat hall.now up_seat.now × (up_seat.now.seen ≡ []) × (up_seat.now.own ≡ []) × (U.Source.closed up.now ≡ false) × MayRead up_reader.now (U.Source.remaining up.now) × (up_reader.now.limit ≡ longest_request) }
        requires seat { IsStageSeat hall.now seat.now × ((origin_at hall.now).own ≡ who) }
        requires is_open { (L.Source.closed link.now ≡ false) × MayRead reader.now (L.Source.remaining link.now) × (reader.now.limit ≡ longest_entry) }
        requires queue { IsEndOf queue.now feeder.now }
        ensures first_seat { KeepsSeat hall.entry.now first_seat.entry.now first_seat.exit.now }
        ensures commands { CommandsDone (origin_at hall.entry.now) name.entry.now who result.0 (coming commands_reader.entry.now (C.remaining commands.entry.now)) (C.remaining commands.exit.now) (O.taken out.entry.now) (O.taken out.exit.now) first_seat.entry.now first_seat.exit.now }
        ensures read_faults { CountsInput result.0 (C.faults commands.entry.now) (C.faults commands.exit.now) }
        ensures write_faults { CountsOutput result.0 (O.faults out.entry.now) (O.faults out.exit.now) }
        ensures still_open { (C.closed commands.exit.now ≡ false) × (O.closed out.exit.now ≡ false) × (L.Source.closed link.exit.now ≡ false) }
        ensures up_seat { KeepsSeat hall.entry.now up_seat.entry.now up_seat.exit.now }
        ensures up { UpDone (origin_at hall.entry.now) result.1.0 (coming up_reader.entry.now (U.Source.remaining up.entry.now)) (U.Source.remaining up.exit.now) (U.Sink.taken up.entry.now) (U.Sink.taken up.exit.now) up_seat.entry.now up_seat.exit.now }
        ensures up_faults { CountsActivity result.1.0 (U.Source.faults up.entry.now) (U.Source.faults up.exit.now) }
        ensures closed { U.Source.closed up.exit.now ≡ true }
        ensures seat { KeepsSeat hall.entry.now seat.entry.now seat.exit.now }
        ensures queue { IsEndOf queue.entry.now feeder.exit.now }
        ensures down { DownDone (origin_at hall.entry.now) result.1.1 (coming reader.entry.now (L.Source.remaining link.entry.now)) (L.Source.remaining link.exit.now) seat.entry.now seat.exit.now feeder.entry.now.items feeder.exit.now.items }
        ensures written { L.Source.taken_beside link.exit.now ≡ L.Source.taken_beside link.entry.now }
        ensures faults { CountsActivity result.1.1 (L.Source.faults link.entry.now) (L.Source.faults link.exit.now) }
    {
        commands_and_lines(
            rt,
            alloc,
            hall,
            first_seat,
            name,
            commands_reader,
            commands,
            out,
            up_seat,
            up_reader,
            up,
            seat,
            who,
            reader,
            link,
            queue,
            feeder,
        )
    };
    join_mut(rt, &mut driving, &mut others)
}
