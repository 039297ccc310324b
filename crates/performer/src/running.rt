//! A whole performance: the opening, the hall and the queue, the four activities, and what they leave.
ghost use Rattle.std.specs.Prelude.{◌≡◌, ◌≤◌, ◌++◌, ◌∷◌, [], ℕ, None, true, false, length, IfOk, IfErr, OnErr};
ghost use Rattle.activities.specs.Commands.{longest_command};
ghost use Rattle.activities.specs.Counts.{CountsActivity, CountsInput, CountsOutput};
ghost use Rattle.activities.specs.Down.{longest_entry};
ghost use Rattle.activities.specs.Driving.{told_driver};
ghost use Rattle.activities.specs.Lines.{coming, MayRead};
ghost use Rattle.activities.specs.Up.{longest_request};
ghost use Rattle.stage_state.specs.Origins.{origin_of, ArePlayed};
ghost use Rattle.performer.specs.Performed.{TookAll, SentAll, TypedAll, Shares};

use crate::joined::all_four;
use activities::{Flow, PerformError};
use block_queue::{Queue, Taker};
use child_driver::Driver;
use ot_text::Text;
use pipe_ports::Hatch;
use seat_lock::Hall;
use stage_state::Stage;
use std::alloc::Global;
use std::sync::Wait;
use std::thread::Threads;
use troop_ports::{Link, Sink, Source};
use wire_lines::LineReader;

/// How many items wait for the driver.
const ROOM: u64 = 256;

/// How the four activities ended.
#[derive(Clone, Copy, Debug, PartialEq, Eq)]
pub(crate) struct Endings {
    /// How the commands ended: with the input or a leave command, with a command that found the stage closed, or with an error.
    pub(crate) commands: Result<Flow, PerformError>,
    /// The error of the up line.
    pub(crate) up: Option<PerformError>,
    /// The error of the down line.
    pub(crate) down: Option<PerformError>,
    /// Whether memory was wanting to feed a block.
    pub(crate) starved: bool,
}

/// What the four activities leave.
pub(crate) struct Performed<H: Hatch> {
    pub(crate) stage: Stage,
    pub(crate) driver: Driver<H>,
    pub(crate) taker: Taker,
    pub(crate) endings: Endings,
}

// Runs the four activities at a stage, behind the opening. `Err` is want of memory before they began, and hands the driver back.
pub(crate) fn perform_at<
    C: Source + Send,
    U: Link + Send,
    L: Link + Send,
    H: Hatch + Send,
    O: Sink + Send,
    W: Threads + Wait + Sync,
>(
    rt: &W,
    alloc: Global,
    stage: Stage,
    who: u32,
    name: &Text,
    commands: &mut C,
    out: &mut O,
    up_reader: &mut LineReader,
    up: &mut U,
    down_reader: &mut LineReader,
    down: &mut L,
    mut driver: Driver<H>,
) -> Result<Performed<H>, Driver<H>>
where
    H::C: Send,
    requires stage { (stage.staged.acts ≡ []) × (stage.staged.own ≡ who) }
    requires commands { (C.closed commands.old ≡ false) × (O.closed out.old ≡ false) }
    requires up { (U.Source.closed up.old ≡ false) × MayRead up_reader.old (U.Source.remaining up.old) × (up_reader.old.limit ≡ longest_request) }
    requires down { (L.Source.closed down.old ≡ false) × MayRead down_reader.old (L.Source.remaining down.old) × (down_reader.old.limit ≡ longest_entry) }
    requires driver { driver.closed ≡ false }
    ensures played { IfOk result (λ r. ArePlayed (origin_of stage.staged) r.stage.staged.acts) }
    ensures origin { IfOk result (λ r. origin_of r.stage.staged ≡ origin_of stage.staged) }
    ensures took { IfOk result (λ r. TookAll (origin_of stage.staged) r.stage.staged.acts r.endings.down (coming down_reader.old (L.Source.remaining down.old)) (L.Source.remaining down.new) r.taker.items r.endings.starved
        (told_driver H.buried H.faults H.C.taken H.C.faults driver) (told_driver H.buried H.faults H.C.taken H.C.faults r.driver)) }
    ensures sent { IfOk result (λ r. SentAll (origin_of stage.staged) r.stage.staged.acts r.endings.up (coming up_reader.old (U.Source.remaining up.old)) (U.Source.remaining up.new) (U.Sink.taken up.old) (U.Sink.taken up.new)) }
    ensures shared { IfOk result (λ r. (typing up_seat down_seat : ℕ) × Shares r.stage.staged.acts r.endings.commands r.endings.up r.endings.down typing up_seat down_seat
        × TypedAll (origin_of stage.staged) r.stage.staged.acts typing name.now who r.endings.commands (C.remaining commands.old) (C.remaining commands.new) (O.taken out.old) (O.taken out.new)) }
    ensures ended { IfOk result (λ r. r.driver.life ≡ None) }
    ensures down_written { L.Source.taken_beside down.new ≡ L.Source.taken_beside down.old }
    ensures counts { IfOk result (λ r. CountsInput r.endings.commands (C.faults commands.old) (C.faults commands.new) × CountsOutput r.endings.commands (O.faults out.old) (O.faults out.new)
        × CountsActivity r.endings.up (U.Source.faults up.old) (U.Source.faults up.new) × CountsActivity r.endings.down (L.Source.faults down.old) (L.Source.faults down.new)) }
    ensures still_open { (C.closed commands.new ≡ false) × (O.closed out.new ≡ false) × (L.Source.closed down.new ≡ false) }
    ensures up_open { OnErr result (U.Source.closed up.new ≡ false) }
    ensures closed { IfOk result (λ _. U.Source.closed up.new ≡ true) }
    ensures memory { IfErr result (λ d. d ≡ driver) }
    ensures untouched { OnErr result ((up.new ≡ up.old) × (down.new ≡ down.old) × (commands.new ≡ commands.old) × (out.new ≡ out.old)) }
{
    let Ok((queue, mut feeder, mut taker)) = Queue::new(alloc, ROOM) else {
        return Err(driver);
    };
    let Ok(mut seats) = Vec::with_capacity(alloc, 3) else {
        return Err(driver);
    };
    let Ok((hall, mut first)) = Hall::new(alloc, stage) else {
        return Err(driver);
    };
    let mut second = hall.seat(&mut first);
    let mut third = hall.seat(&mut first);
    let mut reader = LineReader::new(alloc, 1_048_576);
    let (starved, (commands, (up, down))) = all_four(
        rt,
        alloc,
        &hall,
        &mut first,
        name,
        &mut reader,
        commands,
        out,
        &mut second,
        up_reader,
        up,
        &mut third,
        who,
        down_reader,
        down,
        &queue,
        &mut feeder,
        &mut taker,
        &mut driver,
    );
    taker.take_in(rt, &queue, feeder);
    seats.push_reserved(first);
    seats.push_reserved(second);
    seats.push_reserved(third);
    let stage = hall.close(rt, seats);
    Ok(Performed {
        stage,
        driver,
        taker,
        endings: Endings {
            commands,
            up,
            down,
            starved,
        },
    })
}
