//! The down line: it takes the entries that the server tells.
ghost use Rattle.std.specs.Prelude.{◌≡◌, [], ◌∷◌, ◌++◌, ℕ, true, false, IfOk, IfErr};
ghost use Rattle.troop_entry.specs.Told.{is_leave_of};
ghost use Rattle.block_queue.specs.Values.{IsEndOf};
ghost use Rattle.stage_state.specs.Origins.{machine_at};
ghost use Rattle.activities.specs.declared.errors.PerformError.TheVariants as PerformError;
ghost use Rattle.activities.specs.declared.errors.Side.TheVariants as Side;
ghost use Rattle.activities.specs.Counts.{CountsResult, CountsActivity};
ghost use Rattle.activities.specs.Down.{TookLine, TookEntry, TookDown, longest_entry, refusal_error, end_of_leave, and_block};
ghost use Rattle.activities.specs.Driving.{block_items};
ghost use Rattle.activities.specs.Ending.{DownDone};
ghost use Rattle.activities.specs.Lines.{coming, MayRead, GoesWhole, FailsBare};
ghost use Rattle.activities.specs.Memory.{IsStageSeat, KeepsSeat, origin_at};

use crate::ending::halt_at;
use crate::errors::{PerformError, Side, What};
use crate::reading::{next_line, value_or};
use crate::stage_hall::{StageSeat, leave_was_sent, play};
use block_queue::{Feeder, Item, Queue};
use seat_lock::Hall;
use stage_state::{Act, ActReply, Stage, TakeRefusal};
use std::alloc::Global;
use std::sync::Wait;
use troop_entry::{Block, Deed, Entry};
use troop_ports::Link;
use wire_json::read_entry;
use wire_lines::{Line, LineReader};

/// An entry that was taken: its position, the block that it is, and whether it is the own leave.
#[derive(Drop)]
pub(crate) struct TakenEntry {
    pub(crate) at: u64,
    pub(crate) block: Option<Block>,
    pub(crate) gone: bool,
}

/// Takes what the server tells, up to the own leave, and pushes its blocks and then the end. Where there is an error, which is answered, it halts
/// the stage.
pub fn take_down<L: Link, W: Wait>(
    rt: &W,
    alloc: Global,
    hall: &Hall<Stage>,
    seat: &mut StageSeat,
    who: u32,
    reader: &mut LineReader,
    link: &mut L,
    queue: &Queue,
    feeder: &mut Feeder,
) -> Option<PerformError>
    requires seat { IsStageSeat hall.now seat.old × ((origin_at hall.now).own ≡ who) }
    requires is_open { (L.Source.closed link.old ≡ false) × MayRead reader.old (L.Source.remaining link.old) × (reader.old.limit ≡ longest_entry) }
    requires queue { IsEndOf queue.now feeder.old }
    ensures seat { KeepsSeat hall.now seat.old seat.new }
    ensures still_open { L.Source.closed link.new ≡ false }
    ensures queue { IsEndOf queue.now feeder.new }
    ensures done { DownDone (origin_at hall.now) result (coming reader.old (L.Source.remaining link.old)) (L.Source.remaining link.new) seat.old seat.new feeder.old.items feeder.new.items }
    ensures written { L.Source.taken_beside link.new ≡ L.Source.taken_beside link.old }
    ensures faults { CountsActivity result (L.Source.faults link.old) (L.Source.faults link.new) }
{
    let end = take_lines(rt, alloc, hall, seat, who, reader, link, queue, feeder);
    push(rt, queue, feeder, Item::End);
    halt_at(rt, hall, seat, &end);
    end
}

// Takes the entries that the server tells, up to the own leave, and pushes their blocks.
fn take_lines<L: Link, W: Wait>(
    rt: &W,
    alloc: Global,
    hall: &Hall<Stage>,
    seat: &mut StageSeat,
    who: u32,
    reader: &mut LineReader,
    link: &mut L,
    queue: &Queue,
    feeder: &mut Feeder,
) -> Option<PerformError>
    requires seat { IsStageSeat hall.now seat.old × ((origin_at hall.now).own ≡ who) }
    requires is_open { (L.Source.closed link.old ≡ false) × MayRead reader.old (L.Source.remaining link.old) × (reader.old.limit ≡ longest_entry) }
    requires queue { IsEndOf queue.now feeder.old }
    ensures seat { KeepsSeat hall.now seat.old seat.new }
    ensures still_open { L.Source.closed link.new ≡ false }
    ensures queue { IsEndOf queue.now feeder.new }
    ensures took { TookDown (origin_at hall.now) result (coming reader.old (L.Source.remaining link.old)) (L.Source.remaining link.new) seat.old seat.new feeder.old.items feeder.new.items }
    ensures written { L.Source.taken_beside link.new ≡ L.Source.taken_beside link.old }
    ensures faults { CountsActivity result (L.Source.faults link.old) (L.Source.faults link.new) }
{
    let mut number: u64 = 1;
    for _ in rt.forever() {
        match take_line(rt, alloc, hall, seat, who, reader, link, number) {
            Ok(taken) => {
                push_block(rt, queue, feeder, taken.block);
                if taken.gone {
                    return left(rt, hall, seat, taken.at);
                }
                number = number.saturating_add(1);
            }
            Err(error) => return Some(error),
        }
    }
    unreachable!()
}

// How the down line ends once the own leave was taken, at this position.
fn left<W: Wait>(rt: &W, hall: &Hall<Stage>, seat: &mut StageSeat, at: u64) -> Option<PerformError>
    requires { IsStageSeat hall.now seat.old }
    ensures seat { KeepsSeat hall.now seat.old seat.new }
    ensures own { seat.new.own ≡ seat.old.own }
    ensures end { result ≡ end_of_leave at (machine_at (origin_at hall.now) seat.new.seen).leave_sent }
    ensures faults { (count : ℕ) → CountsActivity result count count }
{
    if leave_was_sent(rt, hall, seat) {
        None
    } else {
        Some(PerformError::Dropped { at })
    }
}

fn push_block<W: Wait>(rt: &W, queue: &Queue, feeder: &mut Feeder, block: Option<Block>)
    requires { IsEndOf queue.now feeder.old }
    ensures queue { IsEndOf queue.now feeder.new }
    ensures pushed { feeder.new.items ≡ feeder.old.items ++ block_items (and_block block []) }
{
    if let Some(block) = block {
        push(rt, queue, feeder, Item::Block(block));
    }
}

// Pushes the item, and waits while the queue is full.
fn push<W: Wait>(rt: &W, queue: &Queue, feeder: &mut Feeder, item: Item)
    requires { IsEndOf queue.now feeder.old }
    ensures queue { IsEndOf queue.now feeder.new }
    ensures pushed { feeder.new.items ≡ feeder.old.items ++ item ∷ [] }
{
    let mut item = item;
    for _ in rt.forever() {
        match feeder.push(rt, queue, item) {
            Ok(()) => return,
            Err(back) => item = back,
        }
        feeder.wait_for_room(rt, queue);
    }
    unreachable!()
}

// Reads the line of this number, and takes its entry.
fn take_line<L: Link, W: Wait>(
    rt: &W,
    alloc: Global,
    hall: &Hall<Stage>,
    seat: &mut StageSeat,
    who: u32,
    reader: &mut LineReader,
    link: &mut L,
    number: u64,
) -> Result<TakenEntry, PerformError>
    requires seat { IsStageSeat hall.now seat.old × ((origin_at hall.now).own ≡ who) }
    requires is_open { (L.Source.closed link.old ≡ false) × MayRead reader.old (L.Source.remaining link.old) × (reader.old.limit ≡ longest_entry) }
    ensures seat { KeepsSeat hall.now seat.old seat.new }
    ensures still_open { (L.Source.closed link.new ≡ false) × IfOk result (λ _. MayRead reader.new (L.Source.remaining link.new)) × (reader.new.limit ≡ longest_entry) }
    ensures took { TookLine (origin_at hall.now) number (coming reader.old (L.Source.remaining link.old)) (coming reader.new (L.Source.remaining link.new)) (L.Source.remaining link.new)
        seat.old seat.new result }
    ensures whole { IfOk result (λ _. GoesWhole reader.old (coming reader.old (L.Source.remaining link.old)) reader.new (coming reader.new (L.Source.remaining link.new))) }
    ensures bare { IfErr result (λ error. error ≡ PerformError.NetFault → FailsBare reader.old.state (coming reader.old (L.Source.remaining link.old)) (L.Source.remaining link.new)) }
    ensures written { L.Source.taken_beside link.new ≡ L.Source.taken_beside link.old }
    ensures faults { CountsResult result (L.Source.faults link.old) (L.Source.faults link.new) }
{
    let text = match next_line(reader, link) {
        Line::Text(text) => text,
        Line::End => return Err(wrong(number, What::Ended)),
        Line::Long => return Err(wrong(number, What::Long)),
        Line::Fault => return Err(PerformError::NetFault),
        Line::Memory => return Err(PerformError::Memory),
    };
    let unread = wrong(number, What::Unread);
    match value_or(read_entry(alloc, text.as_slice()), unread) {
        Ok(entry) => take_entry(rt, hall, seat, who, number, entry),
        Err(error) => Err(error),
    }
}

// What is wrong with the line of this number.
fn wrong(line: u64, what: What) -> PerformError
    ensures { result ≡ PerformError.BadPeer Side.Down line what }
{
    PerformError::BadPeer {
        side: Side::Down,
        line,
        what,
    }
}

// Takes the entry of the line of this number.
fn take_entry<W: Wait>(
    rt: &W,
    hall: &Hall<Stage>,
    seat: &mut StageSeat,
    who: u32,
    number: u64,
    entry: Entry,
) -> Result<TakenEntry, PerformError>
    requires seat { IsStageSeat hall.now seat.old × ((origin_at hall.now).own ≡ who) }
    ensures seat { KeepsSeat hall.now seat.old seat.new }
    ensures took { TookEntry (origin_at hall.now) number entry seat.old seat.new result }
    ensures faults { (count : ℕ) → CountsResult result count count }
{
    let at = entry.at;
    let gone = is_leave_of(who, &entry);
    match play(rt, hall, seat, &Act::Take(entry)) {
        Ok(ActReply::Take(Ok(block))) => Ok(TakenEntry { at, block, gone }),
        Ok(ActReply::Take(Err(refusal))) => Err(refused(number, refusal)),
        Ok(_) => unreachable!(),
        Err(_) => Err(PerformError::Memory),
    }
}

// The error of the line of this number, whose entry the stage refuses.
fn refused(line: u64, refusal: TakeRefusal) -> PerformError
    ensures { result ≡ refusal_error line refusal }
{
    match refusal {
        // Nobody else takes entries, and none is taken behind the own leave.
        TakeRefusal::Gone => PerformError::Memory,
        TakeRefusal::BadPlace { want, got } => wrong(line, What::Place { want, got }),
        TakeRefusal::NotSent { at } => wrong(line, What::NotSent { at }),
        TakeRefusal::BadBase { want, got } => wrong(line, What::Base { want, got }),
    }
}

fn is_leave_of(who: u32, entry: &Entry) -> bool
    ensures { result ≡ is_leave_of who entry.now }
{
    matches!(entry.deed, Deed::Leave) && entry.who == who
}
