//! Stages: what is typed, asked and taken, what goes out and when, and what is refused.
use crate::shape::Shape;
use ot_text::Text;
use stage_state::{
    Act, ActReply, AskRefusal, Next, Stage, StageError, TakeError, causes_law, held_law,
    machine_law, replies_law,
};
use std::alloc::{AllocError, Global};
use std::process::Abort;
use std::test::Fail;
use troop_doc::Doc;
use troop_entry::{Block, Call, Deed, Entry};

/// What a stage is given.
#[derive(Clone, Copy)]
enum Given {
    Types(Shape),
    Resets(&'static str),
    Evals(u64),
    /// The entry at this position, by this performer.
    Takes(u64, u32, What),
    Next,
    Finish,
    Halt,
}

/// The deed of an entry.
#[derive(Clone, Copy)]
enum What {
    Edit(Shape),
    Eval(&'static str),
    Leave,
}

/// A call with the number of entries that it has seen.
#[derive(Clone, Copy)]
enum Sent {
    Edit(u64, Shape),
    Eval(u64, &'static str),
    Reset(u64, &'static str),
    Leave,
}

/// What it answers.
#[derive(Clone, Copy)]
enum Told {
    Quiet,
    /// The block at this place is to be run.
    Runs(u64, &'static str),
    /// The call under this number goes out.
    Sends(u64, Sent),
    NotYet,
    Done,
    Refused(StageError),
    BadEntry(TakeError),
}

/// What a stage is given and tells, and the text that it then holds.
#[derive(Clone, Copy)]
struct Row(Given, Told, &'static str);

fn is_text(alloc: Global, found: &Text, want: &str) -> Result<bool, AllocError> {
    Ok(found.same(&Text::of(alloc, want)?))
}

fn is_call(alloc: Global, found: &Call, want: Sent) -> Result<bool, AllocError> {
    match (found, want) {
        (Call::Edit { seen, op }, Sent::Edit(at, shape)) => Ok(
            *seen == at && op.same(&shape.op(alloc)?),
        ),
        (Call::Eval { seen, text }, Sent::Eval(at, want)) => Ok(
            *seen == at && is_text(alloc, text, want)?,
        ),
        (Call::Reset { seen, text }, Sent::Reset(at, want)) => Ok(
            *seen == at && is_text(alloc, text, want)?,
        ),
        (Call::Leave, Sent::Leave) => Ok(true),
        _ => Ok(false),
    }
}

fn is_next(alloc: Global, found: &Next, told: Told) -> Result<bool, AllocError> {
    match (found, told) {
        (Next::Send { num, call }, Told::Sends(want, sent)) => Ok(
            *num == want && is_call(alloc, call, sent)?,
        ),
        (Next::NotYet, Told::NotYet) | (Next::Done, Told::Done) => Ok(true),
        _ => Ok(false),
    }
}

// The call that goes out is the one that was told to be the upcoming one.
fn goes_on(alloc: Global, stage: &mut Stage, told: Told) -> Result<bool, AllocError> {
    let upcoming = stage.upcoming()?;
    stage.ready_next()?;
    Ok(is_next(alloc, &upcoming, told)? && is_next(alloc, &stage.next()?, told)?)
}

fn is_answer(found: Result<(), StageError>, told: Told) -> bool {
    match (found, told) {
        (Ok(()), Told::Quiet) => true,
        (Err(error), Told::Refused(want)) => error == want,
        _ => false,
    }
}

fn entry(alloc: Global, at: u64, who: u32, what: What) -> Result<Entry, AllocError> {
    let deed = match what {
        What::Edit(shape) => Deed::Edit(shape.op(alloc)?),
        What::Eval(text) => Deed::Eval(Text::of(alloc, text)?),
        What::Leave => Deed::Leave,
    };
    Ok(Entry {
        at,
        who,
        seen: at,
        deed,
    })
}

fn is_taken(
    alloc: Global,
    found: Result<Option<Block>, TakeError>,
    told: Told,
) -> Result<bool, AllocError> {
    match (found, told) {
        (Ok(None), Told::Quiet) => Ok(true),
        (Ok(Some(block)), Told::Runs(place, text)) => Ok(
            block.place == place && is_text(alloc, &block.text, text)?,
        ),
        (Err(error), Told::BadEntry(want)) => Ok(error == want),
        _ => Ok(false),
    }
}

fn is_typed(
    alloc: Global,
    stage: &mut Stage,
    shape: Shape,
    told: Told,
) -> Result<bool, AllocError> {
    let op = shape.op(alloc)?;
    Ok(is_answer(stage.type_op(&op), told))
}

fn is_reset(alloc: Global, stage: &mut Stage, text: &str, told: Told) -> Result<bool, AllocError> {
    let text = Text::of(alloc, text)?;
    Ok(is_answer(stage.ask_reset(&text), told))
}

fn is_closed_by(stage: &mut Stage, given: Given) -> bool {
    if matches!(given, Given::Finish) {
        stage.finish();
    } else {
        stage.halt();
    }
    stage.is_closed()
}

fn is_told(alloc: Global, stage: &mut Stage, given: Given, told: Told) -> Result<bool, AllocError> {
    match given {
        Given::Types(shape) => is_typed(alloc, stage, shape, told),
        Given::Resets(text) => is_reset(alloc, stage, text, told),
        Given::Evals(place) => Ok(is_answer(stage.ask_eval(place), told)),
        Given::Takes(at, who, what) => {
            let entry = entry(alloc, at, who, what)?;
            is_taken(alloc, stage.take(&entry), told)
        }
        Given::Next => goes_on(alloc, stage, told),
        Given::Finish | Given::Halt => Ok(is_closed_by(stage, given)),
    }
}

fn is_row(alloc: Global, stage: &mut Stage, row: Row) -> Result<bool, AllocError> {
    Ok(is_told(alloc, stage, row.0, row.1)? && is_text(alloc, &stage.doc().text()?, row.2)?)
}

fn play(rt: &impl Abort, alloc: Global, stage: &mut Stage, rows: &[Row]) -> Result<(), Fail> {
    for row in rows {
        assert!(rt; is_row(alloc, stage, *row)?);
    }
    Ok(())
}

// The rows on a new stage of this performer, who joined at 0.
fn on_new(rt: &impl Abort, alloc: Global, own: u32, rows: &[Row]) -> Result<(), Fail> {
    play(rt, alloc, &mut Stage::new(alloc, own, 0)?, rows)
}

const A: Shape = Shape(0, "a", 0);

const B: Shape = Shape(1, "b", 0);

const LINES: Shape = Shape(0, "d1\n\n", 0);

const BUFFER_GOES_OUT_WITH_THE_ACKNOWLEDGEMENT: &[Row] = &[
    Row(Given::Types(A), Told::Quiet, "a"),
    Row(Given::Types(B), Told::Quiet, "ab"),
    Row(Given::Next, Told::Sends(1, Sent::Edit(0, A)), "ab"),
    Row(Given::Next, Told::NotYet, "ab"),
    Row(Given::Takes(0, 1, What::Edit(A)), Told::Quiet, "ab"),
    Row(Given::Next, Told::Sends(2, Sent::Edit(1, B)), "ab"),
];

const RESET_GOES_OUT: &[Row] = &[
    Row(Given::Resets("x"), Told::Quiet, ""),
    Row(Given::Next, Told::Sends(1, Sent::Reset(0, "x")), ""),
];

const BLOCK_ROUND_A_PLACE_IS_ASKED: &[Row] = &[
    Row(Given::Types(LINES), Told::Quiet, "d1\n\n"),
    Row(Given::Next, Told::Sends(1, Sent::Edit(0, LINES)), "d1\n\n"),
    Row(
        Given::Evals(4),
        Told::Refused(StageError::Blank { place: 4 }),
        "d1\n\n",
    ),
    Row(Given::Evals(2), Told::Quiet, "d1\n\n"),
    Row(Given::Next, Told::Sends(2, Sent::Eval(0, "d1")), "d1\n\n"),
];

const REFUSED: &[Row] = &[
    Row(
        Given::Types(Shape(5, "a", 0)),
        Told::Refused(StageError::BadBase { want: 5, got: 0 }),
        "",
    ),
    Row(
        Given::Takes(3, 2, What::Leave),
        Told::BadEntry(TakeError::BadPlace { want: 0, got: 3 }),
        "",
    ),
    Row(Given::Takes(0, 1, What::Leave), Told::Quiet, ""),
    Row(
        Given::Takes(1, 2, What::Leave),
        Told::BadEntry(TakeError::Gone),
        "",
    ),
];

// The join of performer 2 stands at 0.
const BLOCK_IS_RUN_BEHIND_THE_JOIN_ALONE: &[Row] = &[
    Row(Given::Takes(0, 1, What::Eval("early")), Told::Quiet, ""),
    Row(
        Given::Takes(1, 1, What::Eval("late")),
        Told::Runs(1, "late"),
        "",
    ),
];

#[test]
fn stages_answer_and_send_what_their_rows_say(rt: HostRuntime) -> Result<(), Fail> {
    held_law();
    causes_law();
    replies_law();
    machine_law();
    let alloc = rt.alloc();
    for rows in [
        BUFFER_GOES_OUT_WITH_THE_ACKNOWLEDGEMENT,
        RESET_GOES_OUT,
        BLOCK_ROUND_A_PLACE_IS_ASKED,
        REFUSED,
    ] {
        on_new(&rt, alloc, 1, rows)?;
    }
    on_new(&rt, alloc, 2, BLOCK_IS_RUN_BEHIND_THE_JOIN_ALONE)
}

const LEAVE_GOES_OUT_ONCE: &[Row] = &[
    Row(Given::Finish, Told::Quiet, ""),
    Row(Given::Evals(0), Told::Refused(StageError::Closed), ""),
    Row(Given::Next, Told::Sends(1, Sent::Leave), ""),
    Row(Given::Next, Told::Done, ""),
    Row(Given::Takes(0, 1, What::Leave), Told::Quiet, ""),
];

const HALTED: &[Row] = &[
    Row(Given::Halt, Told::Quiet, ""),
    Row(Given::Next, Told::Done, ""),
];

// Its own leave was sent and taken, and nothing is outstanding.
fn has_left(stage: &Stage) -> bool {
    stage.leave_sent()
        && stage.is_gone()
        && stage.taken() == 1
        && !stage.state().is_awaiting()
        && stage.acts().len() == 3
}

fn leave_and_halt(rt: &impl Abort, alloc: Global, stage: &mut Stage) -> Result<(), Fail> {
    play(rt, alloc, stage, LEAVE_GOES_OUT_ONCE)?;
    assert!(rt; has_left(stage));
    play(rt, alloc, stage, HALTED)
}

#[test]
fn a_stage_leaves_and_halts(rt: HostRuntime) -> Result<(), Fail> {
    leave_and_halt(&rt, rt.alloc(), &mut Stage::new(rt.alloc(), 1, 0)?)
}

const GREETS: &[Row] = &[Row(Given::Types(Shape(0, "hi", 0)), Told::Quiet, "hi")];

const CRIES: Shape = Shape(2, "!", 0);

const BEHIND_ITS_JOIN: &[Row] = &[
    Row(
        Given::Takes(0, 1, What::Leave),
        Told::BadEntry(TakeError::BadPlace { want: 3, got: 0 }),
        "hi",
    ),
    Row(Given::Types(CRIES), Told::Quiet, "hi!"),
    Row(Given::Next, Told::Sends(1, Sent::Edit(3, CRIES)), "hi!"),
    Row(Given::Takes(3, 2, What::Edit(CRIES)), Told::Quiet, "hi!"),
    Row(Given::Finish, Told::Quiet, "hi!"),
    Row(Given::Next, Told::Sends(2, Sent::Leave), "hi!"),
];

// The document of a stage on which a greeting was typed.
fn greeted(rt: &impl Abort, alloc: Global, stage: &mut Stage) -> Result<Doc, Fail> {
    play(rt, alloc, stage, GREETS)?;
    Ok(stage.doc().try_clone()?)
}

fn go_on_behind_the_join(rt: &impl Abort, alloc: Global, stage: &mut Stage) -> Result<(), Fail> {
    let begin = (stage.start(), stage.taken(), stage.start_doc().len());
    assert_eq!(rt; begin, (3, 3, 2));
    play(rt, alloc, stage, BEHIND_ITS_JOIN)
}

#[test]
fn a_stage_starts_behind_its_join(rt: HostRuntime) -> Result<(), Fail> {
    let alloc = rt.alloc();
    let doc = greeted(&rt, alloc, &mut Stage::new(alloc, 1, 0)?)?;
    go_on_behind_the_join(&rt, alloc, &mut Stage::start_at(alloc, 2, 2, doc)?)
}

fn is_played(stage: &mut Stage, act: &Act, want: &ActReply) -> Result<bool, AllocError> {
    Ok(match (stage.play(4, act)?, want) {
        (ActReply::Typed(found), ActReply::Typed(want)) => found == *want,
        (ActReply::Halt, ActReply::Halt) => true,
        _ => false,
    })
}

fn is_typing_played(
    alloc: Global,
    stage: &mut Stage,
    shape: Shape,
    want: Result<(), AskRefusal>,
) -> Result<bool, AllocError> {
    let act = Act::Typed(shape.op(alloc)?);
    is_played(stage, &act, &ActReply::Typed(want))
}

// An operation that fits, one that does not, and a halt.
fn are_plays_answered(alloc: Global, stage: &mut Stage) -> Result<bool, AllocError> {
    let refusal = AskRefusal::BadBase { want: 5, got: 1 };
    Ok(
        is_typing_played(alloc, stage, A, Ok(()))?
            && is_typing_played(alloc, stage, Shape(5, "a", 0), Err(refusal))?
            && is_played(stage, &Act::Halt, &ActReply::Halt)?
            && matches!(stage.acts(), [Act::Typed(_), Act::Halt]),
    )
}

#[test]
fn a_play_is_answered_as_its_call(rt: HostRuntime) -> Result<(), Fail> {
    let mut stage = Stage::new(rt.alloc(), 1, 0)?;
    assert!(rt; are_plays_answered(rt.alloc(), &mut stage)?);
    Ok(())
}
