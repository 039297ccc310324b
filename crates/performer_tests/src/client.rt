//! Two clients and one log, by hand; a start behind entries; refusals; and that calls succeed where memory is found.
use crate::shape::Shape;
use author_marks::Run;
use client_state::{Client, EditError, State, TakeError, causes_law, sent_law, stands_law};
use ot_text::{Op, Text};
use std::alloc::{AllocError, Global};
use std::process::Abort;
use std::test::Fail;
use troop_doc::Doc;
use troop_entry::{Deed, Entry, Lang};

/// What a client is given.
#[derive(Clone, Copy)]
enum Given {
    Edit(Shape),
    /// An edit in two steps: the test of it, and what is then sure.
    Checked(Shape),
    /// The entry at this position, by this performer.
    Entry(u64, u32, What),
}

/// The deed of an entry.
#[derive(Clone, Copy)]
enum What {
    Join,
    Edit(Shape),
    Reset(Shape),
}

/// What it answers.
#[derive(Clone, Copy)]
enum Told {
    /// Nothing is to be sent.
    Quiet,
    Sends(Shape),
    BadEdit(EditError),
    BadEntry(TakeError),
}

/// What a client is given and tells; then the text it holds, and how many edits are sent or held back.
#[derive(Clone, Copy)]
struct Row(Given, Told, &'static str, u8);

fn deed(alloc: Global, what: &What) -> Result<Deed, AllocError> {
    Ok(match what {
        What::Join => Deed::Join {
            name: Text::of(alloc, "ann")?,
            lang: Lang::Lines,
        },
        What::Edit(shape) => Deed::Edit(shape.op(alloc)?),
        What::Reset(shape) => Deed::Reset(shape.op(alloc)?),
    })
}

// Takes the entry, in two steps where it is the client's own; want of memory if no more can be counted.
fn take(client: &mut Client, entry: &Entry) -> Result<Option<Op>, TakeError> {
    if client.taken() == u64::MAX {
        return Err(TakeError::Memory);
    }
    if entry.who != client.own() {
        return client.take(entry);
    }
    client.check(entry)?;
    Ok(client.take_checked(entry)?)
}

// The same as `edit`, in its two steps.
fn edit_checked(client: &mut Client, op: &Op) -> Result<Option<Op>, EditError> {
    client.check_edit(op)?;
    Ok(client.edit_checked(op)?)
}

fn outstanding(state: &State) -> u8 {
    match state {
        State::Synchronized => 0,
        State::Awaiting(_) => 1,
        State::WithBuffer(..) => 2,
    }
}

fn is_edit_told(
    alloc: Global,
    found: Result<Option<Op>, EditError>,
    told: &Told,
) -> Result<bool, AllocError> {
    match (found, told) {
        (Ok(sent), Told::Sends(shape)) => shape.is(alloc, &sent),
        (Ok(sent), Told::Quiet) => Ok(sent.is_none()),
        (Err(error), Told::BadEdit(want)) => Ok(error == *want),
        _ => Ok(false),
    }
}

fn is_entry_told(
    alloc: Global,
    found: Result<Option<Op>, TakeError>,
    told: &Told,
) -> Result<bool, AllocError> {
    match (found, told) {
        (Ok(sent), Told::Sends(shape)) => shape.is(alloc, &sent),
        (Ok(sent), Told::Quiet) => Ok(sent.is_none()),
        (Err(error), Told::BadEntry(want)) => Ok(error == *want),
        _ => Ok(false),
    }
}

fn is_told(alloc: Global, client: &mut Client, row: &Row) -> Result<bool, AllocError> {
    match &row.0 {
        Given::Edit(shape) => is_edit_told(alloc, client.edit(&shape.op(alloc)?), &row.1),
        Given::Checked(shape) => is_edit_told(
            alloc,
            edit_checked(client, &shape.op(alloc)?),
            &row.1,
        ),
        Given::Entry(at, who, what) => {
            let (at, who) = (*at, *who);
            let deed = deed(alloc, what)?;
            let entry = Entry {
                at,
                who,
                seen: at,
                deed,
            };
            is_entry_told(alloc, take(client, &entry), &row.1)
        }
    }
}

// Whether the client tells what the row says, and then holds what it says.
fn is_row(alloc: Global, client: &mut Client, row: &Row) -> Result<bool, AllocError> {
    let is_told = is_told(alloc, client, row)?;
    let is_held = client.doc().text()?.same(&Text::of(alloc, row.2)?);
    Ok(is_told && is_held && outstanding(client.state()) == row.3)
}

fn play(rt: &impl Abort, alloc: Global, client: &mut Client, rows: &[Row]) -> Result<(), Fail> {
    for row in rows {
        assert!(rt; is_row(alloc, client, row)?, "{}", row.2);
    }
    Ok(())
}

const A: Shape = Shape(0, "a", 0);

const X: Shape = Shape(0, "x", 0);

const Z: Shape = Shape(0, "z", 0);

const A_MOVED: Shape = Shape(0, "a", 1);

const BC_MOVED: Shape = Shape(1, "bc", 1);
// An operation on five characters.
const FAR: Shape = Shape(5, "x", 0);

// What is typed behind the edit that was sent is held back, and goes out as one edit once that is confirmed.
const ANN: &[Row] = &[
    Row(Given::Entry(0, 1, What::Join), Told::Quiet, "", 0),
    Row(Given::Entry(1, 2, What::Join), Told::Quiet, "", 0),
    Row(Given::Edit(A), Told::Sends(A), "a", 1),
    Row(Given::Edit(Shape(1, "b", 0)), Told::Quiet, "ab", 2),
    Row(Given::Edit(Shape(2, "c", 0)), Told::Quiet, "abc", 2),
    Row(Given::Entry(2, 2, What::Edit(Z)), Told::Quiet, "abcz", 2),
    Row(
        Given::Entry(3, 1, What::Edit(A_MOVED)),
        Told::Sends(BC_MOVED),
        "abcz",
        1,
    ),
    Row(
        Given::Entry(4, 1, What::Edit(BC_MOVED)),
        Told::Quiet,
        "abcz",
        0,
    ),
];

const BOB: &[Row] = &[
    Row(Given::Entry(0, 1, What::Join), Told::Quiet, "", 0),
    Row(Given::Entry(1, 2, What::Join), Told::Quiet, "", 0),
    Row(Given::Edit(Z), Told::Sends(Z), "z", 1),
    Row(Given::Entry(2, 2, What::Edit(Z)), Told::Quiet, "z", 0),
    Row(
        Given::Entry(3, 1, What::Edit(A_MOVED)),
        Told::Quiet,
        "az",
        0,
    ),
    Row(
        Given::Entry(4, 1, What::Edit(BC_MOVED)),
        Told::Quiet,
        "abcz",
        0,
    ),
];

const REFUSED: &[Row] = &[
    Row(
        Given::Entry(3, 2, What::Edit(X)),
        Told::BadEntry(TakeError::BadPlace { want: 0, got: 3 }),
        "",
        0,
    ),
    Row(
        Given::Entry(0, 1, What::Edit(X)),
        Told::BadEntry(TakeError::NotSent { at: 0 }),
        "",
        0,
    ),
    Row(
        Given::Entry(0, 2, What::Edit(FAR)),
        Told::BadEntry(TakeError::BadBase { want: 5, got: 0 }),
        "",
        0,
    ),
    Row(
        Given::Edit(FAR),
        Told::BadEdit(EditError::BadBase { want: 5, got: 0 }),
        "",
        0,
    ),
];

// An own reset confirms no edit, which is then still the one that was sent, behind what the reset puts in.
const RESET: &[Row] = &[
    Row(Given::Edit(A), Told::Sends(A), "a", 1),
    Row(
        Given::Entry(0, 1, What::Reset(Shape(0, "new", 0))),
        Told::Quiet,
        "anew",
        1,
    ),
    Row(
        Given::Entry(1, 1, What::Edit(Shape(0, "a", 3))),
        Told::Quiet,
        "anew",
        0,
    ),
];

const HI: Shape = Shape(0, "hi", 0);

const GREETS: &[Row] = &[Row(Given::Edit(HI), Told::Sends(HI), "hi", 1)];

const CRIES: Shape = Shape(2, "!", 0);

const BEHIND_THREE: &[Row] = &[
    Row(
        Given::Entry(0, 1, What::Join),
        Told::BadEntry(TakeError::BadPlace { want: 3, got: 0 }),
        "hi",
        0,
    ),
    Row(Given::Checked(CRIES), Told::Sends(CRIES), "hi!", 1),
    Row(Given::Entry(3, 2, What::Edit(CRIES)), Told::Quiet, "hi!", 0),
];

fn on_new(rt: &impl Abort, alloc: Global, rows: &[Row]) -> Result<(), Fail> {
    play(rt, alloc, &mut Client::new(alloc, 1), rows)
}

#[test]
fn clients_answer_and_hold_what_their_rows_say(rt: HostRuntime) -> Result<(), Fail> {
    causes_law();
    sent_law();
    stands_law();
    on_new(&rt, rt.alloc(), REFUSED)?;
    on_new(&rt, rt.alloc(), RESET)
}

// Whether both hold the document of all five entries.
fn agree(ann: &Client, bob: &Client) -> Result<bool, AllocError> {
    let runs = ann.doc().runs()?;
    let are_runs = runs.as_slice()
        == [Run { who: 1, count: 3 }, Run { who: 2, count: 1 }].as_slice();
    Ok(are_runs && ann.doc().same(bob.doc()) && ann.taken() == 5 && bob.taken() == 5)
}

fn play_both(
    rt: &impl Abort,
    alloc: Global,
    ann: &mut Client,
    bob: &mut Client,
) -> Result<(), Fail> {
    play(rt, alloc, ann, ANN)?;
    play(rt, alloc, bob, BOB)?;
    assert!(rt; agree(ann, bob)?);
    Ok(())
}

#[test]
fn two_clients_come_to_one_document(rt: HostRuntime) -> Result<(), Fail> {
    let alloc = rt.alloc();
    play_both(
        &rt,
        alloc,
        &mut Client::new(alloc, 1),
        &mut Client::new(alloc, 2),
    )
}

// The document of a client that typed a greeting.
fn greeted(rt: &impl Abort, alloc: Global, client: &mut Client) -> Result<Doc, Fail> {
    play(rt, alloc, client, GREETS)?;
    Ok(client.doc().try_clone()?)
}

#[test]
fn a_client_starts_behind_entries_with_their_document(rt: HostRuntime) -> Result<(), Fail> {
    let alloc = rt.alloc();
    let doc = greeted(&rt, alloc, &mut Client::new(alloc, 1))?;
    play(
        &rt,
        alloc,
        &mut Client::start_at(alloc, 2, 3, doc),
        BEHIND_THREE,
    )
}
