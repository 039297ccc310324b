//! Two sessions of faults given directly to a driver, and a close that fails.
ghost use Rattle.std.specs.Prelude.{◌≡◌, None, OnOk};

use child_driver::*;
use ot_text::Text;
use pipe_ports::ScriptHatch;
use std::alloc::Global;
use std::process::Abort;
use std::test::Fail;
use troop_entry::{Block, Lang, Note};

fn driver_over(alloc: Global, lang: Lang, boot: &str) -> Result<Driver<ScriptHatch>, Fail> {
    let boot = Vec::from_slice(alloc, boot.as_bytes())?;
    Ok(Driver::new(alloc, lang, boot, ScriptHatch::new(alloc)?))
}

/// What a driver is told before a feed.
#[derive(Clone, Copy)]
enum Told {
    Nothing,
    /// The limit of the next life.
    NextLimit(u64),
    /// The limit of the standing life.
    Limit(u64),
    /// How many starts are refused.
    Deaf(u64),
}

// The standing life takes so many more bytes.
fn limit_life(driver: &mut Driver<ScriptHatch>, bytes: u64) {
    if let Some(_) = driver.life() {
        driver.limit(Some(bytes));
    }
}

fn tell(driver: &mut Driver<ScriptHatch>, told: Told) {
    match told {
        Told::Nothing => {}
        Told::NextLimit(bytes) => driver.next_limit(Some(bytes)),
        Told::Limit(bytes) => limit_life(driver, bytes),
        Told::Deaf(starts) => driver.deaf(starts),
    }
}

fn feed(
    alloc: Global,
    driver: &mut Driver<ScriptHatch>,
    place: u64,
    text: &str,
) -> Result<Fed, Fail> {
    let text = Text::of(alloc, text)?;
    Ok(driver.feed(&Block { place, text })?)
}

/// What a driver is told, the place and the text of the block that it is then fed, and what becomes of the block.
struct Row(Told, u64, &'static str, Fed);

fn play(
    rt: &impl Abort,
    alloc: Global,
    driver: &mut Driver<ScriptHatch>,
    rows: &[Row],
) -> Result<(), Fail> {
    for row in rows {
        tell(driver, row.0);
        assert_eq!(rt; feed(alloc, driver, row.1, row.2)?, row.3);
    }
    Ok(())
}

/// The feeds of a pipe that dies three times.
const DEATHS: &[Row] = &[
    Row(Told::NextLimit(7), 2, "abcdef", Fed::Cut { bytes: 4 }),
    Row(Told::Nothing, 3, "g", Fed::Whole),
    Row(Told::Limit(0), 4, "h", Fed::Cut { bytes: 0 }),
    Row(Told::NextLimit(5), 5, "i", Fed::Whole),
    Row(Told::Nothing, 6, "j", Fed::Cut { bytes: 0 }),
    Row(Told::Nothing, 7, "k", Fed::Whole),
];

const DEATH_NOTES: &[Note] = &[
    Note::Born { life: 1, place: 2 },
    Note::Cut {
        life: 1,
        place: 2,
        bytes: 4,
    },
    Note::Born { life: 2, place: 3 },
    Note::Cut {
        life: 2,
        place: 4,
        bytes: 0,
    },
    Note::Born { life: 3, place: 5 },
    Note::Cut {
        life: 3,
        place: 6,
        bytes: 0,
    },
    Note::Born { life: 4, place: 7 },
];

// Whether the journal has these notes, and so many lives were started.
fn is_told(driver: &Driver<ScriptHatch>, notes: &[Note], lives: u64) -> bool {
    driver.journal() == notes && driver.lives() == lives
}

// Whether the life in this place took these bytes.
fn is_life(past: &[Vec<u8>], place: usize, bytes: &[u8]) -> bool {
    match past.get(place) {
        Some(life) => life.as_slice() == bytes,
        None => false,
    }
}

// Whether three lives are past, and what each took.
fn are_past(past: &[Vec<u8>]) -> bool {
    past.len() == 3
        && is_life(past, 0, b"go\nabcd")
        && is_life(past, 1, b"go\ng\n")
        && is_life(past, 2, b"go\ni\n")
}

// Whether a life stands that took these bytes and has no limit.
fn is_standing(driver: &Driver<ScriptHatch>, bytes: &[u8]) -> bool {
    match driver.life() {
        Some(life) => life.bytes() == bytes && life.left().is_none(),
        None => false,
    }
}

fn die_three_times(
    rt: &impl Abort,
    alloc: Global,
    driver: &mut Driver<ScriptHatch>,
) -> Result<(), Fail> {
    play(rt, alloc, driver, DEATHS)?;
    assert!(rt; is_told(driver, DEATH_NOTES, 4));
    assert!(rt; are_past(driver.hatch().past()));
    assert!(rt; is_standing(driver, b"go\nk\n"));
    Ok(())
}

#[test]
fn a_pipe_dies_and_the_journal_and_each_life_tell_it(rt: HostRuntime) -> Result<(), Fail> {
    let alloc = rt.alloc();
    die_three_times(&rt, alloc, &mut driver_over(alloc, Lang::Lines, "go\n")?)
}

/// A boot text that is cut, and two starts that are refused.
const REFUSALS: &[Row] = &[
    Row(Told::NextLimit(5), 2, "a", Fed::Skipped),
    Row(Told::Deaf(2), 3, "b", Fed::Skipped),
    Row(Told::Nothing, 4, "c", Fed::Skipped),
    Row(Told::Nothing, 5, "d", Fed::Whole),
];

const REFUSAL_NOTES: &[Note] = &[
    Note::Born { life: 1, place: 2 },
    Note::BootCut { life: 1, bytes: 5 },
    Note::Skipped { place: 2 },
    Note::Skipped { place: 3 },
    Note::Skipped { place: 4 },
    Note::Born { life: 2, place: 5 },
];

fn refuse_starts(
    rt: &impl Abort,
    alloc: Global,
    driver: &mut Driver<ScriptHatch>,
) -> Result<(), Fail> {
    play(rt, alloc, driver, REFUSALS)?;
    assert!(rt; is_told(driver, REFUSAL_NOTES, 2));
    Ok(())
}

#[test]
fn a_cut_boot_and_refused_starts(rt: HostRuntime) -> Result<(), Fail> {
    let alloc = rt.alloc();
    refuse_starts(&rt, alloc, &mut driver_over(alloc, Lang::Lines, "boot1\n")?)
}

fn close(driver: &mut Driver<ScriptHatch>)
    ensures { driver.new.life ≡ None }
{
    driver.close();
}

// A close of the standing life fails.
fn fail_close(driver: &mut Driver<ScriptHatch>) {
    if let Some(_) = driver.life() {
        driver.fail_close();
    }
}

// Closes with no life, feeds one, and fails to close it.
fn close_twice(alloc: Global, driver: &mut Driver<ScriptHatch>) -> Result<Fed, Fail>
    ensures { OnOk result (driver.new.life ≡ None) }
{
    close(driver);
    let fed = feed(alloc, driver, 1, "x")?;
    fail_close(driver);
    close(driver);
    Ok(fed)
}

const CLOSE_NOTES: &[Note] = &[Note::Born { life: 1, place: 1 }, Note::Unclosed { life: 1 }];

// How many lives are past in the hatch that is given back.
fn count_past(driver: Driver<ScriptHatch>) -> usize
    requires { driver.life ≡ None }
{
    driver.into_hatch().past().len()
}

#[test]
fn a_close_that_fails_is_noted(rt: HostRuntime) -> Result<(), Fail> {
    let mut driver = driver_over(rt.alloc(), Lang::Ghci, "")?;
    let fed = close_twice(rt.alloc(), &mut driver)?;
    let is_told = is_told(&driver, CLOSE_NOTES, 1);
    let past = count_past(driver);
    assert_eq!(rt; (fed, is_told, past), (Fed::Whole, true, 1));
    Ok(())
}
