//! Transformation in plain words, gap by gap and place by place, which the tests hold the walk against.
use ot_text::{Op, Part};
use std::alloc::{AllocError, Global};
use std::mem::replace;

// What stands in an operation's target: a place of its base, or a new character.
#[derive(Debug, Clone, Copy, PartialEq, Eq)]
pub enum Item {
    Old(u64),
    New(char),
}

// A gap: the text that is put in there, and whether the place behind it is kept; behind the last gap there is none.
#[derive(Drop)]
pub struct Gap {
    text: Vec<char>,
    keeps: bool,
}

// The gaps of an operation, from the one in front of its base to the one behind it.
pub fn gaps_of(alloc: Global, op: &Op) -> Result<Vec<Gap>, AllocError> {
    let mut gaps = Vec::new(alloc);
    let mut text = Vec::new(alloc);
    for part in op.parts() {
        match part {
            Part::Retain(count) => put_places(alloc, &mut gaps, &mut text, *count, true)?,
            Part::Insert(new) => text.extend_from_slice(new.chars())?,
            Part::Delete(count) => put_places(alloc, &mut gaps, &mut text, *count, false)?,
        }
    }
    gaps.push(Gap { text, keeps: false })?;
    Ok(gaps)
}

// So many places, the first of them behind a gap with the text.
fn put_places(
    alloc: Global,
    gaps: &mut Vec<Gap>,
    text: &mut Vec<char>,
    count: u64,
    keeps: bool,
) -> Result<(), AllocError> {
    for _ in 0..count {
        gaps.push(Gap {
            text: replace(text, Vec::new(alloc)),
            keeps,
        })?;
    }
    Ok(())
}

// The image of one operation moved through the other, gap by gap.
pub fn moved(
    alloc: Global,
    own: &[Gap],
    other: &[Gap],
    own_text_first: bool,
) -> Result<Vec<Item>, AllocError> {
    let mut image = Vec::new(alloc);
    let mut place: u64 = 0;
    for (mine, theirs) in own.iter().zip(other) {
        place = put_gap(&mut image, place, mine, theirs, own_text_first)?;
    }
    Ok(image)
}

// Of one gap: its own text, in front of the other's or behind it; the places that the other's text has in the other's target; and the
// place behind the gap, if both keep it. Answers the place behind these.
fn put_gap(
    image: &mut Vec<Item>,
    place: u64,
    mine: &Gap,
    theirs: &Gap,
    own_text_first: bool,
) -> Result<u64, AllocError> {
    if own_text_first {
        put_text(image, &mine.text)?;
    }
    let behind_text = put_old(image, place, theirs.text.len() as u64)?;
    if !own_text_first {
        put_text(image, &mine.text)?;
    }
    if theirs.keeps && mine.keeps {
        return put_old(image, behind_text, 1);
    }
    Ok(behind_text.wrapping_add(u64::from(theirs.keeps)))
}

// The image of an operation, part by part.
pub fn image_of(alloc: Global, op: &Op) -> Result<Vec<Item>, AllocError> {
    let mut image = Vec::new(alloc);
    let mut place: u64 = 0;
    for part in op.parts() {
        match part {
            Part::Retain(count) => place = put_old(&mut image, place, *count)?,
            Part::Insert(text) => put_text(&mut image, text.chars())?,
            Part::Delete(count) => place = place.wrapping_add(*count),
        }
    }
    Ok(image)
}

// So many places from this one on. Answers the place behind them.
fn put_old(image: &mut Vec<Item>, place: u64, count: u64) -> Result<u64, AllocError> {
    let mut place = place;
    for _ in 0..count {
        image.push(Item::Old(place))?;
        place = place.wrapping_add(1);
    }
    Ok(place)
}

fn put_text(image: &mut Vec<Item>, text: &[char]) -> Result<(), AllocError> {
    for c in text {
        image.push(Item::New(*c))?;
    }
    Ok(())
}
