//! Runs of one program.

use crate::told::print_run;
use anyhow::Result;
use child_driver::{Driver, Fed};
use ot_text::Text;
use pipe_ports::Hatch;
use process_hatch::ProcessHatch;
use std::alloc::{AllocError, Global};
use troop_entry::{Block, Lang};

/// How many bytes the flood has: four times what a pipe of Linux holds.
const FLOOD: usize = 1 << 18;

/// A text that a program is given.
#[derive(Clone, Copy, Debug)]
pub enum Piece {
    Text(&'static str),
    /// One line, longer than a pipe.
    Flood,
}

/// A program, and what it is given.
#[derive(Clone, Copy, Debug)]
pub struct Run {
    /// What is printed of it.
    pub name: &'static str,
    /// The program's name or path, and behind it what it is told.
    pub words: &'static [&'static str],
    /// What each of its lives gets first.
    pub boot: Piece,
    /// The blocks, in order.
    pub blocks: &'static [Piece],
}

/// Feeds the blocks, closes the program, and prints what became of each block, the journal, and how many lives there were.
pub fn play(rt: &HostRuntime, run: &Run) -> Result<()> {
    let mut driver = driver_of(rt, run)?;
    play_by(rt, run, &mut driver)
}

// Plays the run by a driver of its program.
fn play_by<H: Hatch>(rt: &HostRuntime, run: &Run, driver: &mut Driver<H>) -> Result<()> {
    let fates = feed_and_close(rt.alloc(), driver, run.blocks)?;
    print_run(rt, run.name, &fates, driver.journal(), driver.lives())?;
    Ok(())
}

// Feeds the blocks, closes the program, and answers what became of each block.
fn feed_and_close<H: Hatch>(
    alloc: Global,
    driver: &mut Driver<H>,
    pieces: &[Piece],
) -> Result<Vec<Fed>, AllocError> {
    let fates = feed_all(alloc, driver, pieces)?;
    driver.close();
    Ok(fates)
}

// A driver of the program, which was fed nothing yet.
fn driver_of<'r>(
    rt: &'r HostRuntime,
    run: &Run,
) -> Result<Driver<ProcessHatch<'r, HostRuntime>>, AllocError> {
    let alloc = rt.alloc();
    let words = owned(alloc, run.words)?;
    let boot = text_of(alloc, run.boot)?.into_bytes();
    let hatch = ProcessHatch::new(rt, alloc, words);
    Ok(Driver::new(alloc, Lang::Lines, boot, hatch))
}

// Feeds the blocks, whose positions are 0, 1, 2, and answers what became of each.
fn feed_all<H: Hatch>(
    alloc: Global,
    driver: &mut Driver<H>,
    pieces: &[Piece],
) -> Result<Vec<Fed>, AllocError> {
    let mut fates = Vec::new(alloc);
    for (place, piece) in pieces.iter().enumerate() {
        let block = block_of(alloc, place as u64, *piece)?;
        fates.push(driver.feed(&block)?)?;
    }
    Ok(fates)
}

// The block of this text at this position.
fn block_of(alloc: Global, place: u64, piece: Piece) -> Result<Block, AllocError> {
    let text = text_of(alloc, piece)?;
    Ok(Block {
        place,
        text: Text::of(alloc, text.as_str())?,
    })
}

// Copies of the words.
fn owned(alloc: Global, words: &[&str]) -> Result<Vec<String>, AllocError> {
    let mut owned = Vec::new(alloc);
    for word in words {
        owned.push(String::from_str(alloc, word)?)?;
    }
    Ok(owned)
}

// The text of a piece.
fn text_of(alloc: Global, piece: Piece) -> Result<String, AllocError> {
    match piece {
        Piece::Text(text) => String::from_str(alloc, text),
        Piece::Flood => "#".repeat(alloc, FLOOD),
    }
}
