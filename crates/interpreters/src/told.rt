//! What is printed of blocks and notes.
//!
//! How many bytes of a cut block a program took isn't printed: how far it reads ahead of its end is its own and the
//! system's matter.

use child_driver::Fed;
use std::io;
use troop_entry::Note;

/// Prints the name of a run, what became of its blocks, the journal, and how many lives there were.
pub fn print_run(
    rt: &HostRuntime,
    name: &str,
    fates: &[Fed],
    notes: &[Note],
    lives: u64,
) -> io::Result<()> {
    println!(rt; "{name}")?;
    print_fates(rt, fates)?;
    print_notes(rt, notes)?;
    println!(rt; "  lives: {lives}")
}

// Prints what became of each block.
fn print_fates(rt: &HostRuntime, fates: &[Fed]) -> io::Result<()> {
    for (place, fed) in fates.iter().enumerate() {
        let fate = match fed {
            Fed::Whole => "whole",
            Fed::Cut { .. } => "cut",
            Fed::Skipped => "skipped",
        };
        println!(rt; "  block {place}: {fate}")?;
    }
    Ok(())
}

// Prints the notes of the journal.
fn print_notes(rt: &HostRuntime, notes: &[Note]) -> io::Result<()> {
    for note in notes {
        print_note(rt, *note)?;
    }
    Ok(())
}

// Prints a note, in a line.
fn print_note(rt: &HostRuntime, note: Note) -> io::Result<()> {
    match note {
        Note::Born { life, place } => println!(rt; "  life {life} was started for block {place}"),
        Note::BootCut { life, .. } => println!(rt;
            "  life {life} didn't take all of its boot text"
        ),
        Note::Cut { life, place, .. } => println!(rt;
            "  life {life} didn't take all of block {place}"
        ),
        Note::Skipped { place } => println!(rt; "  block {place} was fed to no life"),
        Note::Unclosed { life } => println!(rt; "  life {life} could not be closed"),
    }
}
