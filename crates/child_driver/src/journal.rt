//! The journal of a driver: its notes, in order.
ghost use Rattle.std.specs.Prelude.{◌≡◌, ◌+◌, ◌≤◌, [], ◌∷◌, ◌++◌, OnOk};
ghost use Rattle.troop_entry.specs.declared.note.Note.TheVariants.{Born};
ghost use Rattle.child_driver.specs.Drivers.{births};

use std::alloc::{AllocError, Global};
use std::marker::Model;
use troop_entry::Note;

/// Notes, with room for more, and the count of the lives that they tell of.
#[derive(Drop)]
pub(crate) struct Journal {
    notes: Vec<Note>,
    lives: u64,
    // There is room for so many more notes.
    spare: usize,
}

impl Model for Journal {
    ghost use Rattle.std.specs.Prelude.{vec_len, vec_capacity};
    ghost use Rattle.child_driver.specs.JournalInvariant.{JournalValue, IsJournal};

    ghost Value = { JournalValue };

    ghost view = { λ j. record { notes = j.notes.items; spare = j.spare } };

    ghost invariant = { λ j. IsJournal j.notes.items j.lives (vec_len j.notes) (vec_capacity j.notes) j.spare };
}

impl Journal {
    // A journal without notes.
    pub(crate) fn new(alloc: Global) -> Journal
        ensures notes { result.notes ≡ [] }
        ensures spare { result.spare ≡ 0 }
    {
        Journal {
            notes: Vec::new(alloc),
            lives: 0,
            spare: 0,
        }
    }

    // Makes room for so many more notes.
    pub(crate) fn reserve(&mut self, more: usize) -> Result<(), AllocError>
        ensures notes { self.new.notes ≡ self.old.notes }
        ensures ok { OnOk result (more ≤ self.new.spare) }
        ensures spare { self.old.spare ≤ self.new.spare }
    {
        if self.spare < more {
            self.notes.reserve(more)?;
            self.spare = more;
        }
        Ok(())
    }

    // Notes a birth, and gives the life's number.
    pub(crate) fn born(&mut self, place: u64) -> u64
        requires { 1 ≤ self.old.spare }
        ensures life { result ≡ births self.old.notes + 1 }
        ensures notes { self.new.notes ≡ self.old.notes ++ Born (births self.old.notes + 1) place ∷ [] }
        ensures spare { self.new.spare + 1 ≡ self.old.spare }
    {
        self.lives += 1;
        let life = self.lives;
        self.notes.push_reserved(Note::Born { life, place });
        self.spare -= 1;
        life
    }

    // Adds a note that tells of no birth.
    pub(crate) fn push(&mut self, note: Note)
        requires room { 1 ≤ self.old.spare }
        requires no_birth { births (note ∷ []) ≡ 0 }
        ensures notes { self.new.notes ≡ self.old.notes ++ note ∷ [] }
        ensures spare { self.new.spare + 1 ≡ self.old.spare }
    {
        self.notes.push_reserved(note);
        self.spare -= 1;
    }

    // How many lives the notes tell of.
    pub(crate) fn lives(&self) -> u64
        ensures { result ≡ births self.now.notes }
    {
        self.lives
    }

    // The notes.
    pub(crate) fn notes(&self) -> &[Note]
        ensures { result.now ≡ self.now.notes }
    {
        self.notes.as_slice()
    }
}
