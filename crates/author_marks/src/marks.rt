//! The marks of a text, one for each character.
ghost use Rattle.std.specs.Prelude.{◌≡◌, ◌≤◌, ◌<◌, ◌^◌, ◌↔◌, [], IsTrue, IsOk, IfOk, OnOk, OnErr, length, map};
ghost use Rattle.ot_text.specs.Change.{base, effect};
ghost use Rattle.ot_text.specs.Marked.{runs_of};
ghost use Rattle.ot_text.specs.Ready.{IsReady, IsAsLarge};
ghost use Rattle.author_marks.specs.Authorship.{mark_by};
ghost use Rattle.author_marks.specs.Runs.{run_of};

use crate::Run;
use crate::joined::{joined_runs, same_runs};
use crate::walk::apply_parts;
use gap_buffer::GapBuffer;
use ot_text::Op;
use std::alloc::{AllocError, Global};
use std::marker::Model;

// How many characters a text has at most.
pub(crate) const MOST_CHARACTERS: u64 = (1 << 61) - 1;

// What stands in room that was never used.
const FILLER: Run = Run { who: 0, count: 0 };

/// The number of the performer who put it in, for each character of a text.
#[derive(Debug, Drop)]
pub struct Marks {
    // The runs of marks, in order. A run in which the gap stands is two of them, one on either side of it.
    runs: GapBuffer<Run>,
    // How many marks stand in front of the gap, and how many in all.
    before: u64,
    count: u64,
}

impl Model for Marks {
    ghost use Rattle.std.specs.Prelude.{◌-◌};
    ghost use Rattle.gap_buffer.specs.Gapped.{whole_list};
    ghost use Rattle.author_marks.specs.declared.marks.TheConstants.{MOST_CHARACTERS};
    ghost use Rattle.author_marks.specs.GapRuns.{written_marks};
    ghost use Rattle.author_marks.specs.Authorship.{Authorship, AreCounted};

    ghost Value = { Authorship };

    ghost view = { λ m. record { marks = written_marks (whole_list m.runs); ready = record { characters = MOST_CHARACTERS - m.count; runs = m.runs.spare } } };

    ghost invariant = { λ m. AreCounted m.runs m.before m.count };
}

impl Marks {
    /// The marks of the empty text.
    pub fn new(alloc: Global) -> Marks
        ensures { result.marks ≡ [] }
    {
        Marks {
            runs: GapBuffer::new(alloc),
            before: 0,
            count: 0,
        }
    }

    /// How many characters have marks.
    pub fn len(&self) -> u64
        ensures value { result ≡ length self.now.marks }
        ensures short { result < 2 ^ 61 }
    {
        self.count
    }

    /// Whether no character has a mark.
    pub fn is_empty(&self) -> bool
        ensures { IsTrue result ↔ (self.now.marks ≡ []) }
    {
        self.len() == 0
    }

    /// Makes the marks ready for the operation, which `apply` then takes without memory. At `Err` they are as they were.
    pub fn reserve_for(&mut self, op: &Op) -> Result<(), AllocError>
        requires { base op.now ≡ length self.old.marks }
        ensures ok { OnOk result (IsReady op.now self.new.ready) }
        ensures marks { self.new.marks ≡ self.old.marks }

        // What was made ready stays so, and is made ready again without memory.
        ensures ready { IsAsLarge self.new.ready self.old.ready }
        ensures succeeds { IsReady op.now self.old.ready → IsOk result }
        ensures err { OnErr result (self.new ≡ self.old) }
    {
        // Runs take little memory, but the text that they are of can't have more characters.
        if op.inserted() > MOST_CHARACTERS - self.count {
            return Err(AllocError);
        }
        self.runs
            .reserve(1 + 2 * op.insert_count() as usize, FILLER)
    }

    /// Changes the marks as the operation by this performer changes the text: its new characters are marked with its number.
    pub fn apply(&mut self, op: &Op, who: u32)
        requires base { base op.now ≡ length self.old.marks }
        requires ready { IsReady op.now self.old.ready }
        ensures { self.new.marks ≡ effect (mark_by who) op.now self.old.marks }
    {
        self.before = apply_parts(&mut self.runs, self.before, op, who);
        self.count = op.target();
    }

    /// The runs of neighbours of one number, in order.
    pub fn runs(&self) -> Result<Vec<Run>, AllocError>
        ensures { IfOk result (λ runs. runs.items ≡ map run_of (runs_of self.now.marks)) }
    {
        joined_runs(&self.runs)
    }

    /// Marks of the same characters.
    pub fn try_clone(&self) -> Result<Marks, AllocError>
        ensures { IfOk result (λ copy. copy.marks ≡ self.now.marks) }
    {
        let runs = self.runs.try_clone()?;
        Ok(Marks {
            runs,
            before: self.before,
            count: self.count,
        })
    }

    /// Whether the other marks are the same.
    pub fn same(&self, other: &Marks) -> bool
        ensures { IsTrue result ↔ (self.now.marks ≡ other.now.marks) }
    {
        same_runs(&self.runs, &other.runs)
    }
}
