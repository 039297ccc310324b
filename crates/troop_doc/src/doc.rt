//! A text and its marks.
ghost use Rattle.std.specs.Prelude.{◌≡◌, ◌≤◌, ◌<◌, ◌^◌, ◌↔◌, [], IsTrue, IsOk, IsSome, IfOk, OnOk, OnErr, length, map};
ghost use Rattle.ot_text.specs.Change.{base, effect};
ghost use Rattle.ot_text.specs.Marked.{char_by, text_of, marks_of, runs_of};
ghost use Rattle.ot_text.specs.Ready.{IsReady, IsAsLarge};
ghost use Rattle.author_marks.specs.Runs.{run_of};
ghost use Rattle.troop_doc.specs.Blocks.{block_round};

use crate::block::block_round;
use author_marks::{Marks, Run};
use gap_text::GapText;
use ot_text::{Op, Text};
use std::alloc::{AllocError, Global};
use std::marker::Model;

/// A text, each character with the number of the performer who put it in.
#[derive(Debug, Drop)]
pub struct Doc {
    // The characters, in order.
    chars: GapText,
    // The number of each one's performer.
    marks: Marks,
    // So many characters, in so many runs, may be put into both without memory.
    characters: u64,
    runs: u64,
}

impl Model for Doc {
    ghost use Rattle.std.specs.Prelude.{zip};
    ghost use Rattle.troop_doc.specs.Document.{Document};
    ghost use Rattle.troop_doc.specs.Paired.{ArePaired};

    ghost Value = { Document };

    ghost view = { λ d. record { pairs = zip d.chars.chars d.marks.marks; ready = record { characters = d.characters; runs = d.runs } } };

    ghost invariant = { λ d. ArePaired d.chars d.marks (record { characters = d.characters; runs = d.runs }) };
}

impl Doc {
    /// The document with no characters.
    pub fn new(alloc: Global) -> Doc
        ensures { result.pairs ≡ [] }
    {
        Doc {
            chars: GapText::new(alloc),
            marks: Marks::new(alloc),
            characters: 0,
            runs: 0,
        }
    }

    /// How many characters it has.
    pub fn len(&self) -> u64
        ensures value { result ≡ length self.now.pairs }
        ensures short { result < 2 ^ 61 }
    {
        self.chars.len()
    }

    /// Whether it has no characters.
    pub fn is_empty(&self) -> bool
        ensures { IsTrue result ↔ (self.now.pairs ≡ []) }
    {
        self.len() == 0
    }

    /// Makes the document ready for the operation, which `apply` then takes without memory. At `Err` it is as it was.
    pub fn reserve_for(&mut self, op: &Op) -> Result<(), AllocError>
        requires { base op.now ≡ length self.old.pairs }
        ensures ok { OnOk result (IsReady op.now self.new.ready) }
        ensures pairs { self.new.pairs ≡ self.old.pairs }

        // What was made ready stays so, and is made ready again without memory.
        ensures ready { IsAsLarge self.new.ready self.old.ready }
        ensures succeeds { IsReady op.now self.old.ready → IsOk result }
        ensures err { OnErr result (self.new ≡ self.old) }
    {
        self.chars.reserve(op.inserted())?;
        self.marks.reserve_for(op)?;
        self.characters = self.characters.max(op.inserted());
        self.runs = self.runs.max(1 + 2 * op.insert_count());
        Ok(())
    }

    /// Changes the document by the operation of this performer, to whom its new characters then belong.
    pub fn apply(&mut self, op: &Op, who: u32)
        requires base { base op.now ≡ length self.old.pairs }
        requires ready { IsReady op.now self.old.ready }
        ensures { self.new.pairs ≡ effect (char_by who) op.now self.old.pairs }
    {
        self.chars.apply(op);
        self.marks.apply(op, who);
        self.characters = 0;
        self.runs = 0;
    }

    /// Its characters.
    pub fn text(&self) -> Result<Text, AllocError>
        ensures { IfOk result (λ text. text ≡ text_of self.now.pairs) }
    {
        self.chars.to_text()
    }

    /// The runs of neighbours by one performer, in order.
    pub fn runs(&self) -> Result<Vec<Run>, AllocError>
        ensures { IfOk result (λ runs. runs.items ≡ map run_of (runs_of (marks_of self.now.pairs))) }
    {
        self.marks.runs()
    }

    /// The block round a place: the largest run of neighbouring lines that aren't blank round the line that the place lies
    /// on, without its last line feed. `None` where that line is blank or the text ends before the place.
    pub fn block_at(&self, place: u64) -> Result<Option<Text>, AllocError>
        ensures value { IfOk result (λ block. block ≡ block_round (text_of self.now.pairs) place) }

        // Memory is taken for a block alone.
        ensures err { OnErr result (IsSome (block_round (text_of self.now.pairs) place)) }
    {
        if place > self.len() {
            return Ok(None);
        }
        match block_round(&self.chars, place as usize) {
            Some((start, end)) => Ok(Some(self.chars.slice(start as u64, end as u64)?)),
            None => Ok(None),
        }
    }

    /// A copy of the document.
    pub fn try_clone(&self) -> Result<Doc, AllocError>
        ensures { IfOk result (λ copy. copy.pairs ≡ self.now.pairs) }
    {
        let chars = self.chars.try_clone()?;
        let marks = self.marks.try_clone()?;
        Ok(Doc {
            chars,
            marks,
            characters: 0,
            runs: 0,
        })
    }

    /// Whether the other document has the same characters by the same performers.
    pub fn same(&self, other: &Doc) -> bool
        ensures { IsTrue result ↔ (self.now.pairs ≡ other.now.pairs) }
    {
        self.chars.same(&other.chars) && self.marks.same(&other.marks)
    }
}
