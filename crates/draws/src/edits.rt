//! Edits drawn for a text.
ghost use Rattle.std.specs.Prelude.{◌≡◌, ◌<◌, ◌≤◌, ◌-◌, ◌∷◌, [], IfOk, OnOk, OnErr};
ghost use Rattle.ot_text.specs.Parts.{norm};
ghost use Rattle.ot_text.specs.declared.part.Part.TheVariants.{Retain, Insert, Delete};
ghost use Rattle.draws.specs.Numbers.{number_after_draw};
ghost use Rattle.draws.specs.Edits.{drawn_letter, drawn_edit, number_after_edit};

use crate::Draws;
use ot_text::{MAX_LEN, Op, OpBuilder};
use std::alloc::{AllocError, Global};

/// The characters that a drawn edit may put in.
const LETTERS: [char; 12] = ['a', 'b', 'c', 'd', 'e', 'f', 'g', 'h', 'i', 'j', ' ', '\n'];

/// One drawn edit of three takes a character away, unless the place drawn is the text's end.
const CHANCES: u64 = 3;

impl Draws {
    /// Draws an edit for a text of so many characters: at a place of it one character goes, or a letter is put in. At `Err` they are
    /// as they were.
    pub fn edit(&mut self, alloc: Global, length: u64) -> Result<Op, AllocError>
        requires { length < MAX_LEN }
        ensures drawn { IfOk result (λ op. op ≡ drawn_edit length self.old) }
        ensures number { OnOk result (self.new ≡ number_after_edit length self.old) }
        ensures memory { OnErr result (self.new ≡ self.old) }
    {
        let mut draws = *self;
        let place = draws.below(length + 1);
        let chance = draws.below(CHANCES);
        let op = if chance == 0 && place < length {
            without(alloc, place, length)?
        } else {
            let letter = draws.letter();
            with(alloc, place, letter, length)?
        };
        *self = draws;
        Ok(op)
    }

    // Draws a letter.
    fn letter(&mut self) -> char
        ensures drawn { result ≡ drawn_letter self.old }
        ensures number { self.new ≡ number_after_draw self.old }
    {
        LETTERS[self.below(LETTERS.len() as u64) as usize]
    }
}

// On a text of so many characters, the one at this place goes.
fn without(alloc: Global, place: u64, length: u64) -> Result<Op, AllocError>
    requires place { place < length }
    requires short { length < MAX_LEN }
    ensures { IfOk result (λ op. op ≡ norm (Retain place ∷ Delete 1 ∷ Retain (length - place - 1) ∷ [])) }
{
    let mut builder = OpBuilder::new(alloc);
    builder.retain(place)?;
    builder.delete(1)?;
    builder.retain(length - place - 1)?;
    Ok(builder.finish())
}

// On a text of so many characters, the letter is put in at this place.
fn with(alloc: Global, place: u64, letter: char, length: u64) -> Result<Op, AllocError>
    requires place { place ≤ length }
    requires short { length < MAX_LEN }
    ensures { IfOk result (λ op. op ≡ norm (Retain place ∷ Insert (letter ∷ []) ∷ Retain (length - place) ∷ [])) }
{
    let mut builder = OpBuilder::new(alloc);
    builder.retain(place)?;
    builder.insert_chars(&[letter])?;
    builder.retain(length - place)?;
    Ok(builder.finish())
}
