//! What is left of the parts of an operation.
ghost use Rattle.std.specs.Prelude.{◌≡◌, ◌≤◌, ◌∷◌, MatchOption};
ghost use Rattle.ot_text.specs.declared.part.Part.TheVariants.{Insert};
ghost use Rattle.ot_text.specs.Parts.{IsNormal, norm};
ghost use Rattle.ot_transform.specs.Rest.{first_span, places_then, HasNoTextFirst};

use ot_text::{Part, Text};
use std::marker::Model;

// Parts in normal form, without the first places of the first part.
#[derive(Drop)]
pub(crate) struct Rest<'a> {
    // The parts, the first of them as it was.
    parts: &'a [Part],
    // How many places of the first part are used up: fewer than it has.
    used: u64,
}

impl<'a> Model for Rest<'a> {
    ghost use Rattle.std.specs.Prelude.{List};
    ghost use Rattle.ot_text.specs.declared.part.Part.{Part};

    ghost Value = { List Part };

    ghost use Rattle.ot_text.specs.Parts.{IsNormal};
    ghost use Rattle.ot_transform.specs.Rest.{shortened};

    ghost view = { λ r. shortened r.used r.parts.now };

    ghost invariant = { λ r. IsNormal (shortened r.used r.parts.now) };
}

impl<'a> Rest<'a> {
    // All of the parts.
    pub(crate) fn new(parts: &'a [Part]) -> Rest<'a>
        requires { IsNormal parts.now }
        ensures { result ≡ parts.now }
    {
        Rest { parts, used: 0 }
    }

    // Takes the first part, if it is an insert.
    pub(crate) fn take_text(&mut self) -> Option<&'a Text>
        ensures taken { MatchOption result
            ((self.new ≡ self.old) × HasNoTextFirst self.old)
            (λ text. self.old ≡ Insert text.now ∷ self.new) }
        ensures normal_before { IsNormal self.old }
        ensures normal { IsNormal self.new }
    {
        let (first, others) = self.parts.split_first()?;
        match first {
            Part::Insert(text) => {
                self.parts = others;
                self.used = 0;
                Some(text)
            }
            Part::Retain(_) | Part::Delete(_) => None,
        }
    }

    // How many places the first part goes over: none if it is an insert, or if no part is left.
    pub(crate) fn run(&self) -> u64
        ensures value { result ≡ first_span self.now }
        ensures normal { IsNormal self.now }
    {
        match self.parts.first() {
            Some(Part::Retain(count) | Part::Delete(count)) => *count - self.used,
            Some(Part::Insert(_)) | None => 0,
        }
    }

    // Goes on by so many places of the first part, and answers whether it keeps them.
    pub(crate) fn skip(&mut self, places: u64) -> bool
        requires some { 1 ≤ places }
        requires within { places ≤ first_span self.old }
        ensures { norm self.old ≡ places_then result places (norm self.new) }
    {
        let Some((first, others)) = self.parts.split_first() else {
            return false;
        };
        let (keeps, count) = match first {
            Part::Retain(count) => (true, *count),
            Part::Insert(_) => (false, 0),
            Part::Delete(count) => (false, *count),
        };
        if self.used + places == count {
            self.parts = others;
            self.used = 0;
        } else {
            self.used += places;
        }
        keeps
    }
}
