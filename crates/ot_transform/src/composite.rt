//! Two operations in a row, as one.
ghost use Rattle.std.specs.Prelude.{◌≡◌, ◌+◌, ◌-◌, ◌≤◌, IfOk, OnOk, length, drop};
ghost use Rattle.ot_text.specs.Change.{base, target, insert_then, retain_then};
ghost use Rattle.ot_text.specs.Parts.{norm, part_then, part_base, part_target, IsNormal};
ghost use Rattle.ot_transform.specs.Composition.{comp};
ghost use Rattle.ot_transform.specs.Progress.{unchanged, GoesOn, HasRoomFor};
ghost use Rattle.ot_transform.specs.Rest.{first_span, HasNoTextFirst};

use crate::rest::Rest;
use ot_text::{Op, OpBuilder, Part};
use std::alloc::{AllocError, Global};

/// The first operation, then the second, as one.
pub fn compose(alloc: Global, a: &Op, b: &Op) -> Result<Op, AllocError>
    requires { target a.now ≡ base b.now }
    ensures { IfOk result (λ op. op ≡ comp a.now b.now) }
{
    let mut composer = Composer {
        made: OpBuilder::new(alloc),
        rest: Rest::new(b.parts()),
    };
    for part in a.parts() {
        composer.add_part(part)?;
    }
    composer.put_text()?;
    Ok(composer.made.finish())
}

// What is made so far, and what is left of the second operation.
#[derive(Drop)]
struct Composer<'a> {
    // The composition of what was gone over so far.
    made: OpBuilder,
    // What is left of the second operation's parts.
    rest: Rest<'a>,
}

impl Composer<'_> {
    // Goes on by one part of the first operation.
    fn add_part(&mut self, part: &Part) -> Result<(), AllocError>
        requires { HasRoomFor (part_base part.now) (part_target part.now) self.old }
        ensures { OnOk result
            (GoesOn (part_base part.now) (part_target part.now) (part_then part.now) unchanged
            self.old self.new) }
    {
        match part {
            Part::Retain(count) => self.add_places(*count),
            Part::Insert(text) => self.add_text(text.chars()),
            Part::Delete(count) => self.made.delete(*count),
        }
    }

    // Goes on by characters that the first operation puts in.
    fn add_text(&mut self, chars: &[char]) -> Result<(), AllocError>
        requires { HasRoomFor 0 (length chars.now) self.old }
        ensures { OnOk result
            (GoesOn 0 (length chars.now) (insert_then chars.now) unchanged self.old self.new) }
    {
        let mut at = 0;
        while at < chars.len() {
            at += self.add_text_run(&chars[at..])?;
        }
        Ok(())
    }

    // Goes on by the first of these characters, and answers by how many.
    fn add_text_run(&mut self, chars: &[char]) -> Result<usize, AllocError>
        requires some { 1 ≤ length chars.now }
        requires room { HasRoomFor 0 (length chars.now) self.old }
        ensures count { IfOk result (λ n. (1 ≤ n) × (n ≤ length chars.now)) }
        ensures goes_on { IfOk result (λ n.
            GoesOn 0 n (insert_then chars.now) (insert_then (drop n chars.now)) self.old self.new) }
    {
        self.put_text()?;
        let count = self.rest.run().min(chars.len() as u64);
        let end = count as usize;
        if self.rest.skip(count) {
            self.made.insert_chars(&chars[..end])?;
        }
        Ok(end)
    }

    // Goes on by places that the first operation keeps.
    fn add_places(&mut self, places: u64) -> Result<(), AllocError>
        requires { HasRoomFor places places self.old }
        ensures { OnOk result (GoesOn places places (retain_then places) unchanged self.old self.new) }
    {
        let mut left = places;
        while left > 0 {
            left -= self.add_places_run(left)?;
        }
        Ok(())
    }

    // Goes on by the first of these places, and answers by how many.
    fn add_places_run(&mut self, places: u64) -> Result<u64, AllocError>
        requires some { 1 ≤ places }
        requires room { HasRoomFor places places self.old }
        ensures count { IfOk result (λ n. (1 ≤ n) × (n ≤ places)) }
        ensures goes_on { IfOk result (λ n.
            GoesOn n n (retain_then places) (retain_then (places - n)) self.old self.new) }
    {
        self.put_text()?;
        let run = self.rest.run().min(places);
        if self.rest.skip(run) {
            self.made.retain(run)?;
        } else {
            self.made.delete(run)?;
        }
        Ok(run)
    }

    // Puts in the text that the second operation puts in next, if there is one.
    fn put_text(&mut self) -> Result<(), AllocError>
        requires { HasRoomFor 0 0 self.old }
        ensures goes_on { OnOk result (GoesOn 0 0 unchanged unchanged self.old self.new) }
        ensures none_left { OnOk result (HasNoTextFirst self.new.rest) }
        ensures normal { OnOk result (IsNormal self.new.rest) }
        ensures run { OnOk result (1 ≤ base (norm self.new.rest) → 1 ≤ first_span self.new.rest) }
    {
        if let Some(text) = self.rest.take_text() {
            self.made.insert(text)?;
        }
        Ok(())
    }
}
