//! A text over a gap buffer.
ghost use Rattle.std.specs.Prelude.{◌≡◌, ◌+◌, ◌≤◌, ◌<◌, ◌^◌, ◌↔◌, ◌++◌, [], length, drop, map, IsOk, IsTrue, IfOk, OnOk, OnErr, slice_range, slice_index};
ghost use Rattle.ot_text.specs.declared.op.TheConstants.{MAX_LEN};
ghost use Rattle.ot_text.specs.Change.{base, target, inserted, effect, plain};
ghost use Rattle.ot_text.specs.Parts.{part_base, part_target, part_inserted};
ghost use Rattle.ot_text.specs.Pieces.{list_after_part};

use gap_buffer::GapBuffer;
use ot_text::{Op, Part, Text};
use std::alloc::{AllocError, Global};
use std::marker::Model;

// What stands in room that was never used.
const FILLER: char = ' ';

/// The characters of a text, which operations change in place.
#[derive(Debug, Drop)]
pub struct GapText {
    // The characters, in order.
    chars: GapBuffer<char>,
}

impl Model for GapText {
    ghost use Rattle.gap_text.specs.SpacedText.{SpacedText};
    ghost use Rattle.gap_buffer.specs.Gapped.{whole_list};

    ghost Value = { SpacedText };

    ghost view = { λ t. record { chars = whole_list t.chars; spare = t.chars.spare } };
}

impl GapText {
    /// The text with no characters.
    pub fn new(alloc: Global) -> GapText
        ensures chars { result.chars ≡ [] }
        ensures spare { result.spare ≡ 0 }
    {
        GapText {
            chars: GapBuffer::new(alloc),
        }
    }

    /// How many characters it has.
    pub fn len(&self) -> u64
        ensures value { result ≡ length self.now.chars }
        ensures short { result < 2 ^ 61 }
    {
        // Seen as a slice, they are fewer than 2^61, with the gap among them.
        let room = self.chars.slots();
        (room.len() - self.chars.spare()) as u64
    }

    /// Whether it has no characters.
    pub fn is_empty(&self) -> bool
        ensures { IsTrue result ↔ (self.now.chars ≡ []) }
    {
        self.len() == 0
    }

    /// Makes room for so many more characters, which `apply` then puts in without memory. At `Err` the text is as it was.
    pub fn reserve(&mut self, extra: u64) -> Result<(), AllocError>
        ensures ok { OnOk result (extra ≤ self.new.spare) }
        ensures chars { self.new.chars ≡ self.old.chars }

        // What room there was stays, and is made again without memory.
        ensures spare { self.old.spare ≤ self.new.spare }
        ensures succeeds { extra ≤ self.old.spare → IsOk result }
        ensures err { OnErr result (self.new ≡ self.old) }
    {
        self.chars.reserve(extra as usize, FILLER)
    }

    /// Changes the text by the operation, in place: what lies between its edits and those before it is moved, and nothing else.
    pub fn apply(&mut self, op: &Op)
        requires base { base op.now ≡ length self.old.chars }
        requires spare { inserted op.now ≤ self.old.spare }
        ensures chars { self.new.chars ≡ effect plain op.now self.old.chars }
        ensures spare { self.old.spare ≤ self.new.spare + inserted op.now }
    {
        let mut place = 0;
        for part in op.parts() {
            place = self.apply_part(part, place);
        }
    }

    // Does the part at the place, and answers the place behind what it puts there.
    fn apply_part(&mut self, part: &Part, place: usize) -> usize
        requires within { place + part_base part.now ≤ length self.old.chars }
        requires spare { part_inserted part.now ≤ self.old.spare }
        requires short { place + part_target part.now ≤ MAX_LEN }
        ensures place { result ≡ place + part_target part.now }
        ensures chars { self.new.chars ≡ list_after_part plain part.now place self.old.chars }
        ensures spare { self.old.spare ≤ self.new.spare + part_inserted part.now }
    {
        match part {
            Part::Retain(count) => place + *count as usize,
            Part::Insert(text) => {
                self.chars.move_to(place);
                self.chars.put_front(text.chars());
                place + text.chars().len()
            }
            Part::Delete(count) => {
                self.chars.move_to(place);
                self.chars.take_behind(*count as usize);
                place
            }
        }
    }

    /// The character at the place.
    pub fn at(&self, place: usize) -> char
        requires { place < length self.now.chars }
        ensures { result ≡ slice_index self.now.chars place }
    {
        let front = self.chars.front();
        if place < front.len() {
            front[place]
        } else {
            self.chars.behind()[place - front.len()]
        }
    }

    /// The characters from the one place to the other.
    pub fn slice(&self, start: u64, end: u64) -> Result<Text, AllocError>
        requires order { start ≤ end }
        requires within { end ≤ length self.now.chars }
        ensures { IfOk result (λ text. text ≡ slice_range self.now.chars start end) }
    {
        let start = start as usize;
        let end = end as usize;
        let front = self.chars.front();
        let behind = self.chars.behind();
        let alloc = self.chars.allocator();
        let split = front.len();
        joined(
            alloc,
            &front[start.min(split)..end.min(split)],
            &behind[start.max(split) - split..end.max(split) - split],
        )
    }

    /// Its characters.
    pub fn to_text(&self) -> Result<Text, AllocError>
        ensures { IfOk result (λ text. text ≡ self.now.chars) }
    {
        let alloc = self.chars.allocator();
        joined(alloc, self.chars.front(), self.chars.behind())
    }

    /// A copy of the text, with its spare room.
    pub fn try_clone(&self) -> Result<GapText, AllocError>
        ensures { IfOk result (λ copy. copy ≡ self.now) }
    {
        let chars = self.chars.try_clone()?;
        Ok(GapText { chars })
    }

    /// Whether the other text has the same characters.
    pub fn same(&self, other: &GapText) -> bool
        ensures { IsTrue result ↔ (self.now.chars ≡ other.now.chars) }
    {
        let len = self.len() as usize;
        if len != other.len() as usize {
            return false;
        }
        for place in 0..len {
            if self.at(place) != other.at(place) {
                return false;
            }
        }
        true
    }
}

// The text of the characters of the one slice and then those of the other.
fn joined(alloc: Global, front: &[char], behind: &[char]) -> Result<Text, AllocError>
    ensures { IfOk result (λ text. text ≡ front.now ++ behind.now) }
{
    let mut text = Text::from_chars(alloc, front)?;
    text.append(&Text::from_chars(alloc, behind)?)?;
    Ok(text)
}
