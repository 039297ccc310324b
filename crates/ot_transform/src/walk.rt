//! A walk over two operations on one base.
ghost use Rattle.std.specs.Prelude.{◌≡◌, MatchOption};
ghost use Rattle.ot_text.specs.Parts.{IsNormal};
ghost use Rattle.ot_transform.specs.Walk.{HasOneBase, IsWalkedOut, IsStep};

use crate::rest::Rest;
use crate::step::Step;
use ot_text::Part;

// What is left of the parts of both.
#[derive(Drop)]
pub(crate) struct Walk<'a> {
    // What is left of the first operation's parts.
    first: Rest<'a>,
    // What is left of the second one's.
    second: Rest<'a>,
}

impl<'a> Walk<'a> {
    // A walk over all parts of both.
    pub(crate) fn new(first: &'a [Part], second: &'a [Part]) -> Walk<'a>
        requires first { IsNormal first.now }
        requires second { IsNormal second.now }
        ensures first { result.first ≡ first.now }
        ensures second { result.second ≡ second.now }
    {
        Walk {
            first: Rest::new(first),
            second: Rest::new(second),
        }
    }

    // The next step, or none at the end. Where both put a text in, the first one's comes first.
    pub(crate) fn step(&mut self) -> Option<Step<'a>>
        requires { HasOneBase self.old }
        ensures { MatchOption result (IsWalkedOut self.old) (λ step. IsStep step self.old self.new) }
    {
        if let Some(text) = self.first.take_text() {
            return Some(Step::First(text));
        }
        if let Some(text) = self.second.take_text() {
            return Some(Step::Second(text));
        }
        let places = self.first.run().min(self.second.run());
        if places == 0 {
            return None;
        }
        let first_keeps = self.first.skip(places);
        let second_keeps = self.second.skip(places);
        Some(Step::over(places, first_keeps, second_keeps))
    }
}
