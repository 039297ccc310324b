//! One step of a walk over two operations on one base.
ghost use Rattle.std.specs.Prelude.{◌≡◌, OnOk, OnErr};
ghost use Rattle.ot_text.specs.Change.{Change, then};
ghost use Rattle.ot_transform.specs.Step.{left_step, right_step, StepFits};
ghost use Rattle.ot_transform.specs.Walk.{GoesOver, Leads};

use ot_text::{OpBuilder, Text};
use std::alloc::AllocError;

// A text that one of the two puts in, or a number of places that both go over.
#[derive(Drop)]
pub(crate) enum Step<'a> {
    First(&'a Text),
    Second(&'a Text),
    Keep(u64),
    FirstDeletes(u64),
    SecondDeletes(u64),
    BothDelete(u64),
}

impl<'a> Step<'a> {
    // The step over so many places, which each of the two keeps or removes.
    pub(crate) fn over(places: u64, first_keeps: bool, second_keeps: bool) -> Step<'a>
        ensures { (a b a' b' : Change)
            → GoesOver places first_keeps second_keeps a b a' b' → Leads result a b a' b' }
    {
        match (first_keeps, second_keeps) {
            (true, true) => Step::Keep(places),
            (false, true) => Step::FirstDeletes(places),
            (true, false) => Step::SecondDeletes(places),
            (false, false) => Step::BothDelete(places),
        }
    }

    // Puts behind `made` what the step does in the first operation, moved through the second.
    #[tactic(auto, using(crate::proofs::StepFits::step_lengths))]
    pub(crate) fn put_left(&self, made: &mut OpBuilder) -> Result<(), AllocError>
        requires { StepFits made.old (left_step self.now) }
        ensures ok { OnOk result (made.new ≡ then made.old (left_step self.now)) }
        ensures err { OnErr result (made.new ≡ made.old) }
    {
        match self {
            Step::First(text) => made.insert(text),
            Step::Second(text) => made.retain(text.len()),
            Step::Keep(places) => made.retain(*places),
            Step::FirstDeletes(places) => made.delete(*places),
            Step::SecondDeletes(_) | Step::BothDelete(_) => Ok(()),
        }
    }

    // Puts behind `made` what the step does in the second operation, moved through the first.
    #[tactic(auto, using(crate::proofs::StepFits::step_lengths))]
    pub(crate) fn put_right(&self, made: &mut OpBuilder) -> Result<(), AllocError>
        requires { StepFits made.old (right_step self.now) }
        ensures ok { OnOk result (made.new ≡ then made.old (right_step self.now)) }
        ensures err { OnErr result (made.new ≡ made.old) }
    {
        match self {
            Step::First(text) => made.retain(text.len()),
            Step::Second(text) => made.insert(text),
            Step::Keep(places) => made.retain(*places),
            Step::SecondDeletes(places) => made.delete(*places),
            Step::FirstDeletes(_) | Step::BothDelete(_) => Ok(()),
        }
    }
}
