//! The steps of the generated script.
ghost use Rattle.std.specs.Prelude.{◌≡◌, ◌<◌, ◌≤◌, ◌^◌, ◌==◌, chars, IfOk, OnOk, OnErr};
ghost use Rattle.world_core.specs.Values.{state_of};
ghost use Rattle.draws.specs.Numbers.{number_after_draw, drawn_below};
ghost use Rattle.drill_run.specs.Script.{IsScripted, numbers_of, script_numbers, script_line, drawn_line, join_behind, script_join, held_length, feed_by, reset_by};

use crate::kind::Kind;
use draws::Draws;
use ot_text::Text;
use std::alloc::{AllocError, Global};
use troop_entry::Lang;
use wire_json::Step;
use world_core::World;

/// The numbers of a generated script's performers.
pub(crate) const NUMBERS: [u32; 3] = [1, 2, 3];

/// Of so many drawn feeds, one has its interpreter die.
const FEEDS: u64 = 4;

/// An interpreter that dies so takes fewer bytes than these.
const BYTES: u64 = 8;

/// Of so many drawn resets and feeds, one is a reset.
const RESETS: u64 = 8;

/// The generator's next step. While fewer than three performers are here it is the next one's join, and nothing is drawn. At `Err`
/// the draws are as they were.
pub fn script_line(alloc: Global, world: &World, draws: &mut Draws) -> Result<Step, AllocError>
    requires { IsScripted (state_of world.now) }
    ensures step { IfOk result (λ step. step ≡ (script_line (state_of world.now) draws.old).step) }
    ensures number { OnOk result (draws.new ≡ (script_line (state_of world.now) draws.old).number) }
    ensures memory { OnErr result (draws.new ≡ draws.old) }
{
    let here = world.performers().len();
    if here < NUMBERS.len() {
        return join_behind(alloc, here);
    }
    let mut drawn = *draws;
    let step = drawn_line(alloc, world, &mut drawn)?;
    *draws = drawn;
    Ok(step)
}

// The join behind so many.
fn join_behind(alloc: Global, here: usize) -> Result<Step, AllocError>
    ensures { IfOk result (λ step. step ≡ join_behind here) }
{
    match here {
        0 => join(alloc, "p1", Lang::Ghci),
        1 => join(alloc, "p2", Lang::Ghci),
        _ => join(alloc, "p3", Lang::Lines),
    }
}

// The join of this name.
fn join(alloc: Global, name: &str, lang: Lang) -> Result<Step, AllocError>
    ensures { IfOk result (λ step. step ≡ script_join (chars name.now) lang) }
{
    Ok(Step::Join {
        name: Text::of(alloc, name)?,
        lang,
        boot: Text::of(alloc, "boot\n")?,
    })
}

// A drawn step of the three performers.
fn drawn_line(alloc: Global, world: &World, draws: &mut Draws) -> Result<Step, AllocError>
    requires { numbers_of (state_of world.now) ≡ script_numbers }
    ensures step { IfOk result (λ step. step ≡ (drawn_line (state_of world.now) draws.old).step) }
    ensures number { OnOk result (draws.new ≡ (drawn_line (state_of world.now) draws.old).number) }
{
    let kind = Kind::of(draws.below(Kind::NUMBERS));
    let who = draws.below(NUMBERS.len() as u64) as u32 + 1;
    match kind {
        Kind::Edit => Ok(Step::Edit {
            who,
            op: draws.edit(alloc, held_length(world, who))?,
        }),
        Kind::Serve => Ok(Step::Serve { who }),
        Kind::Take => Ok(Step::Take { who }),
        Kind::Eval => Ok(Step::Eval {
            who,
            place: draws.below(held_length(world, who) + 1),
        }),
        Kind::Feed => Ok(feed(draws, who)),
        Kind::ResetOrFeed => reset_or_feed(alloc, draws, who),
    }
}

// How many characters the performer of this number holds.
fn held_length(world: &World, who: u32) -> u64
    requires here { numbers_of (state_of world.now) ≡ script_numbers }
    requires first { 1 ≤ who }
    requires last { who ≤ 3 }
    ensures value { result ≡ held_length who (state_of world.now) }
    ensures short { result < 2 ^ 61 }
{
    world.performers()[who as usize - 1].stage.doc().len()
}

// The performer's interpreter is fed, and perhaps dies soon.
fn feed(draws: &mut Draws, who: u32) -> Step
    ensures step { result ≡ (feed_by (drawn_below 4 draws.old == 0) who (number_after_draw draws.old)).step }
    ensures number { draws.new ≡ (feed_by (drawn_below 4 draws.old == 0) who (number_after_draw draws.old)).number }
{
    let fail_after = if draws.below(FEEDS) == 0 {
        Some(draws.below(BYTES))
    } else {
        None
    };
    Step::Feed { who, fail_after }
}

// The performer resets the text, or its interpreter is fed.
fn reset_or_feed(alloc: Global, draws: &mut Draws, who: u32) -> Result<Step, AllocError>
    ensures step { IfOk result (λ step. step ≡ reset_by (drawn_below 8 draws.old == 0) who) }
    ensures number { draws.new ≡ number_after_draw draws.old }
{
    if draws.below(RESETS) == 0 {
        return Ok(Step::Reset {
            who,
            text: Text::of(alloc, "x")?,
        });
    }
    Ok(Step::Feed {
        who,
        fail_after: None,
    })
}
