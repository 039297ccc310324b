//! What a line of a script means.
ghost use Rattle.std.specs.Prelude.{◌≡◌, Option, IfOk, OnErr};
ghost use Rattle.wire_json.specs.Reads.{Answers};
ghost use Rattle.wire_json.specs.declared.steps.Step.{Step};
ghost use Rattle.replay_run.specs.Script.{meaning_of, meaning_of_step};

use std::alloc::{AllocError, Global};
use wire_json::{Read, Step, is_blank_line, read_step};

/// What a line of a script means.
#[derive(Debug, Drop)]
pub enum Meaning {
    /// Nothing: it has white space alone.
    Blank,
    /// This step.
    Step(Step),
    /// It isn't in the grammar of steps.
    Bad,
}

/// What a line means.
#[tactic(auto, unfolding(crate::specs::Script::meaning_of))]
pub fn read_line(alloc: Global, line: &[u8]) -> Result<Meaning, AllocError>
    ensures { IfOk result (λ meaning. meaning ≡ meaning_of line.now) }
{
    if is_blank_line(line) {
        return Ok(Meaning::Blank);
    }
    meaning_in(read_step(alloc, line))
}

// What a line means that has more than white space, by what was read.
fn meaning_in(read: Read<Step>) -> Result<Meaning, AllocError>
    ensures meaning { (step : Option Step) → Answers read step → IfOk result (λ meaning. meaning ≡ meaning_of_step step) }
    ensures wanting { OnErr result (read ≡ Read.Memory) }
{
    match read {
        Read::Value(step) => Ok(Meaning::Step(step)),
        Read::Bad => Ok(Meaning::Bad),
        Read::Memory => Err(AllocError),
    }
}
