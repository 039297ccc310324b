//! The commands of a performer, read from their lines.
ghost use Rattle.std.specs.Prelude.{◌≡◌, IfOk, map};
ghost use Rattle.serde_json.specs.View.{view};
ghost use Rattle.wire_json.specs.Reads.{Answers};
ghost use Rattle.wire_json.specs.Commands.{command_alone, command_of_one, command_of_word, command_of_data, command_of_line};

use crate::operations::read_op;
use crate::read::{Read, answer, read_value};
use crate::values::{read_count, read_text};
use ot_text::{Op, Text};
use serde_json::Value;
use std::alloc::{AllocError, Global};

/// A command of a performer.
#[derive(Debug, Drop)]
pub enum Command {
    /// Types this.
    Edit(Op),
    /// Evaluates the block at this place.
    Eval(u64),
    /// Resets the text.
    Reset(Text),
    /// Waits until so many entries were taken.
    Until(u64),
    /// Prints the performer's line.
    Show,
    /// Leaves.
    Leave,
}

/// The command of a line.
pub fn read_command(alloc: Global, line: &[u8]) -> Read<Command>
    ensures { Answers result (command_of_line line.now) }
{
    answer(command_in(alloc, line))
}

// The command of a line, if it is one.
fn command_in(alloc: Global, line: &[u8]) -> Result<Option<Command>, AllocError>
    ensures { IfOk result (λ command. command ≡ command_of_line line.now) }
{
    match read_value(alloc, line)? {
        Some(value) => read_array(alloc, &value),
        None => Ok(None),
    }
}

// The command of a value.
fn read_array(alloc: Global, value: &Value) -> Result<Option<Command>, AllocError>
    ensures { IfOk result (λ command. command ≡ command_of_data (view value.now)) }
{
    let Some(items) = value.as_array() else {
        return Ok(None);
    };
    let Some((first, others)) = items.split_first() else {
        return Ok(None);
    };
    match first.as_str() {
        Some(word) => read_others(alloc, word, others),
        None => Ok(None),
    }
}

// The command of a word and of the elements behind it.
fn read_others(alloc: Global, word: &str, others: &[Value]) -> Result<Option<Command>, AllocError>
    ensures { IfOk result (λ command. command ≡ command_of_word word.now (map view others.now)) }
{
    match others {
        [] => Ok(read_alone(word)),
        [x] => read_one(alloc, word, x),
        _ => Ok(None),
    }
}

// The command of a word with nothing behind it.
fn read_alone(word: &str) -> Option<Command>
    ensures { result ≡ command_alone word.now }
{
    match word {
        "show" => Some(Command::Show),
        "leave" => Some(Command::Leave),
        _ => None,
    }
}

// The command of a word with one element behind it.
fn read_one(alloc: Global, word: &str, x: &Value) -> Result<Option<Command>, AllocError>
    ensures { IfOk result (λ command. command ≡ command_of_one word.now (view x.now)) }
{
    match word {
        "edit" => Ok(read_op(alloc, x)?.map(Command::Edit)),
        "eval" => Ok(read_count(x).map(Command::Eval)),
        "reset" => Ok(read_text(alloc, x)?.map(Command::Reset)),
        "until" => Ok(read_count(x).map(Command::Until)),
        _ => Ok(None),
    }
}
