//! What the readers of lines answer.
ghost use Rattle.std.specs.Prelude.{◌≡◌, Option, Ok, None, IfOk, IsErr, option_map};
ghost use Rattle.serde_json.specs.View.{view};
ghost use Rattle.wire_json.specs.Fields.{value_of, is_blank_line};
ghost use Rattle.wire_json.specs.Reads.{Answers};

use serde_json::Value;
use std::alloc::{AllocError, Global};

/// What a reader of lines answers.
#[derive(Debug, Drop)]
pub enum Read<T> {
    /// The line is in the grammar, and has this value.
    Value(T),
    /// The line isn't in the grammar.
    Bad,
    /// Memory was wanting.
    Memory,
}

// What was found, as an answer. It is want of memory only where that came in place of finding out.
pub(crate) fn answer<T>(found: Result<Option<T>, AllocError>) -> Read<T>
    ensures value { (of : Option T) → IfOk found (λ o. o ≡ of) → Answers result of }
    ensures bad { found ≡ Ok None → result ≡ Read.Bad }
    ensures wanting { result ≡ Read.Memory → IsErr found }
{
    match found {
        Ok(Some(value)) => Read::Value(value),
        Ok(None) => Read::Bad,
        Err(_) => Read::Memory,
    }
}

// The JSON value of a line, if it is one.
pub(crate) fn read_value(alloc: Global, line: &[u8]) -> Result<Option<Value>, AllocError>
    ensures { IfOk result (λ value. option_map view value ≡ value_of line.now) }
{
    match Value::from_slice(alloc, line) {
        Ok(value) => Ok(Some(value)),
        Err(error) => {
            if error.is_memory() {
                Err(AllocError)
            } else {
                Ok(None)
            }
        }
    }
}

/// Whether a line has white space of JSON alone. Such lines of a script or of commands are skipped.
pub fn is_blank_line(line: &[u8]) -> bool
    ensures { result ≡ is_blank_line line.now }
{
    line.iter()
        .all(|b| matches!(*b, b' ' | b'\t' | b'\n' | b'\r'))
}
