//! A vector: operations on a text, and what comes of them.

use ot_text::{Op, OpBuilder, Part, Text};
use serde_json::Value;
use std::alloc::{AllocError, Global};

/// Operations on a text, and what comes of them.
#[derive(Drop)]
pub struct Vector {
    /// What the vector shows.
    pub name: String,
    /// The first operation as its parts are spelled in another way.
    pub spelled: Op,
    /// Two operations that meet on one text.
    pub met: Met,
    /// The first of them, and an operation behind it.
    pub chained: Chained,
}

/// Two operations for one text, and what comes of both.
#[derive(Drop)]
pub struct Met {
    /// The text that the two are for.
    pub text: Text,
    pub first: Op,
    pub second: Op,
    /// The first operation moved through the second, as the first of the two.
    pub first_moved: Op,
    /// The second operation moved through the first.
    pub second_moved: Op,
    /// The text behind both.
    pub merged: Text,
}

/// An operation behind the first one, and what comes of the two.
#[derive(Drop)]
pub struct Chained {
    /// An operation on what the first one makes of the text.
    pub next: Op,
    /// The first operation and then the next as one.
    pub composed: Op,
    /// The text behind the first operation and the next.
    pub after: Text,
}

// Why a line gives no vector.
#[derive(Clone, Copy)]
enum ReadError {
    Memory,
    NoVector,
}

impl From<AllocError> for ReadError {
    fn from(_error: AllocError) -> ReadError {
        ReadError::Memory
    }
}

impl Vector {
    /// The vector of a line, if it is one and its operations are normal.
    pub fn read(alloc: Global, line: &str) -> Result<Option<Vector>, AllocError> {
        match read_line(alloc, line) {
            Ok(vector) => Ok(Some(vector)),
            Err(ReadError::NoVector) => Ok(None),
            Err(ReadError::Memory) => Err(AllocError),
        }
    }
}

// The vector of a line.
fn read_line(alloc: Global, line: &str) -> Result<Vector, ReadError> {
    match Value::from_str(alloc, line) {
        Ok(value) => read_vector(alloc, &value),
        Err(error) => Err(if error.is_memory() {
            ReadError::Memory
        } else {
            ReadError::NoVector
        }),
    }
}

// The vector of an object.
fn read_vector(alloc: Global, object: &Value) -> Result<Vector, ReadError> {
    let name = String::from_str(alloc, str_field(object, "name")?)?;
    let spelled = spelled_field(alloc, object)?;
    let chained = read_chained(alloc, object)?;
    let met = read_met(alloc, object)?;
    Ok(Vector {
        name,
        spelled,
        met,
        chained,
    })
}

fn read_met(alloc: Global, object: &Value) -> Result<Met, ReadError> {
    let (text, merged) = two_texts(alloc, object, "text", "merged")?;
    let (first, second) = two_ops(alloc, object, "first", "second")?;
    let (first_moved, second_moved) = two_ops(alloc, object, "first_moved", "second_moved")?;
    Ok(Met {
        text,
        first,
        second,
        first_moved,
        second_moved,
        merged,
    })
}

fn read_chained(alloc: Global, object: &Value) -> Result<Chained, ReadError> {
    let (next, composed) = two_ops(alloc, object, "next", "composed")?;
    let after = text_field(alloc, object, "after")?;
    Ok(Chained {
        next,
        composed,
        after,
    })
}

fn two_texts(
    alloc: Global,
    object: &Value,
    first: &str,
    second: &str,
) -> Result<(Text, Text), ReadError> {
    let first = text_field(alloc, object, first)?;
    let second = text_field(alloc, object, second)?;
    Ok((first, second))
}

fn two_ops(
    alloc: Global,
    object: &Value,
    first: &str,
    second: &str,
) -> Result<(Op, Op), ReadError> {
    let first = op_field(alloc, object, first)?;
    let second = op_field(alloc, object, second)?;
    Ok((first, second))
}

// The value at a key.
fn field<'a>(object: &'a Value, key: &str) -> Result<&'a Value, ReadError> {
    object.get(key).ok_or(ReadError::NoVector)
}

// The string at a key.
fn str_field<'a>(object: &'a Value, key: &str) -> Result<&'a str, ReadError> {
    field(object, key)?.as_str().ok_or(ReadError::NoVector)
}

// The text at a key.
fn text_field(alloc: Global, object: &Value, key: &str) -> Result<Text, ReadError> {
    Ok(Text::of(alloc, str_field(object, key)?)?)
}

// The first operation, in whatever spelling it stands.
fn spelled_field(alloc: Global, object: &Value) -> Result<Op, ReadError> {
    read_op(alloc, field(object, "spelled")?)
}

// The operation at a key, if its parts stand there as the normal ones.
fn op_field(alloc: Global, object: &Value, key: &str) -> Result<Op, ReadError> {
    let value = field(object, key)?;
    let op = read_op(alloc, value)?;
    if is_normal(alloc, value, &op)? {
        Ok(op)
    } else {
        Err(ReadError::NoVector)
    }
}

// The elements of an array.
fn elements(value: &Value) -> Result<&[Value], ReadError> {
    match value.as_array() {
        Some(items) => Ok(items.as_slice()),
        None => Err(ReadError::NoVector),
    }
}

// Whether the elements are just the operation's parts.
fn is_normal(alloc: Global, value: &Value, op: &Op) -> Result<bool, ReadError> {
    let items = elements(value)?;
    for (item, part) in items.iter().zip(op.parts()) {
        if !read_part(alloc, item)?.same(part) {
            return Ok(false);
        }
    }
    Ok(items.len() == op.parts().len())
}

// The operation that has these elements as its parts, in any spelling.
fn read_op(alloc: Global, value: &Value) -> Result<Op, ReadError> {
    let mut builder = OpBuilder::new(alloc);
    for item in elements(value)? {
        put(alloc, &mut builder, item)?;
    }
    Ok(builder.finish())
}

// Puts an element in as the next part.
fn put(alloc: Global, builder: &mut OpBuilder, item: &Value) -> Result<(), ReadError> {
    let part = read_part(alloc, item)?;
    if builder.try_put(&part)? {
        Ok(())
    } else {
        Err(ReadError::NoVector)
    }
}

// A string inserts, and a whole number retains or deletes.
fn read_part(alloc: Global, value: &Value) -> Result<Part, ReadError> {
    if let Some(string) = value.as_str() {
        return Ok(Part::Insert(Text::of(alloc, string)?));
    }
    match value.as_i64() {
        Some(count) => Ok(part_of_count(count)),
        None => Err(ReadError::NoVector),
    }
}

// A whole number retains so many characters, or deletes them where it is below 0.
fn part_of_count(count: i64) -> Part {
    if count < 0 {
        Part::Delete(count.unsigned_abs())
    } else {
        Part::Retain(count as u64)
    }
}
