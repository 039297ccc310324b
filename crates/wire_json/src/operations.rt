//! Operations, read from their values.
ghost use Rattle.std.specs.Prelude.{◌≡◌, ◌≤◌, ◌+◌, true, nat_le, map, IfOk};
ghost use Rattle.serde_json.specs.View.{view};
ghost use Rattle.ot_text.specs.Change.{base, then, nothing};
ghost use Rattle.ot_text.specs.Parts.{part_base, part_then};
ghost use Rattle.wire_json.specs.Values.{most_count};
ghost use Rattle.wire_json.specs.Operations.{part_of_int, part_of, op_of_list, op_of};

use crate::values::MOST_COUNT;
use ot_text::{Op, OpBuilder, Part, Text};
use serde_json::Value;
use std::alloc::{AllocError, Global};

/// An operation.
pub fn read_op(alloc: Global, value: &Value) -> Result<Option<Op>, AllocError>
    ensures { IfOk result (λ op. op ≡ op_of (view value.now)) }
{
    match value.as_array() {
        Some(items) => read_parts(alloc, items.as_slice()),
        None => Ok(None),
    }
}

// The operation of these elements.
fn read_parts(alloc: Global, items: &[Value]) -> Result<Option<Op>, AllocError>
    ensures { IfOk result (λ op. op ≡ op_of_list (map view items.now)) }
{
    let mut builder = OpBuilder::new(alloc);
    for item in items {
        let Some(part) = read_part(alloc, item)? else {
            return Ok(None);
        };
        if !put_part(&mut builder, &part)? {
            return Ok(None);
        }
    }
    Ok(Some(builder.finish()))
}

// A string inserts, and a whole number retains or deletes.
fn read_part(alloc: Global, value: &Value) -> Result<Option<Part>, AllocError>
    ensures { IfOk result (λ part. part ≡ part_of (view value.now)) }
{
    if let Some(string) = value.as_str() {
        return Ok(Some(Part::Insert(Text::of(alloc, string)?)));
    }
    Ok(value.as_i64().map(part_of_count))
}

// A whole number retains so many characters, or deletes them where it is below 0.
fn part_of_count(count: i64) -> Part
    ensures { result ≡ part_of_int count }
{
    if count < 0 {
        Part::Delete(count.unsigned_abs())
    } else {
        Part::Retain(count as u64)
    }
}

// Puts a part in where the numbers stay within their limit, and answers whether they do.
fn put_part(builder: &mut OpBuilder, part: &Part) -> Result<bool, AllocError>
    requires { base builder.old ≤ most_count }
    ensures fits { IfOk result (λ fits. fits ≡ nat_le (base builder.old + part_base part.now) most_count) }
    ensures put { IfOk result (λ fits. fits ≡ true → builder.new ≡ then builder.old (part_then part.now nothing)) }
{
    let passed = match part {
        Part::Retain(count) | Part::Delete(count) => *count,
        Part::Insert(_) => 0,
    };
    if passed > MOST_COUNT - builder.base() {
        return Ok(false);
    }
    if builder.try_put(part)? {
        Ok(true)
    } else {
        Err(AllocError)
    }
}
