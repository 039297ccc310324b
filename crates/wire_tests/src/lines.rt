//! What no clause says: that lines are given where memory is found, and what the words of the clauses come to.
use std::alloc::{AllocError, Global};
use std::test::Fail;
use troop_ports::{BytesSource, CalmSource};
use wire_lines::*;

// Whether this is the next line, and ended with a line feed or not.
fn is_next(reader: &mut LineReader, source: &mut BytesSource, text: &str, whole: bool) -> bool {
    match reader.next(source) {
        Line::Text(line) => line.as_slice() == text.as_bytes() && reader.was_whole() == whole,
        _ => false,
    }
}

fn is_end(reader: &mut LineReader, source: &mut BytesSource) -> bool {
    matches!(reader.next(source), Line::End)
}

/// Each line, and whether a line feed ended it.
const LINES: &[(&str, bool)] = &[("one", true), ("", true), ("two", true), ("last", false)];

// Whether each line comes, and then the end.
fn are_lines(reader: &mut LineReader, source: &mut BytesSource) -> bool {
    for row in LINES {
        if !is_next(reader, source, row.0, row.1) {
            return false;
        }
    }
    is_end(reader, source)
}

// Whether the lines come from a source that gives pieces of this size, and no line was whole before.
fn is_cut(alloc: Global, size: u64) -> Result<bool, AllocError> {
    let mut source = BytesSource::new(alloc, b"one\n\ntwo\nlast", &[size; 16], &[])?;
    let mut reader = LineReader::new(alloc, 4);
    Ok(!reader.was_whole() && are_lines(&mut reader, &mut source))
}

#[test]
fn the_lines_are_the_same_for_every_cutting(rt: HostRuntime) -> Result<(), Fail> {
    for size in [1, 2, 3, 4096] {
        let is_so = is_cut(rt.alloc(), size)?;
        assert!(rt; is_so, "in pieces of {size}");
    }
    cutting_law();
    lines_law();
    Ok(())
}

// A line of so many bytes.
fn line_of(alloc: Global, length: usize) -> Result<Vec<u8>, AllocError> {
    let mut bytes = vec![in alloc; b'a'; length]?;
    bytes.push(b'\n')?;
    Ok(bytes)
}

// How long the first line is that a reader of lines of up to 5000 bytes gives.
fn length_read(alloc: Global, bytes: &[u8]) -> Result<Option<usize>, AllocError> {
    let mut source = CalmSource::new(alloc, bytes)?;
    match LineReader::new(alloc, 5000).next(&mut source) {
        Line::Text(line) => Ok(Some(line.len())),
        _ => Ok(None),
    }
}

fn is_long(reader: &mut LineReader, source: &mut CalmSource) -> bool {
    matches!(reader.next(source), Line::Long)
}

// Whether the first line is too long for a reader of lines of up to 4999 bytes, which then says so from then on.
fn stays_long(alloc: Global, bytes: &[u8]) -> Result<bool, AllocError> {
    let mut source = CalmSource::new(alloc, bytes)?;
    let mut reader = LineReader::new(alloc, 4999);
    Ok(is_long(&mut reader, &mut source) && is_long(&mut reader, &mut source))
}

// Whether a line of 5000 bytes is read by the one, and too long for the other.
fn is_at_the_limit(alloc: Global, bytes: &[u8]) -> Result<bool, AllocError> {
    Ok(length_read(alloc, bytes)? == Some(5000) && stays_long(alloc, bytes)?)
}

#[test]
fn a_line_may_be_as_long_as_the_limit(rt: HostRuntime) -> Result<(), Fail> {
    let is_so = is_at_the_limit(rt.alloc(), &line_of(rt.alloc(), 5000)?)?;
    assert!(rt; is_so);
    Ok(())
}

fn is_fault(reader: &mut LineReader, source: &mut BytesSource) -> bool {
    matches!(reader.next(source), Line::Fault) && reader.was_whole()
}

// Whether the first line comes, and from then on a fault.
fn stays_faulty(reader: &mut LineReader, source: &mut BytesSource) -> bool {
    is_next(reader, source, "ab", true) && is_fault(reader, source) && is_fault(reader, source)
}

#[test]
fn a_fault_is_answered_from_then_on(rt: HostRuntime) -> Result<(), Fail> {
    let mut source = BytesSource::new(rt.alloc(), b"ab\ncd\n", &[4], &[2])?;
    let mut reader = LineReader::new(rt.alloc(), 4);
    assert!(rt; stays_faulty(&mut reader, &mut source));
    Ok(())
}
