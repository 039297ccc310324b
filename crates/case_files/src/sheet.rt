//! The lines of a case file, and the signs between them.

use std::alloc::AllocError;

/// What is made of a case file, line by line.
pub trait Sheet {
    /// A line of the part that the last sign named, with its line feed, if it has one.
    fn put(&mut self, line: &[u8]) -> Result<(), AllocError>;

    /// A sign, by the text behind its hyphens. Answers whether it can be read.
    fn turn(&mut self, sign: &str) -> Result<bool, AllocError>;
}

/// What a sign says that is the same in all case files.
#[derive(Clone, Copy, Debug, PartialEq, Eq)]
enum Mark {
    /// Nothing: it is for the reader.
    Note,
    /// The next line stands there so many times.
    Repeat(u32),
    /// The next line stands there without its line feed.
    Bare,
    /// Something that the sheet knows.
    Own,
}

/// Hands the lines and the signs of a file on, in order. A sign is a line that begins with two hyphens and a space. Answers whether each
/// could be read.
pub fn read_sheet<S: Sheet>(file: &[u8], sheet: &mut S) -> Result<bool, AllocError> {
    let mut times = 1;
    let mut bare = false;
    for line in file.split_inclusive(|b| *b == b'\n') {
        let Some(text) = line.strip_prefix(b"-- ") else {
            let put = if bare { without_feed(line) } else { line };
            for _ in 0..times {
                sheet.put(put)?;
            }
            times = 1;
            bare = false;
            continue;
        };
        let Ok(text) = str::from_utf8(text) else {
            return Ok(false);
        };
        let sign = text.trim_ascii();
        match read_mark(sign) {
            Some(Mark::Note) => {}
            Some(Mark::Repeat(count)) => times = count,
            Some(Mark::Bare) => bare = true,
            Some(Mark::Own) => {
                if !sheet.turn(sign)? {
                    return Ok(false);
                }
            }
            None => return Ok(false),
        }
    }
    Ok(true)
}

// What the sign says, if it can be read.
fn read_mark(sign: &str) -> Option<Mark> {
    if let Some(times) = sign.strip_prefix("repeat ") {
        return Some(Mark::Repeat(times.parse().ok()?));
    }
    if sign.starts_with("note ") {
        return Some(Mark::Note);
    }
    if sign == "bare" {
        return Some(Mark::Bare);
    }
    Some(Mark::Own)
}

// The line without the line feed at its end.
fn without_feed(line: &[u8]) -> &[u8] {
    line.strip_suffix(b"\n").unwrap_or(line)
}
