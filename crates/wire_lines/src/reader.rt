//! Lines from a source, one at a time.
ghost use Rattle.std.specs.Prelude.{◌≡◌, ◌<◌, ◌≤◌, ◌^◌, ◌+◌, [], ◌∷◌, ◌++◌, List, ℕ, Some, None, length, take, drop, get_or, slice_range, false, OnOk, OnErr};
ghost use Rattle.memchr.specs.Find.{IsFirstByte, is_byte};
ghost use Rattle.wire_lines.specs.Lines.{HasNoFeed, line_feed};
ghost use Rattle.wire_lines.specs.Reader.{ReadsLine, CountsLine};
ghost use Rattle.wire_lines.specs.Looks.{Looked, Cuts, Finishes, Fills, CountsFill};

use memchr::memchr;
use std::alloc::{AllocError, Global};
use std::marker::Model;
use std::mem;
use troop_ports::{Got, Source};

/// How many bytes are read at once.
const PIECE: usize = 4096;

/// The next line of a source.
#[derive(Debug, Drop)]
pub enum Line {
    /// Its bytes, without the line feed.
    Text(Vec<u8>),
    /// There are no more lines.
    End,
    /// It has more bytes than the limit.
    Long,
    /// The source counted a fault.
    Fault,
    /// Memory was wanting. The bytes that were taken are kept.
    Memory,
}

/// Whether a reader goes on.
#[derive(Clone, Copy, Debug, PartialEq, Eq)]
enum State {
    /// It may have more lines.
    Going,
    /// The source has ended, and no byte is held.
    Ended,
    /// A line was over the limit.
    Long,
    /// The source counted a fault.
    Fault,
}

/// Reads lines from a source. It holds no more than the front of one line and one piece.
#[derive(Drop)]
pub struct LineReader {
    limit: usize,
    // The front of the next line, as far as it was looked at.
    front: Vec<u8>,
    buffer: [u8; PIECE],
    // The part of the buffer that wasn't looked at yet.
    start: usize,
    end: usize,
    state: State,
    // Whether the last line that was given ended at a line feed.
    whole: bool,
}

impl Model for LineReader {
    ghost use Rattle.std.specs.Prelude.{◌≡◌, ◌≤◌, ◌^◌, slice_range, length};
    ghost use Rattle.wire_lines.specs.Reader.{Reader, IsSound};

    ghost Value = { Reader };

    ghost view = { λ r. record { limit = r.limit; front = r.front.items; piece = slice_range r.buffer r.start r.end; state = r.state; whole = r.whole } };

    ghost invariant = { λ r. (r.start ≤ r.end) × (r.end ≤ 4096) × (length r.buffer ≡ 4096) × (r.limit ≤ 2 ^ 30)
        × IsSound (record { limit = r.limit; front = r.front.items; piece = slice_range r.buffer r.start r.end; state = r.state; whole = r.whole }) };
}

impl LineReader {
    /// A reader that has read nothing yet, of lines of at most so many bytes.
    pub fn new(alloc: Global, limit: u64) -> LineReader
        requires { limit ≤ 2 ^ 30 }
        ensures { result ≡ record { limit = limit; front = []; piece = []; state = State.Going; whole = false } }
    {
        LineReader {
            limit: limit as usize,
            front: Vec::new(alloc),
            buffer: [0; PIECE],
            start: 0,
            end: 0,
            state: State::Going,
            whole: false,
        }
    }

    /// The next line. `Long` and `Fault` are answered again from then on.
    pub fn next<S: Source>(&mut self, source: &mut S) -> Line
        requires { S.closed source.old ≡ false }
        ensures line { ReadsLine result self.old self.new (S.remaining source.old) (S.remaining source.new) }
        ensures beside { S.taken_beside source.new ≡ S.taken_beside source.old }
        ensures cause { CountsLine result self.old (S.faults source.old) (S.faults source.new) }
        ensures still_open { S.closed source.new ≡ false }
    {
        loop {
            if let Some(line) = self.look() {
                return line;
            }
            if let Some(line) = self.fill(source) {
                return line;
            }
        }
    }

    /// Whether a line was given, and the last one ended at a line feed.
    pub fn was_whole(&self) -> bool
        ensures { result ≡ self.now.whole }
    {
        self.whole
    }

    // Looks for a whole line in what is held.
    fn look(&mut self) -> Option<Line>
        ensures looked { Looked result self.old self.new }
        ensures limit { self.new.limit ≡ self.old.limit }
    {
        match self.state {
            State::Going => {}
            State::Ended => return Some(Line::End),
            State::Long => return Some(Line::Long),
            State::Fault => return Some(Line::Fault),
        }
        match memchr(b'\n', &self.buffer[self.start..self.end]) {
            Some(at) => Some(self.cut(at)),
            None => self.pass(),
        }
    }

    // Gives the line that ends at this place of the piece.
    fn cut(&mut self, at: usize) -> Line
        requires going { self.old.state ≡ State.Going }
        requires feed { IsFirstByte (is_byte 10) self.old.piece (Some at) }
        ensures cuts { Cuts result self.old self.new }
        ensures limit { self.new.limit ≡ self.old.limit }
    {
        if self.front.len() + at > self.limit {
            self.state = State::Long;
            return Line::Long;
        }
        let Ok(()) = put_behind(&mut self.front, &self.buffer, self.start, self.start + at) else {
            return Line::Memory;
        };
        self.start += at + 1;
        self.whole = true;
        let alloc = *self.front.allocator();
        Line::Text(mem::replace(&mut self.front, Vec::new(alloc)))
    }

    // Puts the piece, in which there is no line feed, behind the front.
    fn pass(&mut self) -> Option<Line>
        requires going { self.old.state ≡ State.Going }
        requires no_feed { IsFirstByte (is_byte 10) self.old.piece None }
        ensures looked { Looked result self.old self.new }
        ensures limit { self.new.limit ≡ self.old.limit }
    {
        if self.front.len() + (self.end - self.start) > self.limit {
            self.state = State::Long;
            return Some(Line::Long);
        }
        let Ok(()) = put_behind(&mut self.front, &self.buffer, self.start, self.end) else {
            return Some(Line::Memory);
        };
        self.start = self.end;
        None
    }

    // Reads a piece.
    fn fill<S: Source>(&mut self, source: &mut S) -> Option<Line>
        requires is_open { S.closed source.old ≡ false }
        requires going { self.old.state ≡ State.Going }
        requires empty { self.old.piece ≡ [] }
        ensures fills { Fills result self.old self.new (S.remaining source.old) (S.remaining source.new) }
        ensures limit { self.new.limit ≡ self.old.limit }
        ensures beside { S.taken_beside source.new ≡ S.taken_beside source.old }
        ensures cause { CountsFill result (S.faults source.old) (S.faults source.new) }
        ensures still_open { S.closed source.new ≡ false }
    {
        match source.read(&mut self.buffer) {
            Got::Bytes(count) => {
                self.start = 0;
                self.end = count;
                None
            }
            Got::End => Some(self.finish()),
            Got::Failed => {
                self.state = State::Fault;
                Some(Line::Fault)
            }
        }
    }

    // The source has ended, and what stands in front is the last line, if it isn't empty.
    fn finish(&mut self) -> Line
        requires { self.old.piece ≡ [] }
        ensures finishes { Finishes result self.old self.new None }
        ensures ended { self.new.state ≡ State.Ended }
        ensures limit { self.new.limit ≡ self.old.limit }
    {
        self.state = State::Ended;
        if self.front.is_empty() {
            return Line::End;
        }
        self.whole = false;
        let alloc = *self.front.allocator();
        Line::Text(mem::replace(&mut self.front, Vec::new(alloc)))
    }
}

// Puts a part of the buffer behind the front.
fn put_behind(
    front: &mut Vec<u8>,
    buffer: &[u8],
    start: usize,
    end: usize,
) -> Result<(), AllocError>
    requires order { start ≤ end }
    requires within { end ≤ length buffer.now }
    ensures ok { OnOk result (front.new.items ≡ front.old.items ++ slice_range buffer.now start end) }
    ensures err { OnErr result (front.new.items ≡ front.old.items) }
{
    front.extend_from_slice(&buffer[start..end])
}
