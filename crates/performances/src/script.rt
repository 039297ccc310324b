//! What a case says of the ports of a performance.

use crate::pace::Moment;
use std::alloc::{AllocError, Global};

/// How many bytes a port takes, unless the case says less.
const ROOM: u64 = 2_000_000;

/// Lines that are given from a moment on.
#[derive(Debug, Drop)]
pub struct Portion {
    /// The moment.
    pub moment: Moment,
    /// The bytes of the lines.
    pub bytes: Vec<u8>,
    /// How many bytes each line has that is ended. A read gives one line.
    pub lines: Vec<u64>,
    // How many bytes stand behind them.
    open: u64,
}

impl Portion {
    /// No lines yet.
    pub fn new(alloc: Global, moment: Moment) -> Portion {
        Portion {
            moment,
            bytes: Vec::new(alloc),
            lines: Vec::new(alloc),
            open: 0,
        }
    }

    /// Puts a line behind the others. Without a line feed the one behind it goes on with the same line.
    pub fn put(&mut self, line: &[u8]) -> Result<(), AllocError> {
        self.bytes.extend_from_slice(line)?;
        self.open = self.open.saturating_add(line.len() as u64);
        if line.ends_with(b"\n") {
            self.lines.push(self.open)?;
            self.open = 0;
        }
        Ok(())
    }
}

/// What a port gives and takes.
#[derive(Debug, Drop)]
pub struct Script {
    /// What is given at first.
    pub first: Portion,
    /// What is given later.
    pub later: Vec<Portion>,
    /// The numbers of the reads that fail, from 1.
    pub failing_reads: Vec<u64>,
    /// How many bytes are taken.
    pub room: u64,
    /// The numbers of the writes that fail, from 1.
    pub failing_writes: Vec<u64>,
}

impl Script {
    /// Nothing is given, and no call fails.
    pub fn new(alloc: Global) -> Script {
        Script {
            first: Portion::new(alloc, Moment::Sent(0)),
            later: Vec::new(alloc),
            failing_reads: Vec::new(alloc),
            room: ROOM,
            failing_writes: Vec::new(alloc),
        }
    }

    /// Puts a line behind the others.
    pub fn put(&mut self, line: &[u8]) -> Result<(), AllocError> {
        match self.later.last_mut() {
            Some(portion) => portion.put(line),
            None => self.first.put(line),
        }
    }
}
