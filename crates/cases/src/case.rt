//! Case files.

use crate::sign::{Part, Sign, read_sign};
use case_files::{Sheet, read_sheet};
use std::alloc::{AllocError, Global};

/// A script, and what each of its runs prints.
#[derive(Debug, Drop)]
pub struct Case {
    alloc: Global,
    /// The script's lines in front of those that take turns.
    pub front: Vec<u8>,
    /// Lines of which each run has one. With none there is one run.
    pub turns: Vec<Vec<u8>>,
    /// The script's lines behind those that take turns.
    pub back: Vec<u8>,
    /// What a run prints on the output.
    pub out: Vec<u8>,
    /// What a run prints on the error stream.
    pub err: Vec<u8>,
    /// A run's status.
    pub status: u8,
    // What the next line is.
    part: Part,
}

impl Case {
    /// The case of a file, if each of its signs can be read.
    pub fn read(alloc: Global, file: &[u8]) -> Result<Option<Case>, AllocError> {
        let mut case = Case {
            alloc,
            front: Vec::new(alloc),
            turns: Vec::new(alloc),
            back: Vec::new(alloc),
            out: Vec::new(alloc),
            err: Vec::new(alloc),
            status: 0,
            part: Part::Front,
        };
        if read_sheet(file, &mut case)? {
            Ok(Some(case))
        } else {
            Ok(None)
        }
    }
}

impl Sheet for Case {
    fn put(&mut self, line: &[u8]) -> Result<(), AllocError> {
        match self.part {
            Part::Front => self.front.extend_from_slice(line),
            Part::Each => Ok(self.turns.push(Vec::from_slice(self.alloc, line)?)?),
            Part::Back => self.back.extend_from_slice(line),
            Part::Out => self.out.extend_from_slice(line),
            Part::Err => self.err.extend_from_slice(line),
        }
    }

    fn turn(&mut self, sign: &str) -> Result<bool, AllocError> {
        match read_sign(sign) {
            Some(Sign::Part(part)) => self.part = part,
            Some(Sign::Status(code)) => self.status = code,
            None => return Ok(false),
        }
        Ok(true)
    }
}
