//! Files of the system as a shelf, which tells no bytes.
ghost use Rattle.std.specs.Prelude.{◌≡◌, None, IfOk};
ghost use Rattle.troop_ports.specs.Shelves.{FetchFits};

use crate::{Fetched, Shelf};
use std::alloc::{AllocError, Global};
use std::fs;
use std::io::Read;
use std::rt::Files;

// How many bytes are read at once.
const PIECE: usize = 4096;

/// The files of the system by their paths, with a count of the errors.
#[derive(Drop)]
pub struct FileShelf<'r, R> {
    // The runtime, which opens them.
    rt: &'r R,
    // How many fetches met an error.
    faults: u64,
}

impl<'r, R: Files> FileShelf<'r, R> {
    /// The files that the runtime opens, with no error counted yet.
    pub fn new(rt: &'r R) -> FileShelf<'r, R>
        ensures { ⟦<FileShelf<'r, R> as Shelf>⟧.faults result ≡ 0 }
    {
        FileShelf { rt, faults: 0 }
    }
}

impl<'r, R: Files> Shelf for FileShelf<'r, R> {
    ghost files = { λ _. None };

    ghost faults = { λ s. s.faults };

    fn fetch(&mut self, alloc: Global, name: &str, limit: u64) -> Result<Fetched, AllocError> {
        let found = read_file(self.rt, alloc, name, limit)?;
        if let Fetched::Failed = found {
            self.faults = self.faults.saturating_add(1);
        }
        Ok(found)
    }
}

// The bytes of a file, at most so many, or that an error came.
fn read_file<R: Files>(rt: &R, alloc: Global, name: &str, limit: u64) -> Result<Fetched, AllocError>
    ensures { IfOk result (λ found. FetchFits found limit) }
{
    let Ok(mut file) = fs::open(rt, name) else {
        return Ok(Fetched::Failed);
    };
    let mut bytes = Vec::new(alloc);
    let mut piece = [0; PIECE];
    while bytes.len() as u64 <= limit {
        match file.read(&mut piece) {
            Ok(0) => return Ok(Fetched::Bytes(bytes)),
            Ok(count) => bytes.extend_from_slice(&piece[..count])?,
            Err(_) => return Ok(Fetched::Failed),
        }
    }
    Ok(Fetched::TooMany)
}
