//! A shelf in memory.
ghost use Rattle.std.specs.Prelude.{◌≡◌, Some, IfOk, OnErr, MatchOption, None, map, string_bytes};
ghost use Rattle.troop_ports.specs.Shelves.{bytes_under, Fetches, FetchFits, CountsFetch};
ghost use Rattle.troop_ports.specs.ListShelves.{finding, finding_of, within_limit, shelf_after, file_of};

use crate::{Fetched, Shelf};
use std::alloc::{AllocError, Global};
use std::marker::Model;

/// A shelf of these files, of which listed calls fail.
#[derive(Drop)]
pub struct ListShelf {
    // The name and the bytes of each file.
    files: Vec<(String, Vec<u8>)>,
    // The numbers of the calls that fail, from 1.
    fails: Vec<u64>,
    // How many calls were answered.
    calls: u64,
    // How many faults were counted.
    faults: u64,
}

impl Model for ListShelf {
    ghost use Rattle.std.specs.Prelude.{map};
    ghost use Rattle.troop_ports.specs.ListShelves.{Cabinet, file_of};

    ghost Value = { Cabinet };

    ghost view = { λ s. record { files = map file_of s.files.items; fails = s.fails.items; calls = s.calls; faults = s.faults } };
}

impl ListShelf {
    /// A shelf that no call has been made to. Of files with one name the first counts. The calls that fail are given
    /// by their numbers, from 1. Where memory is wanting the files are dropped.
    pub fn new(
        alloc: Global,
        files: Vec<(String, Vec<u8>)>,
        fails: &[u64],
    ) -> Result<ListShelf, AllocError>
        ensures { IfOk result (λ shelf. shelf ≡ record { files = map file_of files.items; fails = fails.now; calls = 0; faults = 0 }) }
    {
        let fails = Vec::from_slice(alloc, fails)?;
        Ok(ListShelf {
            files,
            fails,
            calls: 0,
            faults: 0,
        })
    }
}

impl Shelf for ListShelf {
    ghost files = { λ s. Some s.files };

    ghost faults = { λ s. s.faults };

    fn fetch(&mut self, alloc: Global, name: &str, limit: u64) -> Result<Fetched, AllocError>
        ensures answer { IfOk result (λ found. finding found ≡ finding_of self.old name.now limit) }
        ensures after { IfOk result (λ found. self.new ≡ shelf_after self.old (finding found)) }
        ensures bytes { IfOk result (λ found. Fetches found name.now limit (Some self.old.files)) }
        ensures fits { IfOk result (λ found. FetchFits found limit) }
        ensures cause { IfOk result (λ found. CountsFetch found self.old.faults self.new.faults) }
        ensures memory { OnErr result (self.new ≡ self.old) }
    {
        let calls = self.calls.saturating_add(1);
        let found = if self.fails.contains(&calls) {
            Fetched::Failed
        } else {
            take(alloc, &self.files, name, limit)?
        };
        self.calls = calls;
        if let Fetched::Failed = found {
            self.faults = self.faults.saturating_add(1);
        }
        Ok(found)
    }
}

// What stands under a name, within a limit; where nothing does, a fault.
fn take(
    alloc: Global,
    files: &[(String, Vec<u8>)],
    name: &str,
    limit: u64,
) -> Result<Fetched, AllocError>
    ensures { IfOk result (λ found. finding found ≡ within_limit (bytes_under name.now (map file_of files.now)) limit) }
{
    let Some(bytes) = look_up(files, name) else {
        return Ok(Fetched::Failed);
    };
    if bytes.len() as u64 > limit {
        return Ok(Fetched::TooMany);
    }
    Ok(Fetched::Bytes(Vec::from_slice(alloc, bytes)?))
}

// The bytes of the first file that has the name.
fn look_up<'f>(files: &'f [(String, Vec<u8>)], name: &str) -> Option<&'f [u8]>
    ensures { MatchOption result (bytes_under name.now (map file_of files.now) ≡ None) (λ bytes. bytes_under name.now (map file_of files.now) ≡ Some bytes.now) }
{
    for file in files {
        if file.0.as_str() == name {
            return Some(file.1.as_slice());
        }
    }
    None
}
