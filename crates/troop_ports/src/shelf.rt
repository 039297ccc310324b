//! Where whole files come from.
ghost use Rattle.std.specs.Prelude.{◌≡◌, ℕ, List, Option, IfOk, OnErr};
ghost use Rattle.troop_ports.specs.Shelves.{File, Fetches, FetchFits, CountsFetch};

use std::alloc::{AllocError, Global};

/// What a fetch answers.
#[derive(Debug, PartialEq, Eq, Drop)]
pub enum Fetched {
    /// The bytes under the name.
    Bytes(Vec<u8>),
    /// There are more bytes than the limit.
    TooMany,
    /// A fault was counted.
    Failed,
}

/// Where whole files come from, by their names.
pub trait Shelf {
    /// The files, where they are told.
    ghost files: { Self → Option (List File) };

    /// How many faults there were. A count at its last value stands still.
    ghost faults: { Self → ℕ };

    /// Fetches the bytes under a name, at most so many. Want of memory leaves the count.
    fn fetch(&mut self, alloc: Global, name: &str, limit: u64) -> Result<Fetched, AllocError>
        ensures bytes { IfOk result (λ found. Fetches found name.now limit (files self.old)) }
        ensures fits { IfOk result (λ found. FetchFits found limit) }
        ensures files { files self.new ≡ files self.old }
        ensures cause { IfOk result (λ found. CountsFetch found (faults self.old) (faults self.new)) }
        ensures memory { OnErr result (faults self.new ≡ faults self.old) };
}
