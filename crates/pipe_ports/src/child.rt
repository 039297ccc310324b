//! Something that takes bytes and is closed at last, as a running program by its standard input.
ghost use Rattle.std.specs.Prelude.{◌≡◌, ℕ, ◌+◌, ◌<◌, ◌≤◌, List, Option, Bool, true, false, length, OnOk, OnErr};
ghost use Rattle.troop_ports.specs.Bytes.{PutFits, Writes};
ghost use Rattle.troop_ports.specs.Faults.{CountsWrite};
ghost use Rattle.pipe_ports.specs.Pipes.{FollowsLimit, put_count, CountsClose};

use std::alloc::AllocError;
use troop_ports::Put;

/// What a close answers. Either way the child is closed.
#[derive(Clone, Copy, Debug, PartialEq, Eq)]
pub enum Closing {
    /// No fault was counted.
    Closed,
    /// A fault was counted.
    Failed,
}

/// A child: a running program, say, that takes bytes until it is closed.
pub trait Child: Drop {
    /// The bytes that were taken, where they are told.
    ghost taken: { Self → Option (List ℕ) };

    /// The limit, where it is told: how many more bytes it takes, or none.
    ghost limit: { Self → Option (Option ℕ) };

    /// How long the next piece may be.
    ghost room: { Self → ℕ };

    /// How many faults there were. A count at its last value stands still.
    ghost faults: { Self → ℕ };

    /// Whether it was closed.
    ghost closed: { Self → Bool };

    /// Makes room for so many bytes, so that writes of them need no memory.
    fn ready(&mut self, bytes: u64) -> Result<(), AllocError>
        ensures room { OnOk result (bytes ≤ room self.new) }
        ensures memory { OnErr result (room self.new ≡ room self.old) }
        ensures taken { taken self.new ≡ taken self.old }
        ensures limit { limit self.new ≡ limit self.old }
        ensures faults { faults self.new ≡ faults self.old }
        ensures closed { closed self.new ≡ closed self.old };

    /// Takes some bytes from the front of the piece. It takes no memory.
    fn write(&mut self, piece: &[u8]) -> Put
        requires is_open { closed self.old ≡ false }
        requires some { 0 < length piece.now }
        requires fits_room { length piece.now ≤ room self.old }
        ensures fits { PutFits result piece.now }
        ensures bytes { Writes result piece.now (taken self.old) (taken self.new) }
        ensures limit { FollowsLimit result (length piece.now) (limit self.old) (limit self.new) }
        ensures room { room self.old ≤ room self.new + put_count result }
        ensures cause { CountsWrite result (faults self.old) (faults self.new) }
        ensures still_open { closed self.new ≡ false };

    /// Closes it, so that it takes no more bytes.
    fn close(&mut self) -> Closing
        requires is_open { closed self.old ≡ false }
        ensures taken { taken self.new ≡ taken self.old }
        ensures cause { CountsClose result (faults self.old) (faults self.new) }
        ensures closed { closed self.new ≡ true };
}
