//! Bytes to a child, piece by piece.
ghost use Rattle.std.specs.Prelude.{◌≡◌, ◌≤◌, ◌+◌, false, length};
ghost use Rattle.troop_ports.specs.Bytes.{WritesAll};
ghost use Rattle.troop_ports.specs.Faults.{CountsWritten};
ghost use Rattle.child_driver.specs.Openings.{LimitsAll};

use pipe_ports::Child;
use troop_ports::{Put, Written};

/// Writes all bytes to the child, or as many as it takes before a fault.
pub(crate) fn give<C: Child>(child: &mut C, bytes: &[u8]) -> Written
    requires is_open { C.closed child.old ≡ false }
    requires fits_room { length bytes.now ≤ C.room child.old }
    ensures bytes { WritesAll result bytes.now (C.taken child.old) (C.taken child.new) }
    ensures limit { LimitsAll result (length bytes.now) (C.limit child.old) (C.limit child.new) }
    ensures cause { CountsWritten result (C.faults child.old) (C.faults child.new) }
    ensures room { C.room child.old ≤ C.room child.new + length bytes.now }
    ensures still_open { C.closed child.new ≡ false }
{
    let mut at = 0;
    while at < bytes.len() {
        match child.write(&bytes[at..]) {
            Put::Took(count) => at += count,
            Put::Failed => return Written::Part(at as u64),
        }
    }
    Written::All
}
