//! A block for a standing life.
ghost use Rattle.std.specs.Prelude.{◌≡◌, ◌≤◌, ◌+◌, ℕ, List, None, Some, false, length};
ghost use Rattle.pipe_ports.specs.Pipes.{IsReadyToStart};
ghost use Rattle.child_driver.specs.Drivers.{sight_of};
ghost use Rattle.child_driver.specs.Steps.{FeedsTo};
ghost use Rattle.child_driver.specs.DriverInvariant.{HasLife};

use crate::Fed;
use crate::give::give;
use crate::journal::Journal;
use crate::opening::{Opening, open_life};
use pipe_ports::{Child, Hatch};
use troop_entry::Note;
use troop_ports::Written;

// Writes a block to the standing life, and buries the life where it was cut.
pub(crate) fn feed_life<H: Hatch>(
    hatch: &mut H,
    journal: &mut Journal,
    mut child: H::C,
    bytes: &[u8],
    place: u64,
) -> (Option<H::C>, Fed)
    requires is_open { H.C.closed child ≡ false }
    requires fits_room { length bytes.now ≤ H.C.room child }
    requires grave { 1 ≤ H.graves hatch.old }
    requires spare { 2 ≤ journal.old.spare }
    ensures step { (boot : List ℕ) → FeedsTo boot bytes.now place result.1
        (sight_of H.buried H.starts H.faults H.C.taken H.C.limit H.C.faults hatch.old (Some child) journal.old.notes)
        (sight_of H.buried H.starts H.faults H.C.taken H.C.limit H.C.faults hatch.new result.0 journal.new.notes) }
    ensures held { HasLife H.graves H.C.closed hatch.new result.0 journal.new.spare }
{
    match give(&mut child, bytes) {
        Written::All => (Some(child), Fed::Whole),
        Written::Part(count) => {
            let life = journal.lives();
            journal.push(Note::Cut {
                life,
                place,
                bytes: count,
            });
            hatch.bury(child);
            (None, Fed::Cut { bytes: count })
        }
    }
}

// Starts a life for a block, and writes the block to it.
pub(crate) fn feed_new<H: Hatch>(
    hatch: &mut H,
    journal: &mut Journal,
    boot: &[u8],
    bytes: &[u8],
    place: u64,
) -> (Option<H::C>, Fed)
    requires ready { IsReadyToStart (H.readiness hatch.old) (length boot.now + length bytes.now) }
    requires spare { 3 ≤ journal.old.spare }
    ensures step { FeedsTo boot.now bytes.now place result.1
        (sight_of H.buried H.starts H.faults H.C.taken H.C.limit H.C.faults hatch.old None journal.old.notes)
        (sight_of H.buried H.starts H.faults H.C.taken H.C.limit H.C.faults hatch.new result.0 journal.new.notes) }
    ensures held { HasLife H.graves H.C.closed hatch.new result.0 journal.new.spare }
{
    match open_life(hatch, journal, boot, place) {
        Opening::Life(child) => feed_life(hatch, journal, child, bytes, place),
        Opening::BootCut(_) => (None, Fed::Skipped),
        Opening::Refused => (None, Fed::Skipped),
    }
}
