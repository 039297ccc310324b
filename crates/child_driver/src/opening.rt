//! A new life, up to the end of its boot text.
ghost use Rattle.std.specs.Prelude.{◌≡◌, ◌≤◌, ◌+◌, None, false, length, IfSome, IsSome};
ghost use Rattle.child_driver.specs.Drivers.{sight_of};
ghost use Rattle.child_driver.specs.Openings.{IfOpened, Opens};

use crate::give::give;
use crate::journal::Journal;
use pipe_ports::{Child, Hatch, Started};
use troop_entry::Note;
use troop_ports::Written;

/// What becomes of a start.
pub(crate) enum Opening<C> {
    /// The life took the whole boot text.
    Life(C),
    /// It took only so many of its bytes.
    BootCut(u64),
    /// None was started.
    Refused,
}

// Starts a life for the block at this place, and writes the boot text to it.
pub(crate) fn open_life<H: Hatch>(
    hatch: &mut H,
    journal: &mut Journal,
    boot: &[u8],
    place: u64,
) -> Opening<H::C>
    requires ready { IsSome (H.readiness hatch.old) }
    requires fits_room { IfSome (H.readiness hatch.old) (λ most. length boot.now ≤ most) }
    requires spare { 3 ≤ journal.old.spare }
    ensures opens { Opens (λ life. sight_of H.buried H.starts H.faults H.C.taken H.C.limit H.C.faults hatch.new life journal.new.notes)
        boot.now place result (sight_of H.buried H.starts H.faults H.C.taken H.C.limit H.C.faults hatch.old None journal.old.notes) }
    ensures is_open { IfOpened result (λ child. H.C.closed child ≡ false) }
    ensures room { IfOpened result (λ child. IfSome (H.readiness hatch.old) (λ most. most ≤ H.C.room child + length boot.now)) }
    ensures grave { IfOpened result (λ _. 1 ≤ H.graves hatch.new) }
    ensures spare { IfOpened result (λ _. journal.old.spare ≤ journal.new.spare + 1) }
{
    match hatch.start() {
        Started::Failed => {
            journal.push(Note::Skipped { place });
            Opening::Refused
        }
        Started::Child(mut child) => {
            let life = journal.born(place);
            match give(&mut child, boot) {
                Written::All => Opening::Life(child),
                Written::Part(bytes) => {
                    journal.push(Note::BootCut { life, bytes });
                    journal.push(Note::Skipped { place });
                    hatch.bury(child);
                    Opening::BootCut(bytes)
                }
            }
        }
    }
}
