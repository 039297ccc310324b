//! The walk along an operation's parts, over runs with a gap.
ghost use Rattle.std.specs.Prelude.{◌≡◌, ◌+◌, ◌*◌, ◌≤◌, ◌<◌, ◌^◌, length};
ghost use Rattle.ot_text.specs.Change.{base, inserted, effect};
ghost use Rattle.ot_text.specs.Parts.{IsProper, part_base, part_inserted};
ghost use Rattle.ot_text.specs.Pieces.{list_after_part};
ghost use Rattle.ot_text.specs.Ready.{insert_count, part_insert_count};
ghost use Rattle.gap_buffer.specs.Gapped.{whole_list};
ghost use Rattle.author_marks.specs.Authorship.{mark_by};
ghost use Rattle.author_marks.specs.GapRuns.{AreTidy, written_marks, run_room};

use crate::Run;
use crate::edits::{put_marks, take_marks};
use crate::seek::seek;
use gap_buffer::GapBuffer;
use ot_text::{Op, Part};

// Changes the marks, of which so many stand in front of the gap, by this performer's operation, and answers how many stand there
// then.
pub(crate) fn apply_parts(runs: &mut GapBuffer<Run>, before: u64, op: &Op, who: u32) -> u64
    requires base { base op.now ≡ length (written_marks (whole_list runs.old)) }
    requires before { before ≡ length (written_marks runs.old.front) }
    requires short { length (written_marks (whole_list runs.old)) + inserted op.now < 2 ^ 61 }
    requires room { 1 + 2 * insert_count op.now ≤ run_room runs.old }
    requires front_tidy { AreTidy runs.old.front }
    requires behind_tidy { AreTidy runs.old.behind }
    ensures front_tidy { AreTidy runs.new.front }
    ensures behind_tidy { AreTidy runs.new.behind }
    ensures marks { written_marks (whole_list runs.new) ≡ effect (mark_by who) op.now (written_marks (whole_list runs.old)) }
    ensures before { result ≡ length (written_marks runs.new.front) }
    ensures short { length (written_marks (whole_list runs.new)) < 2 ^ 61 }
{
    let mut before = before;
    let mut place = 0;
    for part in op.parts() {
        before = apply_part(runs, before, part, who, place);
        place += part.target();
    }
    before
}

// Does the part at the place of the marks, of which so many stand in front of the gap, and answers how many stand there then.
fn apply_part(runs: &mut GapBuffer<Run>, before: u64, part: &Part, who: u32, place: u64) -> u64
    requires before { before ≡ length (written_marks runs.old.front) }
    requires within { place + part_base part.now ≤ length (written_marks (whole_list runs.old)) }
    requires short { length (written_marks (whole_list runs.old)) + part_inserted part.now < 2 ^ 61 }
    requires proper { IsProper part.now }
    requires room { 1 + 2 * part_insert_count part.now ≤ run_room runs.old }
    requires front_tidy { AreTidy runs.old.front }
    requires behind_tidy { AreTidy runs.old.behind }
    ensures front_tidy { AreTidy runs.new.front }
    ensures behind_tidy { AreTidy runs.new.behind }
    ensures marks { written_marks (whole_list runs.new) ≡ list_after_part (mark_by who) part.now place (written_marks (whole_list runs.old)) }
    ensures before { result ≡ length (written_marks runs.new.front) }
    ensures room { run_room runs.old ≤ run_room runs.new + 2 * part_insert_count part.now }
{
    match part {
        Part::Retain(_) => before,
        Part::Insert(text) => {
            seek(runs, before, place);
            put_marks(runs, who, text.len());
            place + text.len()
        }
        Part::Delete(count) => {
            seek(runs, before, place);
            take_marks(runs, *count);
            place
        }
    }
}
