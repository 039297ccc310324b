//! How the gap goes to a place.
ghost use Rattle.std.specs.Prelude.{◌≡◌, ◌+◌, ◌≤◌, ◌<◌, ◌^◌, ◌++◌, Some, length, drop, replicate};
ghost use Rattle.gap_buffer.specs.Gapped.{whole_list};
ghost use Rattle.author_marks.specs.GapRuns.{AreTidy, written_marks, run_room, last_run, first_run};

use crate::Run;
use crate::edits::{first_run, last_run};
use gap_buffer::GapBuffer;

// Moves the gap, in front of which so many marks stand, to the place.
pub(crate) fn seek(runs: &mut GapBuffer<Run>, before: u64, place: u64)
    requires before { before ≡ length (written_marks runs.old.front) }
    requires within { place ≤ length (written_marks (whole_list runs.old)) }
    requires short { length (written_marks (whole_list runs.old)) < 2 ^ 61 }
    requires room { 1 ≤ run_room runs.old }
    requires front_tidy { AreTidy runs.old.front }
    requires behind_tidy { AreTidy runs.old.behind }
    ensures front_tidy { AreTidy runs.new.front }
    ensures behind_tidy { AreTidy runs.new.behind }
    ensures marks { written_marks (whole_list runs.new) ≡ written_marks (whole_list runs.old) }
    ensures place { length (written_marks runs.new.front) ≡ place }
    ensures room { run_room runs.old ≤ run_room runs.new }
{
    let before = join(runs, before);
    let before = go_back(runs, before, place);
    go_on(runs, before, place);
}

// Makes the runs next to the gap one, in front of it, if they have one number, and answers how many marks stand in front of it
// then.
fn join(runs: &mut GapBuffer<Run>, before: u64) -> u64
    requires before { before ≡ length (written_marks runs.old.front) }
    requires short { length (written_marks (whole_list runs.old)) < 2 ^ 61 }
    requires front_tidy { AreTidy runs.old.front }
    requires behind_tidy { AreTidy runs.old.behind }
    ensures tidy { AreTidy (whole_list runs.new) }
    ensures marks { written_marks (whole_list runs.new) ≡ written_marks (whole_list runs.old) }
    ensures before { result ≡ length (written_marks runs.new.front) }
    ensures room { run_room runs.old ≤ runs.new.spare }
{
    match (last_run(runs.front()), first_run(runs.behind())) {
        (Some(last), Some(first)) if last.who == first.who => {
            runs.take_front(1);
            runs.take_behind(1);
            runs.put_front(&[Run {
                who: last.who,
                count: last.count + first.count,
            }]);
            before + first.count
        }
        _ => before,
    }
}

// Moves the gap over whole runs until the place isn't in front of it.
fn go_back(runs: &mut GapBuffer<Run>, before: u64, place: u64) -> u64
    requires before { before ≡ length (written_marks runs.old.front) }
    requires short { length (written_marks (whole_list runs.old)) < 2 ^ 61 }
    ensures runs { whole_list runs.new ≡ whole_list runs.old }
    ensures before { result ≡ length (written_marks runs.new.front) }
    ensures reached { result ≤ place }
    ensures spare { runs.new.spare ≡ runs.old.spare }
{
    let mut at = before;
    while at > place {
        let Some(last) = last_run(runs.front()) else {
            return at;
        };
        let start = runs.front().len() - 1;
        runs.move_to(start);
        at -= last.count;
    }
    at
}

// Moves the gap on to the place, over whole runs and then into one.
fn go_on(runs: &mut GapBuffer<Run>, before: u64, place: u64)
    requires before { before ≡ length (written_marks runs.old.front) }
    requires behind { before ≤ place }
    requires within { place ≤ length (written_marks (whole_list runs.old)) }
    requires short { length (written_marks (whole_list runs.old)) < 2 ^ 61 }
    requires spare { 1 ≤ runs.old.spare }
    requires tidy { AreTidy (whole_list runs.old) }
    ensures front_tidy { AreTidy runs.new.front }
    ensures behind_tidy { AreTidy runs.new.behind }
    ensures marks { written_marks (whole_list runs.new) ≡ written_marks (whole_list runs.old) }
    ensures place { length (written_marks runs.new.front) ≡ place }
    ensures room { runs.old.spare ≤ run_room runs.new }
{
    let mut at = before;
    while at < place {
        let Some(first) = first_run(runs.behind()) else {
            return;
        };
        if place - at < first.count {
            split_first(runs, first, place - at);
            return;
        }
        let end = runs.front().len() + 1;
        runs.move_to(end);
        at += first.count;
    }
}

// Moves the gap into the first run behind it.
fn split_first(runs: &mut GapBuffer<Run>, first: Run, count: u64)
    requires first { first_run runs.old.behind ≡ Some first }
    requires within { count < first.count }
    requires spare { 1 ≤ runs.old.spare }
    requires some { 1 ≤ count }
    requires tidy { AreTidy (whole_list runs.old) }
    ensures front_tidy { AreTidy runs.new.front }
    ensures behind_tidy { AreTidy runs.new.behind }
    ensures marks { written_marks (whole_list runs.new) ≡ written_marks (whole_list runs.old) }
    ensures front { length (written_marks runs.new.front) ≡ length (written_marks runs.old.front) + count }
    ensures room { runs.old.spare ≤ run_room runs.new }
{
    runs.take_behind(1);
    runs.put_front(&[Run {
        who: first.who,
        count,
    }]);
    runs.put_behind(&[Run {
        who: first.who,
        count: first.count - count,
    }]);
}
