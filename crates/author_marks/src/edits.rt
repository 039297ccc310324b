//! What is put in and taken out at the gap.
ghost use Rattle.std.specs.Prelude.{◌≡◌, ◌+◌, ◌≤◌, ◌<◌, ◌^◌, ◌++◌, Some, length, drop, replicate};
ghost use Rattle.gap_buffer.specs.Gapped.{whole_list};
ghost use Rattle.author_marks.specs.GapRuns.{AreTidy, written_marks, run_room, last_run, first_run};

use crate::Run;
use gap_buffer::GapBuffer;

// The last of the runs.
pub(crate) fn last_run(runs: &[Run]) -> Option<Run>
    ensures { result ≡ last_run runs.now }
{
    runs.last().copied()
}

// The first of the runs.
pub(crate) fn first_run(runs: &[Run]) -> Option<Run>
    ensures { result ≡ first_run runs.now }
{
    runs.first().copied()
}

// Puts so many marks in, in front of the gap.
pub(crate) fn put_marks(runs: &mut GapBuffer<Run>, who: u32, count: u64)
    requires room { 2 ≤ run_room runs.old }
    requires short { length (written_marks runs.old.front) + count < 2 ^ 61 }
    requires some { 1 ≤ count }
    requires tidy { AreTidy runs.old.front }
    ensures tidy { AreTidy runs.new.front }
    ensures front { written_marks runs.new.front ≡ written_marks runs.old.front ++ replicate count who }
    ensures behind { runs.new.behind ≡ runs.old.behind }
    ensures room { run_room runs.old ≤ run_room runs.new + 2 }
{
    match last_run(runs.front()) {
        Some(last) if last.who == who => {
            runs.take_front(1);
            let count = last.count + count;
            runs.put_front(&[Run { who, count }]);
        }
        _ => runs.put_front(&[Run { who, count }]),
    }
}

// Takes so many marks out, from behind the gap.
pub(crate) fn take_marks(runs: &mut GapBuffer<Run>, count: u64)
    requires within { count ≤ length (written_marks runs.old.behind) }
    requires tidy { AreTidy runs.old.behind }
    ensures tidy { AreTidy runs.new.behind }
    ensures front { runs.new.front ≡ runs.old.front }
    ensures behind { written_marks runs.new.behind ≡ drop count (written_marks runs.old.behind) }
    ensures room { run_room runs.old ≤ run_room runs.new }
{
    let mut left = count;
    while left > 0 {
        let Some(first) = first_run(runs.behind()) else {
            return;
        };
        if left < first.count {
            shorten_first(runs, first, left);
            return;
        }
        runs.take_behind(1);
        left -= first.count;
    }
}

// Takes so many marks out of the first run behind the gap.
fn shorten_first(runs: &mut GapBuffer<Run>, first: Run, count: u64)
    requires first { first_run runs.old.behind ≡ Some first }
    requires within { count < first.count }
    requires tidy { AreTidy runs.old.behind }
    ensures tidy { AreTidy runs.new.behind }
    ensures front { runs.new.front ≡ runs.old.front }
    ensures behind { written_marks runs.new.behind ≡ drop count (written_marks runs.old.behind) }
    ensures room { run_room runs.old ≤ run_room runs.new }
{
    runs.take_behind(1);
    let count = first.count - count;
    runs.put_behind(&[Run {
        who: first.who,
        count,
    }]);
}
