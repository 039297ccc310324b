//! The runs on both sides of the gap, as the runs of the marks.
ghost use Rattle.std.specs.Prelude.{◌≡◌, ◌↔◌, IsTrue, ◌≤◌, ◌<◌, ◌^◌, ◌-◌, [], ◌∷◌, ◌++◌, None, IfSome, IfOk, slice_get, length, take, drop};
ghost use Rattle.gap_buffer.specs.Gapped.{whole_list};
ghost use Rattle.author_marks.specs.GapRuns.{written_marks, joined_runs};

use crate::Run;
use crate::edits::{first_run, last_run};
use gap_buffer::GapBuffer;
use std::alloc::AllocError;

// The two runs next to the gap as one, if they have one number.
pub(crate) fn joined_run(runs: &GapBuffer<Run>) -> Option<Run>
    requires { length (written_marks (whole_list runs.now)) < 2 ^ 61 }
    ensures apart { result ≡ None → joined_runs runs.now.front runs.now.behind ≡ runs.now.front ++ runs.now.behind }
    ensures joined { IfSome result (λ run. joined_runs runs.now.front runs.now.behind ≡ (take (length runs.now.front - 1) runs.now.front ++ run ∷ []) ++ drop 1 runs.now.behind) }
    ensures some { IfSome result (λ run. (1 ≤ length runs.now.front) × (1 ≤ length runs.now.behind)) }
{
    match (last_run(runs.front()), first_run(runs.behind())) {
        (Some(last), Some(first)) if last.who == first.who => Some(Run {
            who: last.who,
            count: last.count + first.count,
        }),
        _ => None,
    }
}

// All the runs, the two next to the gap as one where they have one number.
pub(crate) fn joined_runs(runs: &GapBuffer<Run>) -> Result<Vec<Run>, AllocError>
    requires { length (written_marks (whole_list runs.now)) < 2 ^ 61 }
    ensures { IfOk result (λ made. made.items ≡ joined_runs runs.now.front runs.now.behind) }
{
    let mut made = Vec::from_slice(runs.allocator(), runs.front())?;
    match joined_run(runs) {
        Some(run) => {
            made.pop();
            made.push(run)?;
            made.extend_from_slice(&runs.behind()[1..])?;
        }
        None => made.extend_from_slice(runs.behind())?,
    }
    Ok(made)
}

// Run `place` of all the runs so joined, if there are so many.
fn run_at(runs: &GapBuffer<Run>, place: usize) -> Option<Run>
    requires { length (written_marks (whole_list runs.now)) < 2 ^ 61 }
    ensures { result ≡ slice_get (joined_runs runs.now.front runs.now.behind) place }
{
    let front = runs.front();
    let behind = runs.behind();
    match joined_run(runs) {
        Some(run) => {
            let last = front.len() - 1;
            if place < last {
                front.get(place).copied()
            } else if place == last {
                Some(run)
            } else {
                behind.get(place - last).copied()
            }
        }
        None => {
            if place < front.len() {
                front.get(place).copied()
            } else {
                behind.get(place - front.len()).copied()
            }
        }
    }
}

// How many the runs so joined are.
fn joined_len(runs: &GapBuffer<Run>) -> usize
    requires { length (written_marks (whole_list runs.now)) < 2 ^ 61 }
    ensures { result ≡ length (joined_runs runs.now.front runs.now.behind) }
{
    let both = runs.front().len() + runs.behind().len();
    match joined_run(runs) {
        Some(_) => both - 1,
        None => both,
    }
}

// Whether the runs so joined are the same.
pub(crate) fn same_runs(runs: &GapBuffer<Run>, other: &GapBuffer<Run>) -> bool
    requires short { length (written_marks (whole_list runs.now)) < 2 ^ 61 }
    requires other_short { length (written_marks (whole_list other.now)) < 2 ^ 61 }
    ensures { IsTrue result ↔ (joined_runs runs.now.front runs.now.behind ≡ joined_runs other.now.front other.now.behind) }
{
    let len = joined_len(runs);
    if len != joined_len(other) {
        return false;
    }
    for place in 0..len {
        if !same_run(run_at(runs, place), run_at(other, place)) {
            return false;
        }
    }
    true
}

// Whether both are one run, or none is there.
fn same_run(run: Option<Run>, other: Option<Run>) -> bool
    ensures { IsTrue result ↔ (run ≡ other) }
{
    match (run, other) {
        (Some(run), Some(other)) => run.who == other.who && run.count == other.count,
        (None, None) => true,
        (Some(_), None) => false,
        (None, Some(_)) => false,
    }
}
