//! The law of runs, the contract of a function that does nothing.
ghost use Rattle.std.specs.Prelude.{◌≡◌, List, ℕ};
ghost use Rattle.ot_text.specs.Marked.{runs_of};
ghost use Rattle.author_marks.specs.Runs.{AreRunsOf};

/// The runs of marks are not empty, no neighbours have one number, and written out they are the marks; and no other runs
/// are so.
pub fn runs_law()
    ensures runs { (marks : List ℕ) → AreRunsOf (runs_of marks) marks }
    ensures only { (runs : List (ℕ × ℕ)) (marks : List ℕ) → AreRunsOf runs marks → runs ≡ runs_of marks }
{}
