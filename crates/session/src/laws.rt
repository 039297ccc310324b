//! Laws of sessions, each the contract of a function that does nothing.
ghost use Rattle.std.specs.Prelude.{◌≡◌, ℕ, List, true, false};
ghost use Rattle.std.specs.List.{list_any};
ghost use Rattle.seat_lock.specs.Lists.{Begins};
ghost use Rattle.troop_entry.specs.declared.row.Row.{Row};
ghost use Rattle.log_model.specs.Log.{has_join, has_leave};
ghost use Rattle.session.specs.declared.opening.Opening.{Opening};
ghost use Rattle.session.specs.declared.session_end.SessionEnd.{SessionEnd};
ghost use Rattle.session.specs.Ends.{Wires};
ghost use Rattle.session.specs.Replies.{AnsweredLine, AreReplies};
ghost use Rattle.session.specs.Sessions.{First, Session};
ghost use Rattle.session.specs.Truths.{AreTrue, is_denied};
ghost use Rattle.session.specs.UpLines.{Attends};

/// What is said of a session at a log holds at every log that goes on from it.
pub fn later_law()
    ensures { (first : First) (seat : ℕ) (seen log later gained : List Row) (end : SessionEnd) (w : Wires) → Begins log later
        → Session first seat seen log gained end w → Session first seat seen later gained end w }
{}

/// What each reply to a line of a performer that has joined says is true of the log behind all of them.
pub fn truth_law()
    ensures { (seat who number : ℕ) (before : List Row) (turns : List AnsweredLine) (after : List Row) → has_join before who ≡ true
        → AreReplies seat who number before turns after → AreTrue seat who after number before turns }
{}

/// Where a performer was told that it is no member, the leave that says so isn't among the rows that its session gained.
pub fn denied_law()
    ensures { (limit seat who : ℕ) (opening : Opening) (before log rows : List Row) (first : List ℕ) (end : SessionEnd) (w : Wires)
        → has_join before who ≡ true → (a : Attends limit seat who opening before log rows first end w) → list_any is_denied a.turns ≡ true
        → (has_leave log who ≡ true) × (has_leave rows who ≡ false) }
{}
