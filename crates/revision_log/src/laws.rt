//! What a hall wants of a legal log, as the contract of a function that does nothing.
ghost use Rattle.std.specs.Prelude.{◌≡◌, ◌∷◌, ◌++◌, [], true, ℕ, List};
ghost use Rattle.troop_entry.specs.declared.call.Call.{Call};
ghost use Rattle.troop_entry.specs.declared.row.Row.{Row};
ghost use Rattle.log_model.specs.Answers.{answer, is_accepted, row_made};
ghost use Rattle.log_model.specs.Legal.{IsLegal};

/// What a legal log begins with is legal, and so is a legal log with the row that an accepted call makes.
pub fn growth_law()
    ensures begins { (log more : List Row) → IsLegal (log ++ more) → IsLegal log }
    ensures accepted { (log : List Row) (seat who num : ℕ) (call : Call) → IsLegal log → is_accepted (answer log who num call) ≡ true
        → IsLegal (log ++ row_made log seat who num call ∷ []) }
{}
