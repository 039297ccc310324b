//! A law of drawn edits, the contract of a function that does nothing.
ghost use Rattle.std.specs.Prelude.{◌≡◌, ℕ, ◌+◌, ◌<◌, ◌≤◌, List, ◌∷◌, ◌++◌, length, take, drop, true, false};
ghost use Rattle.ot_text.specs.Change.{base, target, effect, plain};
ghost use Rattle.draws.specs.Numbers.{number_after_draw};
ghost use Rattle.draws.specs.Edits.{drawn_letter, drawn_place, takes_away, drawn_edit};

/// A drawn edit is one of a text of so many characters, which it makes one shorter or one longer: the character at the drawn place
/// goes, or the drawn letter comes in front of it.
pub fn edit_law()
    ensures base { (n number : ℕ) → base (drawn_edit n number) ≡ n }
    ensures shorter { (n number : ℕ) → takes_away n number ≡ true → target (drawn_edit n number) + 1 ≡ n }
    ensures longer { (n number : ℕ) → takes_away n number ≡ false → target (drawn_edit n number) ≡ n + 1 }
    ensures place { (n number : ℕ) → drawn_place n number ≤ n }
    ensures place_away { (n number : ℕ) → takes_away n number ≡ true → drawn_place n number < n }
    ensures goes { (n number : ℕ) (text : List ℕ) → length text ≡ n → takes_away n number ≡ true
        → effect plain (drawn_edit n number) text ≡ take (drawn_place n number) text ++ drop (drawn_place n number + 1) text }
    ensures comes { (n number : ℕ) (text : List ℕ) → length text ≡ n → takes_away n number ≡ false
        → effect plain (drawn_edit n number) text ≡ take (drawn_place n number) text ++ (drawn_letter (number_after_draw (number_after_draw number)) ∷ drop (drawn_place n number) text) }
{}
