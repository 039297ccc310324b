//! What a hall keeps: a state that stands for a list of rows, and is changed by asks.
ghost use Rattle.std.specs.Prelude.{◌≡◌, ℕ, Bool, true, List, [], ◌∷◌, ◌++◌, length, if◌then◌else◌, IfOk, OnErr, IsOk};

use std::alloc::AllocError;

/// A state that a hall may keep. It stands for a list of rows, which grows by one row at each ask that is accepted.
pub trait Played {
    /// What is asked of the state.
    type Ask;

    /// What an ask is answered.
    type Reply;

    /// What an accepted ask adds to the state's rows.
    type Row;

    /// The part of a state that no play changes.
    type Fixed;

    // The rows that the state stands for.
    ghost rows: { Self → List Self.Row };

    // The part of it that no play changes.
    ghost fixed: { Self → Self.Fixed };

    // The number of the seat that a row carries.
    ghost seat_of: { Self.Row → ℕ };

    // What one thread answers the ask at these rows.
    ghost answer: { Self.Fixed → List Self.Row → Self.Ask → Self.Reply };

    // Whether the ask adds a row to them.
    ghost accepts: { Self.Fixed → List Self.Row → Self.Ask → Bool };

    // The row that an accepted ask makes there, through the seat of this number.
    ghost row_made: { Self.Fixed → List Self.Row → ℕ → Self.Ask → Self.Row };

    // Whether the play of the ask takes no memory.
    ghost is_free: { Self.Ask → Bool };

    // What holds of the rows of each state.
    ghost legal: { Self.Fixed → List Self.Row → Type 0 };

    /// Answers the ask as one thread does, and adds the row that it makes, through the seat of this number, exactly where it is
    /// accepted. Want of memory changes nothing, and comes only where the ask would be accepted.
    fn play(&mut self, seat: u64, ask: &Self::Ask) -> Result<Self::Reply, AllocError>
        ensures fixed { fixed self.new ≡ fixed self.old }
        ensures reply { IfOk result (λ r. r ≡ answer (fixed self.old) (rows self.old) ask.now) }
        ensures rows { IfOk result (λ _. rows self.new ≡ rows self.old ++ (if accepts (fixed self.old) (rows self.old) ask.now then row_made (fixed self.old) (rows self.old) seat ask.now ∷ [] else [])) }
        ensures memory { OnErr result (rows self.new ≡ rows self.old) }
        ensures wanting { OnErr result (accepts (fixed self.old) (rows self.old) ask.now ≡ true) }
        ensures free { is_free ask.now ≡ true → IsOk result };

    /// How many rows it stands for, which are legal.
    fn length(&self) -> u64
        ensures rows { result ≡ length (rows self.now) }
        ensures legal { legal (fixed self.now) (rows self.now) };

    // The row that an ask makes carries the number of its seat.
    ghost carries_seat: { (f : Self.Fixed) (xs : List Self.Row) (seat : ℕ) (ask : Self.Ask) → seat_of (row_made f xs seat ask) ≡ seat };
}
