//! The law of equal calls, the contract of a function that does nothing.
ghost use Rattle.std.specs.Prelude.{◌≡◌, ◌↔◌, true};
ghost use Rattle.troop_entry.specs.declared.call.Call.{Call};
ghost use Rattle.troop_entry.specs.Same.{same_call};

/// The test of two calls is true exactly of equal ones.
pub fn same_call_law()
    ensures { (a b : Call) → (same_call a b ≡ true) ↔ (a ≡ b) }
{}
