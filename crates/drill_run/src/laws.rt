//! A law of draining, the contract of a function that does nothing.
ghost use Rattle.std.specs.Prelude.{◌≡◌, ℕ, All, length};
ghost use Rattle.world_core.specs.declared.told.Told.{Told};
ghost use Rattle.world_core.specs.States.{WorldState};
ghost use Rattle.world_core.specs.Steps.{told_of};
ghost use Rattle.drill_run.specs.declared.turn.Turn.{Turn};
ghost use Rattle.drill_run.specs.Draining.{IsDrained, after_round, turn_step, until_unfit};
ghost use Rattle.drill_run.specs.OpenWorlds.{IsOpenWorld};

/// A step that was repeated as often as the performer can is unfit then; and a round of a world whose performers are all drained
/// changes nothing.
pub fn drain_law()
    ensures unfit { (t : Turn) (who : ℕ) (w : WorldState) → IsOpenWorld w → told_of (turn_step t who) (until_unfit t who w) ≡ Told.Unfit }
    ensures further { (w : WorldState) → All (IsDrained (length w.log)) w.performers → after_round w ≡ w }
{}
