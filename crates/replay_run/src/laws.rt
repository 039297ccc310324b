//! Laws of a script's lines and of the statuses, each the contract of a function that does nothing.
ghost use Rattle.replay_run.specs.Laws.{FirstStop, ReplaysExactly, FaultsExactly};

/// The line by which a script stops is the first that is over the limit of a line, or with which the lines pass the limit of
/// the input, or that is neither blank nor a step; where there is none, it doesn't stop.
pub fn first_stop_law()
    ensures { FirstStop }
{}

/// Where no fault was counted and memory wasn't wanting, the status is that by which the input's bytes stop, or 0 where they
/// don't, and all that they print was written.
pub fn replays_exactly()
    ensures { ReplaysExactly }
{}

/// Each count of faults rose at its own status, and at no other.
pub fn faults_exactly()
    ensures { FaultsExactly }
{}
