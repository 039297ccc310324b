//! How a run ends.
ghost use Rattle.std.specs.Prelude.{◌≡◌};
ghost use Rattle.replay_run.specs.Outcome.{code_of};

use troop_ports::Status;

/// How a run of the program ends.
#[derive(Clone, Copy, Debug, PartialEq, Eq)]
pub enum Outcome {
    /// All that was asked was done, and all that is to be printed was written.
    Done,
    /// The words name no command.
    Usage,
    /// Memory was wanting.
    Memory,
    /// The input counted a fault.
    ReadFault,
    /// The output counted a fault.
    WriteFault,
    /// The net counted a fault.
    NetFault,
    /// The line of this number isn't in the grammar, or is over the limit of a line.
    BadLine(u64),
    /// The lines pass the limit of the input.
    TooMuch,
}

impl Outcome {
    /// The status that the outcome gives.
    pub fn status(self) -> Status
        ensures { result.code ≡ code_of self }
    {
        let code = match self {
            Outcome::Done => 0,
            Outcome::Usage => 2,
            Outcome::Memory => 3,
            Outcome::ReadFault => 4,
            Outcome::WriteFault => 5,
            Outcome::NetFault => 6,
            Outcome::BadLine(_) => 7,
            Outcome::TooMuch => 10,
        };
        Status { code }
    }
}
