//! Where children come from, and where they are buried.
ghost use Rattle.std.specs.Prelude.{◌≡◌, ℕ, ◌+◌, ◌<◌, ◌≤◌, List, [], Option, Bool, false, IfSome, IsSome, OnOk, OnErr};
ghost use Rattle.pipe_ports.specs.Pipes.{Starts, IsReadyToStart, IfStarted, KeepsGraves, CountsStart, FollowsStarts, with_burial, sum_count};

use crate::Child;
use std::alloc::AllocError;

/// What a start answers.
#[derive(Debug, Drop)]
pub enum Started<C> {
    Child(C),
    /// A fault was counted.
    Failed,
}

/// A hatch: it starts children, and buries them when they are done with.
pub trait Hatch: Drop {
    type C: Child;

    /// The bytes of each child buried, where they are told.
    ghost buried: { Self → Option (List (List ℕ)) };

    /// How many starts are to be refused and how many bytes the next child takes, where it is told.
    ghost starts: { Self → Option Starts };

    /// The places kept for burials.
    ghost graves: { Self → ℕ };

    /// For how many bytes of the next child it is ready, if it is.
    ghost readiness: { Self → Option ℕ };

    /// How many faults there were. A count at its last value stands still.
    ghost faults: { Self → ℕ };

    /// Makes it ready for one start of a child that takes so many bytes.
    fn ready(&mut self, bytes: u64) -> Result<(), AllocError>
        ensures ready { OnOk result (IsReadyToStart (readiness self.new) bytes) }
        ensures memory { OnErr result (readiness self.new ≡ readiness self.old) }
        ensures buried { buried self.new ≡ buried self.old }
        ensures starts { starts self.new ≡ starts self.old }
        ensures graves { graves self.new ≡ graves self.old }
        ensures faults { faults self.new ≡ faults self.old };

    /// Starts a child with room for as many bytes as the hatch was ready for, and keeps a grave for it.
    fn start(&mut self) -> Started<Self::C>
        requires ready { IsSome (readiness self.old) }
        ensures fresh { IfStarted result (λ child. IfSome (Self.C.taken child) (λ bytes. bytes ≡ [])) }
        ensures calm { IfStarted result (λ child. Self.C.faults child ≡ 0) }
        ensures is_open { IfStarted result (λ child. Self.C.closed child ≡ false) }
        ensures room { IfStarted result (λ child. IfSome (readiness self.old) (λ bytes. bytes ≤ Self.C.room child)) }
        ensures graves { KeepsGraves result (graves self.old) (graves self.new) }
        ensures starts { FollowsStarts Self.C.limit result (starts self.old) (starts self.new) }
        ensures cause { CountsStart result (faults self.old) (faults self.new) }
        ensures buried { buried self.new ≡ buried self.old };

    /// Takes a child, closed or not, with its bytes and its faults. It takes no memory.
    fn bury(&mut self, child: Self::C)
        requires grave { 1 ≤ graves self.old }
        ensures buried { buried self.new ≡ with_burial (buried self.old) (Self.C.taken child) }
        ensures starts { starts self.new ≡ starts self.old }
        ensures graves { graves self.old ≤ graves self.new + 1 }
        ensures faults { faults self.new ≡ sum_count (faults self.old) (Self.C.faults child) };
}
