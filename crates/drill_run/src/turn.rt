//! What performers do again and again at the end of a drill.
ghost use Rattle.std.specs.Prelude.{◌≡◌};
ghost use Rattle.drill_run.specs.Draining.{turn_step};

use wire_json::Step;

/// What a performer does until it can't.
#[derive(Clone, Copy, Debug, PartialEq, Eq)]
pub enum Turn {
    /// Its next call goes to the log.
    Serve,
    /// It takes the next entry.
    Take,
    /// Its interpreter is fed the next block.
    Feed,
}

impl Turn {
    /// The step of the performer of this number.
    pub fn step(self, who: u32) -> Step
        ensures { result ≡ turn_step self who }
    {
        match self {
            Turn::Serve => Step::Serve { who },
            Turn::Take => Step::Take { who },
            Turn::Feed => Step::Feed {
                who,
                fail_after: None,
            },
        }
    }
}
