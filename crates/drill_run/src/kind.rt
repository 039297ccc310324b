//! What kind of step is drawn.
ghost use Rattle.std.specs.Prelude.{◌≡◌};
ghost use Rattle.drill_run.specs.Script.{kind_of};

/// The kinds of drawn steps.
#[derive(Clone, Copy, Debug, PartialEq, Eq)]
pub enum Kind {
    /// A performer types.
    Edit,
    /// Its next call goes to the log.
    Serve,
    /// It takes the next entry.
    Take,
    /// It evaluates.
    Eval,
    /// Its interpreter is fed, and perhaps dies soon.
    Feed,
    /// It resets the text, or its interpreter is fed.
    ResetOrFeed,
}

impl Kind {
    /// How many numbers stand for kinds.
    pub const NUMBERS: u64 = 13;

    /// The kind that a number stands for.
    pub fn of(number: u64) -> Kind
        ensures { result ≡ kind_of number }
    {
        match number {
            0..=2 => Kind::Edit,
            3..=5 => Kind::Serve,
            6..=9 => Kind::Take,
            10 => Kind::Eval,
            11 => Kind::Feed,
            _ => Kind::ResetOrFeed,
        }
    }
}
