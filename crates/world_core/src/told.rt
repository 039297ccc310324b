//! What a step is told.
ghost use Rattle.std.specs.Prelude.{◌≡◌};
ghost use Rattle.world_core.specs.Steps.{told_by_reply};

use troop_entry::Reply;

/// What a step did. Anything but `Done` changed nothing.
#[derive(Clone, Copy, Debug, PartialEq, Eq)]
pub enum Told {
    /// It was done.
    Done,
    /// It doesn't fit the world: the performer isn't here, or can't take it now.
    Unfit,
    /// The log refused the call with this reply, or has kept it already.
    Refused(Reply),
    /// The edit is for a text of `want` characters, and the performer's has `got`.
    Base { want: u64, got: u64 },
    /// There is no block round this place of the performer's text.
    Blank { place: u64 },
    /// The whole world is to be shown.
    Show,
}

// What a step is told by a reply of the log.
pub(crate) fn told_by_reply(reply: Reply) -> Told
    ensures { result ≡ told_by_reply reply }
{
    match reply {
        Reply::Placed { .. } => Told::Done,
        Reply::Kept { .. }
        | Reply::Clash { .. }
        | Reply::NotMember { .. }
        | Reply::Ahead { .. }
        | Reply::BadBase { .. }
        | Reply::Crowded { .. } => Told::Refused(reply),
    }
}
