//! Links: a source and a sink in one object.
ghost use Rattle.std.specs.Prelude.{◌≡◌, true, false};

use crate::{Sink, Source};

/// A source and a sink in one, with one count of faults.
pub trait Link: Source + Sink {
    /// Ends both directions: it may then be neither read, written nor closed again. It takes no memory.
    fn close(&mut self)
        requires is_open { Self.Source.closed self.old ≡ false }
        ensures taken { Self.Sink.taken self.new ≡ Self.Sink.taken self.old }
        ensures remaining { Self.Source.remaining self.new ≡ Self.Source.remaining self.old }
        ensures count { Self.Source.faults self.new ≡ Self.Source.faults self.old }
        ensures closed { Self.Source.closed self.new ≡ true };

    /// Both sides have one count of faults.
    ghost one_count: { (link : Self) → Self.Source.faults link ≡ Self.Sink.faults link };

    /// Both sides are closed at once.
    ghost one_state: { (link : Self) → Self.Source.closed link ≡ Self.Sink.closed link };

    /// What the sink tells of the bytes left is what the source tells.
    ghost remaining_is: { (link : Self) → Self.Sink.remaining_beside link ≡ Self.Source.remaining link };

    /// What the source tells of the bytes taken is what the sink tells.
    ghost taken_is: { (link : Self) → Self.Source.taken_beside link ≡ Self.Sink.taken link };
}
