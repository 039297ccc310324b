//! Lines of a source, one after the other, and what their readers answer.
ghost use Rattle.std.specs.Prelude.{◌≡◌, false};
ghost use Rattle.activities.specs.Lines.{coming, MayRead, TellsLine, TellsWhole, CountsAnswer, value_or};

use crate::errors::PerformError;
use troop_ports::Source;
use wire_json::Read;
use wire_lines::{Line, LineReader};

// The next line, of a reader that gave lines alone so far.
pub(crate) fn next_line<S: Source>(reader: &mut LineReader, source: &mut S) -> Line
    requires is_open { S.closed source.old ≡ false }
    requires may { MayRead reader.old (S.remaining source.old) }
    ensures line { TellsLine result reader.old.limit (coming reader.old (S.remaining source.old)) reader.new (S.remaining source.new) }
    ensures whole { TellsWhole result reader.old (coming reader.old (S.remaining source.old)) reader.new (S.remaining source.new) }
    ensures cause { CountsAnswer result (S.faults source.old) (S.faults source.new) }
    ensures beside { S.taken_beside source.new ≡ S.taken_beside source.old }
    ensures still_open { S.closed source.new ≡ false }
    ensures limit { reader.new.limit ≡ reader.old.limit }
{
    reader.next(source)
}

// The value that a reader answered, or the error by which there is none: `bad` where the line is outside the grammar.
pub(crate) fn value_or<T>(read: Read<T>, bad: PerformError) -> Result<T, PerformError>
    ensures { result ≡ value_or bad read }
{
    match read {
        Read::Value(value) => Ok(value),
        Read::Bad => Err(bad),
        Read::Memory => Err(PerformError::Memory),
    }
}
