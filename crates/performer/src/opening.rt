//! The opening of both links.
ghost use Rattle.std.specs.Prelude.{◌≡◌, false, IfOk};
ghost use Rattle.activities.specs.Counts.{CountsResult};
ghost use Rattle.activities.specs.Lines.{coming, MayRead};
ghost use Rattle.activities.specs.Up.{SentCall, longest_request};
ghost use Rattle.performer.specs.Opening.{join_pair, WroteDown};

use activities::{PerformError, Placing, send_call};
use ot_text::Text;
use std::alloc::Global;
use troop_entry::{Call, Lang, Request};
use troop_ports::{Link, Written, write_all};
use wire_lines::LineReader;
use wire_print::print_request;

// Writes the join, and reads its reply.
pub(crate) fn open_up<L: Link>(
    alloc: Global,
    reader: &mut LineReader,
    link: &mut L,
    name: &Text,
    lang: Lang,
) -> Result<Placing, PerformError>
    requires is_open { (L.Source.closed link.old ≡ false) × MayRead reader.old (L.Source.remaining link.old) × (reader.old.limit ≡ longest_request) }
    ensures still_open { (L.Source.closed link.new ≡ false) × IfOk result (λ _. MayRead reader.new (L.Source.remaining link.new)) × (reader.new.limit ≡ longest_request) }
    ensures sent { SentCall 1 (join_pair name.now lang) reader.old.state (coming reader.old (L.Source.remaining link.old)) (coming reader.new (L.Source.remaining link.new)) (L.Source.remaining link.new)
        (L.Sink.taken link.old) (L.Sink.taken link.new) result }
    ensures faults { CountsResult result (L.Source.faults link.old) (L.Source.faults link.new) }
{
    let Ok(name) = name.try_clone() else {
        return Err(PerformError::Memory);
    };
    send_call(alloc, reader, link, 0, Call::Join { name, lang }, 1)
}

// Asks for all entries, on behalf of this performer.
pub(crate) fn open_down<L: Link>(alloc: Global, link: &mut L, who: u32) -> Result<(), PerformError>
    requires is_open { L.Source.closed link.old ≡ false }
    ensures still_open { L.Source.closed link.new ≡ false }
    ensures wrote { WroteDown who (L.Sink.taken link.old) (L.Sink.taken link.new) result }
    ensures remaining { L.Source.remaining link.new ≡ L.Source.remaining link.old }
    ensures faults { CountsResult result (L.Source.faults link.old) (L.Source.faults link.new) }
{
    let Ok(line) = print_request(alloc, &Request::Down { start: 0, who }) else {
        return Err(PerformError::Memory);
    };
    match write_all(link, line.as_slice()) {
        Written::All => {}
        Written::Part(_) => return Err(PerformError::NetFault),
    }
    Ok(())
}
