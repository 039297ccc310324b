//! How the end of a performer's run is reported.
ghost use Rattle.std.specs.Prelude.{◌≡◌, Some, false};
ghost use Rattle.replay_run.specs.Ports.{port_of};
ghost use Rattle.troop_main.specs.Reports.{bad_peer_on, ReportsEnd};

use performer::{PerformError, Side};
use replay_run::{Outcome, report_number, report_parts};
use std::alloc::Global;
use troop_ports::{Sink, Status};
use wire_json::WireReply;
use wire_print::print_reply;

/// The status of a performer whose call wasn't placed, or that was made to leave.
const REFUSED: u8 = 8;

/// The status of a performer to whom the server wrote what it may not.
const BAD_PEER: u8 = 9;

/// The status of a performer whose next request is too long.
const LONG_REQUEST: u8 = 11;

/// Writes the line of the end on the error stream, and answers its status. It takes no memory but for a refusal's line, and where that is wanting the status is
/// that of want of memory.
pub fn report_end<E: Sink>(alloc: Global, end: Option<PerformError>, err: &mut E) -> Status
    requires { E.closed err.old ≡ false }
    ensures ends { ReportsEnd end result.code (port_of (E.taken err.old) (E.taken err.new) (E.faults err.old) (E.faults err.new)) }
    ensures still_open { E.closed err.new ≡ false }
{
    match end {
        None => Outcome::Done.report(err),
        Some(error) => report_error(alloc, error, err),
    }
}

// Writes the line of an error.
fn report_error<E: Sink>(alloc: Global, error: PerformError, err: &mut E) -> Status
    requires { E.closed err.old ≡ false }
    ensures ends { ReportsEnd (Some error) result.code (port_of (E.taken err.old) (E.taken err.new) (E.faults err.old) (E.faults err.new)) }
    ensures still_open { E.closed err.new ≡ false }
{
    match error {
        PerformError::ReadFault => Outcome::ReadFault.report(err),
        PerformError::WriteFault => Outcome::WriteFault.report(err),
        PerformError::NetFault => Outcome::NetFault.report(err),
        PerformError::BadInput { line } => Outcome::BadLine(line).report(err),
        PerformError::TooMuch => Outcome::TooMuch.report(err),
        PerformError::Memory => Outcome::Memory.report(err),
        PerformError::Refused(reply) => report_refusal(alloc, reply, err),
        PerformError::Dropped { at } => {
            report_number(b"troop: dropped at ", at, b"\n", err);
            Status { code: REFUSED }
        }
        PerformError::BadPeer { side, line, .. } => {
            report_number(bad_peer_on(side), line, b"\n", err);
            Status { code: BAD_PEER }
        }
        PerformError::LongRequest { bytes } => {
            report_number(b"troop: request of ", bytes, b" bytes is too long\n", err);
            Status { code: LONG_REQUEST }
        }
    }
}

// Writes the line of a refusal, if there is memory for it.
fn report_refusal<E: Sink>(alloc: Global, reply: WireReply, err: &mut E) -> Status
    requires { E.closed err.old ≡ false }
    ensures ends { ReportsEnd (Some (PerformError.Refused reply)) result.code (port_of (E.taken err.old) (E.taken err.new) (E.faults err.old) (E.faults err.new)) }
    ensures still_open { E.closed err.new ≡ false }
{
    let Ok(line) = print_reply(alloc, &reply) else {
        return Outcome::Memory.report(err);
    };
    report_parts(b"troop: refused ", line.as_slice(), err);
    Status { code: REFUSED }
}

// How the line of a bad peer begins.
fn bad_peer_on(side: Side) -> &'static [u8]
    ensures { result.now ≡ bad_peer_on side }
{
    match side {
        Side::Up => b"troop: bad peer, up line ",
        Side::Down => b"troop: bad peer, down line ",
    }
}
