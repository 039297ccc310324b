//! The run of a performer between two links to an address.
ghost use Rattle.std.specs.Prelude.{◌≡◌, ◌+◌, Option, None, false, MatchOption, IfSome, IfOk, IfErr, IsSomeAnd, option_copied, chars};
ghost use Rattle.activities.specs.declared.errors.PerformError.{PerformError};
ghost use Rattle.performer.specs.Ends.{error_or, first_error};
ghost use Rattle.replay_run.specs.Ports.{port_of};
ghost use Rattle.troop_ports.specs.Nets.{asked_at};
ghost use Rattle.troop_main.specs.Serving.{net_port_of};
ghost use Rattle.troop_main.specs.Words.{IsName, announced};
ghost use Rattle.troop_main.specs.Performing.{shelf_port_of, AsksOnly, IsBoot, FailsBoot, PrintsLast, closing_lines, GaveBoth, FailsDial, SaysPerformed, Performs};

use crate::billing::Billing;
use crate::reports::report_end;
use activities::print_performer;
use child_driver::Driver;
use ot_text::Text;
use performer::{PerformError, Report, perform};
use pipe_ports::Hatch;
use stage_state::Stage;
use std::alloc::{AllocError, Global};
use std::sync::Wait;
use std::thread::Threads;
use troop_entry::Note;
use troop_ports::{Dialled, Fetched, Net, Shelf, Sink, Source, Status, Written, write_all};
use wire_print::print_journal;

/// How many bytes a boot file may have.
const MOST_BOOT: u64 = 1_048_576;

/// Fetches the boot file, dials the address twice, performs between these links, gives them back, the up link first, prints the performer's line and its journal's, and
/// reports how the run ended. The hatch comes back with all that it buried.
///
/// An error of what comes before the run, the opening with it, prints nothing on `out`.
pub fn perform_at<
    I: Source + Send,
    O: Sink + Send,
    E: Sink,
    N: Net,
    H: Hatch + Send,
    S: Shelf,
    R: Threads + Wait + Sync,
>(
    rt: &R,
    alloc: Global,
    addr: &str,
    billing: Billing<'_>,
    input: &mut I,
    out: &mut O,
    err: &mut E,
    net: &mut N,
    hatch: H,
    shelf: &mut S,
) -> (Status, H)
where
    N::L: Send,
    H::C: Send,
    requires name { IsName (chars billing.name.now) }
    requires input_open { I.closed input.old ≡ false }
    requires out_open { O.closed out.old ≡ false }
    requires err_open { E.closed err.old ≡ false }
    ensures table { Performs (record { remaining = N.L.Source.remaining; written = N.L.Sink.taken; link_faults = N.L.Source.faults; buried = H.buried; hatch_faults = H.faults; taken = H.C.taken; child_faults = H.C.faults }) (announced billing.entry) result.0.code
        (record {
          input = port_of (I.remaining input.old) (I.remaining input.new) (I.faults input.old) (I.faults input.new);
          out = port_of (O.taken out.old) (O.taken out.new) (O.faults out.old) (O.faults out.new);
          shelf = shelf_port_of (S.files shelf.old) (S.faults shelf.old) (S.faults shelf.new);
          net = net_port_of addr.now (N.site net.old) (N.links net.old) (N.links net.new) (N.retired net.old) (N.retired net.new) (N.faults net.old) (N.faults net.new);
          hatch_before = hatch;
          hatch_after = result.1;
        })
        (port_of (E.taken err.old) (E.taken err.new) (E.faults err.old) (E.faults err.new)) }
    ensures site { AsksOnly addr.now (N.site net.old) (N.site net.new) }
    ensures files { S.files shelf.new ≡ S.files shelf.old }
    ensures doors { N.doors net.new ≡ N.doors net.old }
    ensures shut_doors { N.shut_doors net.new ≡ N.shut_doors net.old }
    ensures places { N.places net.new ≡ N.places net.old }
    ensures door_places { N.door_places net.new ≡ N.door_places net.old }
    ensures still_open { (I.closed input.new ≡ false) × (O.closed out.new ≡ false) × (E.closed err.new ≡ false) }
{
    let (end, hatch) = run(rt, alloc, addr, billing, input, out, net, hatch, shelf);
    (report_end(alloc, end, err), hatch)
}

// Fetches, dials, performs, gives back, and prints.
fn run<
    I: Source + Send,
    O: Sink + Send,
    N: Net,
    H: Hatch + Send,
    S: Shelf,
    R: Threads + Wait + Sync,
>(
    rt: &R,
    alloc: Global,
    addr: &str,
    billing: Billing<'_>,
    input: &mut I,
    out: &mut O,
    net: &mut N,
    hatch: H,
    shelf: &mut S,
) -> (Option<PerformError>, H)
where
    N::L: Send,
    H::C: Send,
    requires name { IsName (chars billing.name.now) }
    requires input_open { I.closed input.old ≡ false }
    requires out_open { O.closed out.old ≡ false }
    ensures says { SaysPerformed (record { remaining = N.L.Source.remaining; written = N.L.Sink.taken; link_faults = N.L.Source.faults; buried = H.buried; hatch_faults = H.faults; taken = H.C.taken; child_faults = H.C.faults }) (announced billing.entry) result.0
        (record {
          input = port_of (I.remaining input.old) (I.remaining input.new) (I.faults input.old) (I.faults input.new);
          out = port_of (O.taken out.old) (O.taken out.new) (O.faults out.old) (O.faults out.new);
          shelf = shelf_port_of (S.files shelf.old) (S.faults shelf.old) (S.faults shelf.new);
          net = net_port_of addr.now (N.site net.old) (N.links net.old) (N.links net.new) (N.retired net.old) (N.retired net.new) (N.faults net.old) (N.faults net.new);
          hatch_before = hatch;
          hatch_after = result.1;
        }) }
    ensures site { AsksOnly addr.now (N.site net.old) (N.site net.new) }
    ensures files { S.files shelf.new ≡ S.files shelf.old }
    ensures doors { N.doors net.new ≡ N.doors net.old }
    ensures shut_doors { N.shut_doors net.new ≡ N.shut_doors net.old }
    ensures places { N.places net.new ≡ N.places net.old }
    ensures door_places { N.door_places net.new ≡ N.door_places net.old }
    ensures still_open { (I.closed input.new ≡ false) × (O.closed out.new ≡ false) }
{
    let boot = match fetch_boot(alloc, billing.boot, shelf) {
        Ok(boot) => boot,
        Err(error) => return (Some(error), hatch),
    };
    let Ok(name) = Text::of(alloc, billing.name) else {
        return (Some(PerformError::Memory), hatch);
    };
    let Some((mut up, mut down)) = dial_both(addr, net) else {
        return (Some(PerformError::NetFault), hatch);
    };
    let driver = Driver::new(alloc, billing.lang, boot, hatch);
    let performed = perform(
        rt,
        alloc,
        &name,
        billing.lang,
        input,
        &mut up,
        &mut down,
        driver,
        out,
    );
    net.retire(up);
    net.retire(down);
    match performed {
        Ok(report) => print_report(alloc, &name, report, out),
        Err((error, driver)) => (Some(error), driver.into_hatch()),
    }
}

// The boot text: the bytes of the file, if one is named.
fn fetch_boot<S: Shelf>(
    alloc: Global,
    name: Option<&str>,
    shelf: &mut S,
) -> Result<Vec<u8>, PerformError>
    ensures ok { IfOk result (λ boot. IsBoot (option_copied name.entry) (shelf_port_of (S.files shelf.old) (S.faults shelf.old) (S.faults shelf.new)) boot.items) }
    ensures err { IfErr result (λ error. IsSomeAnd (option_copied name.entry) (λ file. FailsBoot file (shelf_port_of (S.files shelf.old) (S.faults shelf.old) (S.faults shelf.new)) error)) }
    ensures files { S.files shelf.new ≡ S.files shelf.old }
{
    let Some(name) = name else {
        return Ok(Vec::new(alloc));
    };
    match shelf.fetch(alloc, name, MOST_BOOT) {
        Ok(Fetched::Bytes(boot)) => Ok(boot),
        Ok(Fetched::TooMany) => Err(PerformError::TooMuch),
        Ok(Fetched::Failed) => Err(PerformError::ReadFault),
        Err(_) => Err(PerformError::Memory),
    }
}

// Dials the up link and the down link. Where the second can't be had, the first goes back.
fn dial_both<N: Net>(addr: &str, net: &mut N) -> Option<(N::L, N::L)>
    ensures links { MatchOption result (FailsDial N.L.Source.faults (net_port_of addr.now (N.site net.old) (N.links net.old) (N.links net.new) (N.retired net.old) (N.retired net.new) (N.faults net.old) (N.faults net.new)))
        (λ both. GaveBoth both.0 both.1 (net_port_of addr.now (N.site net.old) (N.links net.old) (N.links net.new) (N.retired net.old) (N.retired net.new) (N.faults net.old) (N.faults net.new))) }
    ensures site { N.site net.new ≡ asked_at addr.now (N.site net.old) }
    ensures are_open { IfSome result (λ both. (N.L.Source.closed both.0 ≡ false) × (N.L.Source.closed both.1 ≡ false)) }
    ensures places { MatchOption result (N.places net.new ≡ N.places net.old) (λ both. N.places net.new ≡ N.places net.old + 2) }
    ensures doors { N.doors net.new ≡ N.doors net.old }
    ensures shut_doors { N.shut_doors net.new ≡ N.shut_doors net.old }
    ensures door_places { N.door_places net.new ≡ N.door_places net.old }
{
    let first = match net.dial(addr) {
        Dialled::Link(link) => link,
        Dialled::Failed => return None,
    };
    match net.dial(addr) {
        Dialled::Link(second) => Some((first, second)),
        Dialled::Failed => {
            net.retire(first);
            None
        }
    }
}

// Prints the last lines of a run, and tells how it ended: its first error, or else why they weren't printed.
fn print_report<H: Hatch, O: Sink>(
    alloc: Global,
    name: &Text,
    report: Report<H>,
    out: &mut O,
) -> (Option<PerformError>, H)
    requires out_open { O.closed out.old ≡ false }
    requires ended { report.driver.life ≡ None }
    ensures printed { (last : Option PerformError) × (result.0 ≡ error_or (first_error report.ends) last)
        × PrintsLast last (closing_lines name.now report.who report.stage.staged report.driver.notes) (port_of (O.taken out.old) (O.taken out.new) (O.faults out.old) (O.faults out.new)) }
    ensures hatch { result.1 ≡ report.driver.hatch }
    ensures still_open { O.closed out.new ≡ false }
{
    let end = report.end();
    let last = print_last(
        alloc,
        name,
        report.who,
        &report.stage,
        report.driver.journal(),
        out,
    );
    let Report { driver, .. } = report;
    (end.or(last), driver.into_hatch())
}

// Prints the last lines, and tells why not.
fn print_last<O: Sink>(
    alloc: Global,
    name: &Text,
    who: u32,
    stage: &Stage,
    notes: &[Note],
    out: &mut O,
) -> Option<PerformError>
    requires { O.closed out.old ≡ false }
    ensures prints { PrintsLast result (closing_lines name.now who stage.now.staged notes.now) (port_of (O.taken out.old) (O.taken out.new) (O.faults out.old) (O.faults out.new)) }
    ensures still_open { O.closed out.new ≡ false }
{
    let Ok(lines) = closing_lines(alloc, name, who, stage, notes) else {
        return Some(PerformError::Memory);
    };
    match write_all(out, lines.as_slice()) {
        Written::All => None,
        Written::Part(_) => Some(PerformError::WriteFault),
    }
}

// The last lines: the performer's and its journal's.
fn closing_lines(
    alloc: Global,
    name: &Text,
    who: u32,
    stage: &Stage,
    notes: &[Note],
) -> Result<Vec<u8>, AllocError>
    ensures { IfOk result (λ lines. lines.items ≡ closing_lines name.now who stage.now.staged notes.now) }
{
    let mut lines = print_performer(alloc, name, who, stage)?;
    lines.extend_from_slice(&print_journal(alloc, who, notes)?)?;
    Ok(lines)
}
