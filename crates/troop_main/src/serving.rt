//! The run of a server at an address.
ghost use Rattle.std.specs.Prelude.{◌≡◌, false};
ghost use Rattle.replay_run.specs.Ports.{port_of};
ghost use Rattle.troop_ports.specs.Nets.{asked_at};
ghost use Rattle.troop_main.specs.Serving.{net_port_of, SaysServed, Serves, EndsServe};

use replay_run::Outcome;
use revision_log::Desk;
use server_crew::{NoGate, ServeError, serve};
use std::alloc::Global;
use std::sync::Wait;
use std::thread::Threads;
use troop_ports::{Door, Listening, Net, Sink, Status, Written, write_all};
use wire_print::print_desk;

/// Listens at an address, serves so many sessions there, or all, shuts the door, prints the line of the closed log, and reports how
/// the run ended.
pub fn serve_at<O: Sink, E: Sink, N: Net, R: Threads + Wait + Sync>(
    rt: &R,
    alloc: Global,
    addr: &str,
    sessions: Option<u64>,
    out: &mut O,
    err: &mut E,
    net: &mut N,
) -> Status
where
    N::D: Send,
    <N::D as Door>::L: Drop + Send,
    requires out_open { O.closed out.old ≡ false }
    requires err_open { E.closed err.old ≡ false }
    ensures table { Serves (record { remaining = N.D.L.Source.remaining; written = N.D.L.Sink.taken; link_faults = N.D.L.Source.faults; closed = N.D.L.Source.closed; links = N.D.links; retired = N.D.retired; places = N.D.places; door_faults = N.D.faults }) sessions result.code
        (net_port_of addr.now (N.site net.old) (N.doors net.old) (N.doors net.new) (N.shut_doors net.old) (N.shut_doors net.new) (N.faults net.old) (N.faults net.new))
        (port_of (O.taken out.old) (O.taken out.new) (O.faults out.old) (O.faults out.new))
        (port_of (E.taken err.old) (E.taken err.new) (E.faults err.old) (E.faults err.new)) }
    ensures site { N.site net.new ≡ asked_at addr.now (N.site net.old) }
    ensures links { N.links net.new ≡ N.links net.old }
    ensures retired { N.retired net.new ≡ N.retired net.old }
    ensures places { N.places net.new ≡ N.places net.old }
    ensures door_places { N.door_places net.new ≡ N.door_places net.old }
    ensures still_open { (O.closed out.new ≡ false) × (E.closed err.new ≡ false) }
{
    run(rt, alloc, addr, sessions, out, net).report(err)
}

// Listens, serves, shuts the door, and prints the line.
fn run<O: Sink, N: Net, R: Threads + Wait + Sync>(
    rt: &R,
    alloc: Global,
    addr: &str,
    sessions: Option<u64>,
    out: &mut O,
    net: &mut N,
) -> Outcome
where
    N::D: Send,
    <N::D as Door>::L: Drop + Send,
    requires { O.closed out.old ≡ false }
    ensures says { SaysServed (record { remaining = N.D.L.Source.remaining; written = N.D.L.Sink.taken; link_faults = N.D.L.Source.faults; closed = N.D.L.Source.closed; links = N.D.links; retired = N.D.retired; places = N.D.places; door_faults = N.D.faults }) sessions result
        (net_port_of addr.now (N.site net.old) (N.doors net.old) (N.doors net.new) (N.shut_doors net.old) (N.shut_doors net.new) (N.faults net.old) (N.faults net.new))
        (port_of (O.taken out.old) (O.taken out.new) (O.faults out.old) (O.faults out.new)) }
    ensures site { N.site net.new ≡ asked_at addr.now (N.site net.old) }
    ensures links { N.links net.new ≡ N.links net.old }
    ensures retired { N.retired net.new ≡ N.retired net.old }
    ensures places { N.places net.new ≡ N.places net.old }
    ensures door_places { N.door_places net.new ≡ N.door_places net.old }
    ensures still_open { O.closed out.new ≡ false }
{
    let mut door = match net.listen(addr) {
        Listening::Door(door) => door,
        Listening::Failed => return Outcome::NetFault,
    };
    let served = serve(rt, alloc, &mut door, sessions, &NoGate);
    net.shut(door);
    let desk = match served {
        Ok(desk) => desk,
        Err(ServeError::DoorFault) => return Outcome::NetFault,
        Err(ServeError::Memory) => return Outcome::Memory,
    };
    print_end(alloc, &desk, out)
}

// Prints the line of a closed log.
fn print_end<O: Sink>(alloc: Global, desk: &Desk, out: &mut O) -> Outcome
    requires { O.closed out.old ≡ false }
    ensures ends { EndsServe result desk.now
        (port_of (O.taken out.old) (O.taken out.new) (O.faults out.old) (O.faults out.new)) }
    ensures still_open { O.closed out.new ≡ false }
{
    let Ok(line) = print_desk(alloc, desk.length(), desk.doc()) else {
        return Outcome::Memory;
    };
    match write_all(out, &line) {
        Written::All => Outcome::Done,
        Written::Part(_) => Outcome::WriteFault,
    }
}
