//! The top call.
ghost use Rattle.std.specs.Prelude.{◌≡◌, ◌≤◌, ◌↔◌, ℕ, List, Option, Some, None, true, false, map, string_bytes};
ghost use Rattle.troop_ports.specs.Nets.{asked_at};
ghost use Rattle.replay_run.specs.Ports.{port_of, Reported};
ghost use Rattle.replay_run.specs.Outcome.{error_line};
ghost use Rattle.replay_run.specs.Runs.{most_input, Replays, IsExact, IsHeadline, IsComplete};
ghost use Rattle.drill_run.specs.Drills.{Drills, IsCompleteDrill};
ghost use Rattle.jam_run.specs.declared.runs.Jammed.{Jammed};
ghost use Rattle.jam_run.specs.Jams.{Jams};
ghost use Rattle.troop_main.specs.Serving.{net_port_of, Serves};
ghost use Rattle.troop_main.specs.Performing.{shelf_port_of, AsksOnly, Performs};
ghost use Rattle.troop_main.specs.Words.{Announced, asked_of, asks_performer, Replay, Drill, Jam, Serve, Perform};

use crate::performing::perform_at;
use crate::serving::serve_at;
use crate::words::{Command, read_command};
use drill_run::drill;
use jam_run::jam;
use pipe_ports::Hatch;
use replay_run::{Outcome, replay};
use std::alloc::Global;
use std::sync::Wait;
use std::thread::Threads;
use troop_ports::{Door, Net, Shelf, Sink, Source, Status};

/// Does what the words say. They are those behind the program's name.
///
/// Words outside the grammar give status 2 and one line on `err`, and touch nothing else. The statuses of the word `replay` are those of the call `replay`. On the
/// words `jam`, `serve` and `perform` it waits for others, and promises no return. The hatch comes back with all that it buried; only `perform` uses it, and the shelf.
pub fn troop<
    I: Source + Send,
    O: Sink + Send,
    E: Sink,
    N: Net,
    H: Hatch + Send,
    S: Shelf,
    R: Threads + Wait + Sync,
>(
    rt: &R,
    alloc: Global,
    words: &[String],
    input: &mut I,
    out: &mut O,
    err: &mut E,
    net: &mut N,
    hatch: H,
    shelf: &mut S,
) -> (Status, H)
where
    N::L: Send,
    N::D: Send,
    <N::D as Door>::L: Drop + Send,
    H::C: Send,
    requires input_open { I.closed input.old ≡ false }
    requires out_open { O.closed out.old ≡ false }
    requires err_open { E.closed err.old ≡ false }

    ensures usage { (result.0.code ≡ 2) ↔ (asked_of (map string_bytes words.now) ≡ None) }
    ensures usage_input { result.0.code ≡ 2 → input.new ≡ input.old }
    ensures usage_out { result.0.code ≡ 2 → out.new ≡ out.old }
    ensures usage_net { result.0.code ≡ 2 → net.new ≡ net.old }
    ensures usage_line { result.0.code ≡ 2 →
        Reported (port_of (E.taken err.old) (E.taken err.new) (E.faults err.old) (E.faults err.new)) (error_line Outcome.Usage) }

    ensures replay { asked_of (map string_bytes words.now) ≡ Some Replay → Replays most_input result.0.code
        (port_of (I.remaining input.old) (I.remaining input.new) (I.faults input.old) (I.faults input.new))
        (port_of (O.taken out.old) (O.taken out.new) (O.faults out.old) (O.faults out.new))
        (port_of (E.taken err.old) (E.taken err.new) (E.faults err.old) (E.faults err.new)) }
    ensures headline { asked_of (map string_bytes words.now) ≡ Some Replay → IsHeadline result.0.code
        (port_of (I.remaining input.old) (I.remaining input.new) (I.faults input.old) (I.faults input.new))
        (port_of (O.taken out.old) (O.taken out.new) (O.faults out.old) (O.faults out.new)) }
    ensures exact { asked_of (map string_bytes words.now) ≡ Some Replay → IsExact most_input result.0.code
        (port_of (I.remaining input.old) (I.remaining input.new) (I.faults input.old) (I.faults input.new))
        (port_of (O.taken out.old) (O.taken out.new) (O.faults out.old) (O.faults out.new))
        (port_of (E.taken err.old) (E.taken err.new) (E.faults err.old) (E.faults err.new)) }
    ensures complete { asked_of (map string_bytes words.now) ≡ Some Replay → IsComplete most_input result.0.code
        (port_of (I.remaining input.old) (I.remaining input.new) (I.faults input.old) (I.faults input.new))
        (port_of (O.taken out.old) (O.taken out.new) (O.faults out.old) (O.faults out.new)) }
    ensures replay_net { asked_of (map string_bytes words.now) ≡ Some Replay → net.new ≡ net.old }

    ensures drill { (seed steps : ℕ) → asked_of (map string_bytes words.now) ≡ Some (Drill seed steps) → Drills seed steps result.0.code
        (port_of (O.taken out.old) (O.taken out.new) (O.faults out.old) (O.faults out.new))
        (port_of (E.taken err.old) (E.taken err.new) (E.faults err.old) (E.faults err.new)) }
    ensures drill_complete { (seed steps : ℕ) → asked_of (map string_bytes words.now) ≡ Some (Drill seed steps) → IsCompleteDrill seed steps result.0.code
        (port_of (O.taken out.old) (O.taken out.new) (O.faults out.old) (O.faults out.new)) }
    ensures drill_rest { (seed steps : ℕ) → asked_of (map string_bytes words.now) ≡ Some (Drill seed steps) → (input.new ≡ input.old) × (net.new ≡ net.old) }

    ensures jam { (performers calls seed : ℕ) → asked_of (map string_bytes words.now) ≡ Some (Jam performers calls seed) → (handed : Option Jammed) × Jams performers calls seed result.0.code handed
        (port_of (O.taken out.old) (O.taken out.new) (O.faults out.old) (O.faults out.new))
        (port_of (E.taken err.old) (E.taken err.new) (E.faults err.old) (E.faults err.new)) }
    ensures jam_rest { (performers calls seed : ℕ) → asked_of (map string_bytes words.now) ≡ Some (Jam performers calls seed) → (input.new ≡ input.old) × (net.new ≡ net.old) }

    ensures serve { (addr : List ℕ) (sessions : Option ℕ) → asked_of (map string_bytes words.now) ≡ Some (Serve addr sessions) → Serves (record { remaining = N.D.L.Source.remaining; written = N.D.L.Sink.taken; link_faults = N.D.L.Source.faults; closed = N.D.L.Source.closed; links = N.D.links; retired = N.D.retired; places = N.D.places; door_faults = N.D.faults }) sessions result.0.code
        (net_port_of addr (N.site net.old) (N.doors net.old) (N.doors net.new) (N.shut_doors net.old) (N.shut_doors net.new) (N.faults net.old) (N.faults net.new))
        (port_of (O.taken out.old) (O.taken out.new) (O.faults out.old) (O.faults out.new))
        (port_of (E.taken err.old) (E.taken err.new) (E.faults err.old) (E.faults err.new)) }
    ensures serve_site { (addr : List ℕ) (sessions : Option ℕ) → asked_of (map string_bytes words.now) ≡ Some (Serve addr sessions) → N.site net.new ≡ asked_at addr (N.site net.old) }
    ensures serve_input { (addr : List ℕ) (sessions : Option ℕ) → asked_of (map string_bytes words.now) ≡ Some (Serve addr sessions) → input.new ≡ input.old }

    ensures perform { (addr : List ℕ) (who : Announced) → asked_of (map string_bytes words.now) ≡ Some (Perform addr who) → Performs (record { remaining = N.L.Source.remaining; written = N.L.Sink.taken; link_faults = N.L.Source.faults; buried = H.buried; hatch_faults = H.faults; taken = H.C.taken; child_faults = H.C.faults }) who result.0.code
        (record {
          input = port_of (I.remaining input.old) (I.remaining input.new) (I.faults input.old) (I.faults input.new);
          out = port_of (O.taken out.old) (O.taken out.new) (O.faults out.old) (O.faults out.new);
          shelf = shelf_port_of (S.files shelf.old) (S.faults shelf.old) (S.faults shelf.new);
          net = net_port_of addr (N.site net.old) (N.links net.old) (N.links net.new) (N.retired net.old) (N.retired net.new) (N.faults net.old) (N.faults net.new);
          hatch_before = hatch;
          hatch_after = result.1;
        })
        (port_of (E.taken err.old) (E.taken err.new) (E.faults err.old) (E.faults err.new)) }
    ensures perform_site { (addr : List ℕ) (who : Announced) → asked_of (map string_bytes words.now) ≡ Some (Perform addr who) → AsksOnly addr (N.site net.old) (N.site net.new) }
    ensures perform_doors { asks_performer (asked_of (map string_bytes words.now)) ≡ true → (N.doors net.new ≡ N.doors net.old) × (N.shut_doors net.new ≡ N.shut_doors net.old) }
    ensures files { S.files shelf.new ≡ S.files shelf.old }
    ensures shelf { asks_performer (asked_of (map string_bytes words.now)) ≡ false → shelf.new ≡ shelf.old }
    ensures hatch { asks_performer (asked_of (map string_bytes words.now)) ≡ false → result.1 ≡ hatch }
    ensures links { asks_performer (asked_of (map string_bytes words.now)) ≡ false → N.links net.new ≡ N.links net.old }
    ensures retired { asks_performer (asked_of (map string_bytes words.now)) ≡ false → N.retired net.new ≡ N.retired net.old }
    ensures places { N.places net.new ≡ N.places net.old }
    ensures door_places { N.door_places net.new ≡ N.door_places net.old }
    ensures still_open { (I.closed input.new ≡ false) × (O.closed out.new ≡ false) × (E.closed err.new ≡ false) }
{
    let status = match read_command(words) {
        Some(Command::Replay) => replay(alloc, input, out, err),
        Some(Command::Drill { seed, steps }) => {
            return (drill(alloc, seed, steps, out, err), hatch);
        }
        Some(
            Command::Jam {
                performers,
                calls,
                seed,
            },
        ) => {
            return (
                jam_alone(rt, alloc, performers, calls, seed, out, err),
                hatch,
            );
        }
        Some(Command::Serve { addr, sessions }) => {
            serve_at(rt, alloc, addr, sessions, out, err, net)
        }
        Some(Command::Perform { addr, billing }) => {
            return perform_at(rt, alloc, addr, billing, input, out, err, net, hatch, shelf);
        }
        None => Outcome::Usage.report(err),
    };
    (status, hatch)
}

// Has performers play on threads, and lets go of what they leave.
fn jam_alone<O: Sink, E: Sink, R: Threads + Wait + Sync>(
    rt: &R,
    alloc: Global,
    performers: u64,
    calls: u64,
    seed: u64,
    out: &mut O,
    err: &mut E,
) -> Status
    requires few { (1 ≤ performers) × (performers ≤ 64) × (calls ≤ 1000) }
    requires out_open { O.closed out.old ≡ false }
    requires err_open { E.closed err.old ≡ false }
    ensures table { (handed : Option Jammed) × Jams performers calls seed result.code handed
        (port_of (O.taken out.old) (O.taken out.new) (O.faults out.old) (O.faults out.new))
        (port_of (E.taken err.old) (E.taken err.new) (E.faults err.old) (E.faults err.new)) }
    ensures still_open { (O.closed out.new ≡ false) × (E.closed err.new ≡ false) }
{
    let handed = jam(rt, alloc, performers, calls, seed, out, err);
    handed.0
}
