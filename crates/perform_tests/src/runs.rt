//! One run, of a performer whom the server tells nothing.
ghost use Rattle.std.specs.Prelude.{◌≡◌, ◌≤◌, false, length};

use child_driver::Driver;
use ot_text::Text;
use performer::{PerformError, Report, Side, What, perform};
use pipe_ports::ScriptHatch;
use std::alloc::{AllocError, Global};
use std::sync::Wait;
use std::test::Fail;
use std::thread::Threads;
use troop_entry::Lang;
use troop_ports::{BytesLink, CalmSink, CalmSource};

// The error that a run has ended with.
fn end_of(
    performed: Result<Report<ScriptHatch>, (PerformError, Driver<ScriptHatch>)>,
) -> Option<PerformError> {
    match performed {
        Ok(report) => report.end(),
        Err((error, _driver)) => Some(error),
    }
}

// Performs over these links: the error that it ends with.
fn end_of_run<R: Threads + Wait + Sync>(
    rt: &R,
    alloc: Global,
    name: &Text,
    commands: &mut CalmSource,
    up: &mut BytesLink,
    down: &mut BytesLink,
    hatch: ScriptHatch,
) -> Option<PerformError>
    requires name { (1 ≤ length name.now) × (length name.now ≤ 32) }
    requires are_open { (up.old.is_closed ≡ false) × (down.old.is_closed ≡ false) }
{
    let driver = Driver::new(alloc, Lang::Lines, Vec::new(alloc), hatch);
    let mut out = CalmSink::new();
    end_of(perform(
        rt,
        alloc,
        name,
        Lang::Lines,
        commands,
        up,
        down,
        driver,
        &mut out,
    ))
}

// Performs over a down link that gives nothing: the error that it ends with.
fn end_without_entries<R: Threads + Wait + Sync>(
    rt: &R,
    alloc: Global,
    name: &Text,
) -> Result<Option<PerformError>, AllocError>
    requires { (1 ≤ length name.now) × (length name.now ≤ 32) }
{
    let mut commands = CalmSource::new(alloc, b"[\"until\",1]\n")?;
    let mut up = BytesLink::new(alloc, b"{\"at\":0,\"who\":1}\n", &[], &[], 1000, &[])?;
    let mut down = BytesLink::new(alloc, b"", &[], &[], 1000, &[])?;
    let hatch = ScriptHatch::new(alloc)?;
    Ok(end_of_run(rt, alloc, name, &mut commands, &mut up, &mut down, hatch))
}

#[test]
fn a_run_ends_with_its_first_error(rt: HostRuntime) -> Result<(), Fail> {
    let alloc = rt.alloc();
    let name = Text::of(alloc, "ann")?;
    assert_eq!(rt; name.len(), 3);
    let ended = PerformError::BadPeer {
        side: Side::Down,
        line: 1,
        what: What::Ended,
    };
    assert_eq!(rt; end_without_entries(&rt, alloc, &name)?, Some(ended));
    Ok(())
}
