//! What no clause says: the forms in memory as a caller meets them.
ghost use Rattle.std.specs.Prelude.{◌≡◌, ◌≤◌, Some, IfOk, OnOk};
ghost use Rattle.pipe_ports.specs.Pipes.{IsReadyToStart};

use pipe_ports::*;
use std::alloc::{AllocError, Global};
use std::test::Fail;
use troop_ports::Put;

// Starts a hatch that refuses one start. Whether it was refused.
fn is_refused(hatch: &mut ScriptHatch) -> Result<bool, AllocError>
    ensures { OnOk result (IsReadyToStart hatch.new.readiness 5) }
{
    hatch.deaf(1);
    hatch.next_limit(Some(9));
    hatch.ready(5)?;
    Ok(matches!(hatch.start(), Started::Failed))
}

// What writes of five and of two bytes answer.
fn two_writes(child: &mut ScriptChild) -> (Put, Put)
    requires room { 5 ≤ child.old.room }
    requires limit { child.old.limit ≡ Some 3 }
{
    (child.write(b"abcde"), child.write(b"de"))
}

// Starts a child that takes up to three bytes, writes to it and buries it.
fn start_limited(hatch: &mut ScriptHatch) -> Option<(Put, Put)>
    requires { IsReadyToStart hatch.old.readiness 5 }
{
    hatch.next_limit(Some(3));
    match hatch.start() {
        Started::Child(mut child) => {
            let puts = two_writes(&mut child);
            hatch.bury(child);
            Some(puts)
        }
        Started::Failed => None,
    }
}

// Whether one child was buried, which took these bytes.
fn is_past(hatch: &ScriptHatch, wanted: &[u8]) -> bool {
    matches!(hatch.past(), [bytes] if bytes.as_slice() == wanted)
}

// Whether it refuses a start, and then starts a child under the limit told last.
fn refuses_then_starts(hatch: &mut ScriptHatch) -> Result<bool, AllocError> {
    Ok(
        is_refused(hatch)?
            && start_limited(hatch) == Some((Put::Took(3), Put::Failed))
            && is_past(hatch, b"abc"),
    )
}

#[test]
fn a_script_hatch_refuses_then_starts_with_the_limit_told_last(
    rt: HostRuntime,
) -> Result<(), Fail> {
    let is_so = refuses_then_starts(&mut ScriptHatch::new(rt.alloc())?)?;
    assert!(rt; is_so);
    Ok(())
}

// A child that takes up to three bytes, and has room for them.
fn limited_child(alloc: Global) -> Result<ScriptChild, Fail>
    ensures { IfOk result (λ child. 4 ≤ child.room) }
{
    let mut hatch = ScriptHatch::new(alloc)?;
    hatch.ready(0)?;
    let Started::Child(mut child) = hatch.start() else {
        return Err("a child".into());
    };
    child.ready(4)?;
    child.limit(Some(3));
    Ok(child)
}

// Whether it takes two bytes, has them, and takes one more.
fn takes_two(child: &mut ScriptChild) -> bool
    requires { 4 ≤ child.old.room }
{
    let put = child.write(b"ab");
    put == Put::Took(2) && child.left() == Some(1) && child.bytes() == b"ab".as_slice()
}

fn fails_to_close(child: &mut ScriptChild) -> bool {
    child.fail_close();
    child.close() == Closing::Failed
}

#[test]
fn a_script_child_takes_up_to_its_limit_and_fails_to_close(rt: HostRuntime) -> Result<(), Fail> {
    let mut child = limited_child(rt.alloc())?;
    let is_so = takes_two(&mut child) && fails_to_close(&mut child);
    assert!(rt; is_so);
    Ok(())
}
