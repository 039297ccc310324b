//! Real programs as children: what they are given, and when they fail.
ghost use Rattle.std.specs.Prelude.{◌≡◌, false};

use pipe_ports::*;
use process_hatch::{ProcessChild, ProcessHatch};
use std::alloc::Global;
use std::fs;
use std::process::{OpenProcess, Processes};
use std::test::Fail;
use troop_ports::Put;

// The words as a hatch wants them.
fn owned(alloc: Global, words: &[&str]) -> Result<Vec<String>, Fail> {
    let mut owned = Vec::new(alloc);
    for word in words {
        owned.push(String::from_str(alloc, word)?)?;
    }
    Ok(owned)
}

// Hands it on, if threads may do so.
fn sent<T: Send>(value: T) -> T
    ensures { result ≡ value }
{
    value
}

// Writes three bytes, and waits for the program's end.
fn write_and_close<P: OpenProcess + Drop>(
    child: &mut ProcessChild<P>,
) -> Result<(Put, Closing), Fail>
    requires { child.old.closed ≡ false }
{
    child.ready(3)?;
    Ok((child.write(b"abc"), child.close()))
}

// Runs the program once, and gives it three bytes.
fn run_once(hatch: &mut ProcessHatch<'_, HostRuntime>) -> Result<(Put, Closing), Fail> {
    hatch.ready(3)?;
    let Started::Child(child) = hatch.start() else {
        return Err("a child".into());
    };
    let mut child = sent(child);
    let answers = write_and_close(&mut child)?;
    hatch.bury(child);
    Ok(answers)
}

/// It writes the file at once, so only a child that was waited for has written it.
const SCRIPT: &str = "cat > \"$1\"; sleep 0.2; echo \"$2\" >> \"$1\"";

// Runs the script on this file.
fn run_script(rt: &HostRuntime, path: &str) -> Result<(Put, Closing), Fail> {
    let words = owned(rt.alloc(), &["sh", "-c", SCRIPT, "sh", path, "two words"])?;
    let mut hatch = sent(ProcessHatch::new(rt, rt.alloc(), words));
    run_once(&mut hatch)
}

// A path that no other run of the tests has.
fn script_path(rt: &HostRuntime) -> Result<String, Fail> {
    let folder = std::env::temp_dir(rt)?;
    let run = std::process::id(rt.process());
    Ok(format!(in rt.alloc(); "{}/troop_program_{}", folder.as_str(), run)?)
}

// Whether these bytes were written to the file, which is then removed.
fn is_written(rt: &HostRuntime, path: &str, wanted: &[u8]) -> Result<bool, Fail> {
    let bytes = fs::read(rt, path)?;
    fs::remove_file(rt, path)?;
    Ok(bytes.as_slice() == wanted)
}

// What the child of the script answers, and whether it wrote what it was given before it ended.
fn run_and_read(rt: &HostRuntime, path: &str) -> Result<(Put, Closing, bool), Fail> {
    let (put, closing) = run_script(rt, path)?;
    Ok((put, closing, is_written(rt, path, b"abctwo words\n")?))
}

#[test]
fn a_program_gets_its_bytes_and_has_ended_when_it_is_closed(rt: HostRuntime) -> Result<(), Fail> {
    let answers = run_and_read(&rt, script_path(&rt)?.as_str())?;
    assert_eq!(rt; answers, (Put::Took(3), Closing::Closed, true));
    Ok(())
}

// Writes more than any pipe holds, so that the write returns once nobody is left to read, and then more.
fn flood<P: OpenProcess + Drop>(child: &mut ProcessChild<P>, flood: &[u8]) -> Put
    requires { child.old.closed ≡ false }
{
    let _ = child.write(flood);
    child.write(b"more")
}

// What a program that has ended answers to a write.
fn write_to_gone(rt: &HostRuntime) -> Result<Put, Fail> {
    let words = owned(rt.alloc(), &["true"])?;
    let bytes = b"#".repeat(rt.alloc(), 1 << 18)?;
    let mut hatch = ProcessHatch::new(rt, rt.alloc(), words);
    let Started::Child(mut child) = hatch.start() else {
        return Err("a child".into());
    };
    let put = flood(&mut child, &bytes);
    hatch.bury(child);
    Ok(put)
}

// Whether no program of these words starts.
fn is_missing(rt: &HostRuntime, words: &[&str]) -> Result<bool, Fail> {
    let words = owned(rt.alloc(), words)?;
    let mut hatch = ProcessHatch::new(rt, rt.alloc(), words);
    Ok(matches!(hatch.start(), Started::Failed))
}

#[test]
fn a_program_that_is_gone_takes_nothing_and_one_that_is_not_there_fails(
    rt: HostRuntime,
) -> Result<(), Fail> {
    assert_eq!(rt; write_to_gone(&rt)?, Put::Failed);
    assert!(rt; is_missing(&rt, &["./no such program"])?);
    assert!(rt; is_missing(&rt, &[])?);
    Ok(())
}
