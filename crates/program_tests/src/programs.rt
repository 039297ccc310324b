//! A program over objects in memory. Each test that gives words to the program does it through here, so that the top call is made in one place.
use crate::held::HeldLink;
use pipe_ports::ScriptHatch;
use std::alloc::Global;
use std::sync::Wait;
use std::test::Fail;
use std::thread::Threads;
use troop_main::troop;
use troop_ports::{BytesLink, BytesSink, BytesSource, ListDoor, ListNet, ListShelf};

/// A net in memory: the links of its doors wait for nothing, and those that are dialled may wait for each other.
pub type HeldNet<'c> = ListNet<ListDoor<BytesLink>, HeldLink<'c>>;

/// How a program's output behaves, and what the program comes to.
#[derive(Clone, Copy)]
pub struct Ending<'e> {
    /// The numbers of failing writes of the output.
    pub writes: &'e [u64],
    /// The output's room.
    pub room: u64,
    pub code: u8,
    pub out: &'e str,
    pub err: &'e str,
    /// What the interpreter's lives took.
    pub lives: &'e [&'e str],
}

// Runs the program: its status, and the hatch that comes back.
fn run<R: Threads + Wait + Sync>(
    rt: &R,
    alloc: Global,
    words: &[String],
    input: &mut BytesSource,
    out: &mut BytesSink,
    err: &mut BytesSink,
    net: &mut HeldNet<'_>,
    hatch: ScriptHatch,
    shelf: &mut ListShelf,
) -> (u8, ScriptHatch) {
    let (status, hatch) = troop(rt, alloc, words, input, out, err, net, hatch, shelf);
    (status.code, hatch)
}

// Whether the children that were buried took these bytes.
fn are_lives(hatch: &ScriptHatch, lives: &[&str]) -> bool {
    let past = hatch.past();
    past.len() == lives.len()
        && past
            .iter()
            .zip(lives)
            .all(|(bytes, life)| bytes.as_slice() == life.as_bytes())
}

/// Runs the program on these words: whether it comes to this ending.
pub fn comes_to<R: Threads + Wait + Sync>(
    rt: &R,
    alloc: Global,
    words: &[&str],
    input: &mut BytesSource,
    net: &mut HeldNet<'_>,
    shelf: &mut ListShelf,
    ending: &Ending<'_>,
) -> Result<bool, Fail> {
    let words = words_of(alloc, words)?;
    let mut out = BytesSink::new(alloc, ending.room, ending.writes)?;
    let mut err = BytesSink::new(alloc, 100, &[])?;
    let hatch = ScriptHatch::new(alloc)?;
    let (code, hatch) = run(
        rt, alloc, &words, input, &mut out, &mut err, net, hatch, shelf,
    );
    Ok(
        code == ending.code
            && out.bytes() == ending.out.as_bytes()
            && err.bytes() == ending.err.as_bytes()
            && are_lives(&hatch, ending.lives),
    )
}

/// These words, owned.
pub fn words_of(alloc: Global, words: &[&str]) -> Result<Vec<String>, Fail> {
    let mut owned = Vec::new(alloc);
    for word in words {
        owned.push(String::from_str(alloc, word)?)?;
    }
    Ok(owned)
}
