//! What no file shows: the words, the limit of the input, and streams that come in pieces, fail or have no room.
use crate::held::HeldLink;
use crate::programs::{Ending, HeldNet, comes_to};
use replay_run::{
    Outcome, faults_exactly, first_stop_law, replay_upto, replays_exactly, report_number,
    report_parts,
};
use std::alloc::{AllocError, Global};
use std::sync::Wait;
use std::test::Fail;
use std::thread::Threads;
use troop_ports::{BytesLink, BytesSink, BytesSource, ListDoor, ListNet, ListShelf};

/// A run's limit and how its streams behave, and then what it comes to.
#[derive(Clone, Copy)]
struct Run {
    script: &'static str,
    limit: u64,
    /// The lengths of the pieces in which the script comes.
    pieces: &'static [u64],
    /// The numbers of failing reads.
    reads: &'static [u64],
    /// The numbers of failing writes.
    writes: &'static [u64],
    /// The output's room.
    room: u64,
    code: u8,
    out: &'static str,
    err: &'static str,
}

/// A guest; a leave of nobody, for which a line is printed; and the guest's edit, whose line has no line feed. Their lines have
/// 24, 28 and 48 bytes, each with a line feed.
const SCRIPT: &str = r#"["guest","ann","lines"]
["call",2,{"call":"leave"}]
["call",1,{"call":"edit","op":["hi"],"seen":1}]"#;

const NOBODY: &str = "{\"no\":\"member\",\"who\":2}\n";

/// All that it prints.
const PRINTED: &str =
    "{\"no\":\"member\",\"who\":2}\n{\"entries\":2,\"marks\":[[1,2]],\"text\":\"hi\"}\n";

/// Two performers type at once, and are shown while one holds edits back.
const BUFFER: &str = r#"["join","ann","lines",""]
["join","bob","lines",""]
["take",1]
["take",1]
["take",2]
["take",2]
["edit",1,["a"]]
["edit",1,[1,"b"]]
["edit",1,[2,"c"]]
["edit",2,["z"]]
["serve",2]
["take",1]
["show"]
["serve",1]
["take",1]
["serve",1]
["take",1]
["take",2]
["take",2]
["take",2]
"#;

/// The line of a drill of no steps.
const UNDRILLED: &str =
    "{\"blocks\":0,\"entries\":3,\"equal\":true,\"lives\":0,\"notes\":0,\"seed\":1,\"steps\":0,\"unfit\":0}\n";

const BUFFER_SHOWN: &str =
    r#"{"awaits":2,"marks":[[1,3],[2,1]],"name":"ann","taken":3,"text":"abcz","who":1}
{"lives":[],"who":1}
{"journal":[],"who":1}
{"awaits":1,"marks":[[2,1]],"name":"bob","taken":2,"text":"z","who":2}
{"lives":[],"who":2}
{"journal":[],"who":2}
{"entries":3,"marks":[[2,1]],"text":"z"}
"#;

const DONE: Run = Run {
    script: SCRIPT,
    limit: 100,
    pieces: &[],
    reads: &[],
    writes: &[],
    room: 100,
    code: 0,
    out: PRINTED,
    err: "",
};

const TOO_MUCH: Run = Run {
    code: 10,
    err: "troop: too much input\n",
    ..DONE
};

const READ_FAULT: Run = Run {
    code: 4,
    err: "troop: read fault\n",
    ..DONE
};

const WRITE_FAULT: Run = Run {
    code: 5,
    err: "troop: write fault\n",
    ..DONE
};

const BUFFER_FAULT: Run = Run {
    script: BUFFER,
    limit: 400,
    room: 1000,
    ..WRITE_FAULT
};

const RUNS: [Run; 13] = [
    DONE,
    Run {
        pieces: &[1; 99],
        ..DONE
    },
    Run {
        pieces: &[3, 7, 1, 39, 5, 1, 11],
        ..DONE
    },
    Run {
        limit: 23,
        out: "",
        ..TOO_MUCH
    },
    // The last line counts with a line feed too.
    Run {
        limit: 99,
        out: NOBODY,
        ..TOO_MUCH
    },
    Run {
        reads: &[1],
        out: "",
        ..READ_FAULT
    },
    // The read that would tell the end: the last line isn't known to be whole.
    Run {
        reads: &[2],
        out: NOBODY,
        ..READ_FAULT
    },
    // A read in the middle: the first two lines are whole.
    Run {
        pieces: &[60],
        reads: &[2],
        out: NOBODY,
        ..READ_FAULT
    },
    Run {
        writes: &[1],
        out: "",
        ..WRITE_FAULT
    },
    Run {
        writes: &[2],
        out: NOBODY,
        ..WRITE_FAULT
    },
    Run {
        room: 4,
        out: "{\"no",
        ..WRITE_FAULT
    },
    // What is shown is written at once, and so is all that stands at the end.
    Run {
        writes: &[1],
        out: "",
        ..BUFFER_FAULT
    },
    Run {
        writes: &[2],
        out: BUFFER_SHOWN,
        ..BUFFER_FAULT
    },
];

// Replays what the input gives: the status.
fn replayed(
    alloc: Global,
    limit: u64,
    input: &mut BytesSource,
    out: &mut BytesSink,
    err: &mut BytesSink,
) -> u8 {
    replay_upto(alloc, limit, input, out, err).code
}

// Whether the run comes to what its row says.
fn ends(alloc: Global, run: &Run) -> Result<bool, AllocError> {
    let mut input = BytesSource::new(alloc, run.script.as_bytes(), run.pieces, run.reads)?;
    let mut out = BytesSink::new(alloc, run.room, run.writes)?;
    let mut err = BytesSink::new(alloc, 100, &[])?;
    let code = replayed(alloc, run.limit, &mut input, &mut out, &mut err);
    Ok(code == run.code && out.bytes() == run.out.as_bytes() && err.bytes() == run.err.as_bytes())
}

#[test]
fn limit_and_streams_decide_how_a_run_ends(rt: HostRuntime) -> Result<(), Fail> {
    for (number, run) in RUNS.iter().enumerate() {
        let ended = ends(rt.alloc(), run)?;
        assert!(rt; ended, "run {number}");
    }
    Ok(())
}

/// Words, and then their status and what is printed on the output.
const WORDS: &[(&[&str], u8, &str)] = &[
    (&["replay"], 0, PRINTED),
    (&["drill", "1", "0"], 0, UNDRILLED),
    (
        &["drill", "1", "1"],
        0,
        "{\"blocks\":0,\"entries\":3,\"equal\":true,\"lives\":0,\"notes\":0,\"seed\":1,\"steps\":1,\"unfit\":1}\n",
    ),
    (
        &["drill", "00000000000000000001", "00000000000000000000"],
        0,
        UNDRILLED,
    ),
    (
        &["drill", "18446744073709551615", "0"],
        0,
        "{\"blocks\":0,\"entries\":3,\"equal\":true,\"lives\":0,\"notes\":0,\"seed\":18446744073709551615,\"steps\":0,\"unfit\":0}\n",
    ),
    (
        &["jam", "2", "3", "7"],
        0,
        "{\"calls\":3,\"entries\":14,\"equal\":true,\"performers\":2}\n",
    ),
    (
        &["jam", "64", "0", "1"],
        0,
        "{\"calls\":0,\"entries\":64,\"equal\":true,\"performers\":64}\n",
    ),
    (&[], 2, ""),
    (&["replay", "now"], 2, ""),
    (&["replay", "--help"], 2, ""),
    (&["dance"], 2, ""),
    (&["help"], 2, ""),
    (&["--help"], 2, ""),
    (&["--version"], 2, ""),
    (&["drill"], 2, ""),
    (&["drill", "1"], 2, ""),
    (&["drill", "1", "0", "0"], 2, ""),
    (&["drill", "18446744073709551616", "0"], 2, ""),
    (&["drill", "1", "100001"], 2, ""),
    (&["drill", "000000000000000000001", "0"], 2, ""),
    (&["drill", "+1", "0"], 2, ""),
    (&["drill", "", "0"], 2, ""),
    (&["drill", "1", "0", "--", "cat"], 2, ""),
    (&["jam", "2", "3"], 2, ""),
    (&["jam", "0", "3", "7"], 2, ""),
    (&["jam", "65", "3", "7"], 2, ""),
    (&["jam", "2", "1001", "7"], 2, ""),
    (&["jam", "2", "3", "18446744073709551616"], 2, ""),
    (&["jam", "2", "3", "7", "7"], 2, ""),
];

// A net of nothing.
fn empty_net(alloc: Global) -> Result<HeldNet<'static>, AllocError> {
    let doors = Vec::<ListDoor<BytesLink>>::new(alloc);
    ListNet::new(alloc, doors, Vec::<HeldLink<'static>>::new(alloc), &[])
}

// Whether a run of these words on the script has this status, prints this, and says on the error stream nothing else than how it is used.
fn is_chosen<R: Threads + Wait + Sync>(
    rt: &R,
    alloc: Global,
    words: &[&str],
    code: u8,
    printed: &str,
) -> Result<bool, Fail> {
    let ending = Ending {
        writes: &[],
        room: 200,
        code,
        out: printed,
        err: if code == 0 { "" } else { "troop: usage\n" },
        lives: &[],
    };
    let mut input = BytesSource::new(alloc, SCRIPT.as_bytes(), &[], &[])?;
    let mut net = empty_net(alloc)?;
    let mut shelf = ListShelf::new(alloc, Vec::new(alloc), &[])?;
    comes_to(rt, alloc, words, &mut input, &mut net, &mut shelf, &ending)
}

#[test]
fn words_choose_the_command(rt: HostRuntime) -> Result<(), Fail> {
    for (number, (words, code, printed)) in WORDS.iter().enumerate() {
        let came = is_chosen(&rt, rt.alloc(), words, *code, printed)?;
        assert!(rt; came, "words {number}");
    }
    Ok(())
}

#[test]
fn lines_with_numbers_are_reported(rt: HostRuntime) -> Result<(), Fail> {
    let mut err = BytesSink::new(rt.alloc(), 100, &[])?;
    report_number(b"line ", 18_446_744_073_709_551_615, b"\n", &mut err);
    report_parts(b"a ", b"part\n", &mut err);
    assert_eq!(rt;
        err.bytes(),
        b"line 18446744073709551615\na part\n".as_slice()
    );
    Ok(())
}

#[test]
fn each_law_is_called(rt: HostRuntime) {
    first_stop_law();
    replays_exactly();
    faults_exactly();
    assert_eq!(rt; Outcome::NetFault.status().code, 6);
}
