//! Performers by their words, over links in memory: the statuses, what is printed, what came back, and what the interpreter took.
ghost use Rattle.std.specs.Prelude.{◌≡◌, false, IfOk};

use crate::held::HeldLink;
use crate::programs::{Ending, HeldNet, comes_to, words_of};
use std::alloc::{AllocError, Global};
use std::sync::Wait;
use std::sync::atomic::AtomicU64;
use std::test::Fail;
use std::thread::Threads;
use troop_main::program_words;
use troop_ports::{BytesLink, BytesSource, ListDoor, ListNet, ListShelf};

/// Words, what the objects of a run do, and then what it comes to.
#[derive(Clone, Copy)]
struct Evening {
    words: &'static [&'static str],
    commands: &'static str,
    /// How many characters a reset in front of the commands has, if it isn't 0.
    reset: usize,
    /// The numbers of failing reads of the commands.
    reads: &'static [u64],
    /// The numbers of failing writes of the output.
    writes: &'static [u64],
    /// The numbers of failing dials.
    dials: &'static [u64],
    /// What the up link gives.
    up: &'static str,
    /// The numbers of its failing writes.
    up_writes: &'static [u64],
    /// What the down link gives, and the length of its first piece.
    down: &'static str,
    first: &'static [u64],
    /// How often the up link was written to or closed before each read of the down link.
    waits: &'static [u64],
    code: u8,
    out: &'static str,
    err: &'static str,
    /// How many links came back.
    retired: usize,
    /// What was written on the up link.
    asked: &'static str,
    /// What the interpreter's lives took.
    lives: &'static [&'static str],
}

const JOIN: &str = "{\"call\":\"join\",\"lang\":\"lines\",\"name\":\"ann\"}\n";

const JOIN_AND_LEAVE: &str =
    "{\"call\":\"join\",\"lang\":\"lines\",\"name\":\"ann\"}\n{\"call\":\"leave\",\"num\":1}\n";

const JOINED: &str = "{\"at\":0,\"who\":1}\n";

const JOINED_AND_LEFT: &str = "{\"at\":0,\"who\":1}\n{\"at\":1,\"who\":1}\n";

const THE_JOIN: &str =
    "{\"at\":0,\"deed\":\"join\",\"lang\":\"lines\",\"name\":\"ann\",\"seen\":0,\"who\":1}\n";

const JOIN_THEN_LEAVE: &str =
    "{\"at\":0,\"deed\":\"join\",\"lang\":\"lines\",\"name\":\"ann\",\"seen\":0,\"who\":1}\n{\"at\":1,\"deed\":\"leave\",\"seen\":1,\"who\":1}\n";

const NOTHING: &str =
    "{\"awaits\":0,\"marks\":[],\"name\":\"ann\",\"taken\":0,\"text\":\"\",\"who\":1}\n{\"journal\":[],\"who\":1}\n";

const ONE_TAKEN: &str =
    "{\"awaits\":0,\"marks\":[],\"name\":\"ann\",\"taken\":1,\"text\":\"\",\"who\":1}\n{\"journal\":[],\"who\":1}\n";

const TWO_TAKEN: &str =
    "{\"awaits\":0,\"marks\":[],\"name\":\"ann\",\"taken\":2,\"text\":\"\",\"who\":1}\n{\"journal\":[],\"who\":1}\n";

/// A performer that leaves at once.
const LEFT: Evening = Evening {
    words: &["perform", "here", "ann", "lines", "--", "cat"],
    commands: "",
    reset: 0,
    reads: &[],
    writes: &[],
    dials: &[],
    up: JOINED_AND_LEFT,
    up_writes: &[],
    down: JOIN_THEN_LEAVE,
    first: &[],
    waits: &[2],
    code: 0,
    out: TWO_TAKEN,
    err: "",
    retired: 2,
    asked: JOIN_AND_LEAVE,
    lives: &[],
};

/// A performer that types, and evaluates what it typed.
const PLAYED: Evening = Evening {
    words: &[
        "perform", "here", "ann", "--boot", "boot", "lines", "--", "cat",
    ],
    commands: "[\"edit\",[\"hi\"]]\n[\"until\",2]\n[\"eval\",0]\n",
    up: "{\"at\":0,\"who\":1}\n{\"at\":1,\"who\":1}\n{\"at\":2,\"who\":1}\n{\"at\":3,\"who\":1}\n",
    down: "{\"at\":0,\"deed\":\"join\",\"lang\":\"lines\",\"name\":\"ann\",\"seen\":0,\"who\":1}\n{\"at\":1,\"deed\":\"edit\",\"op\":[\"hi\"],\"seen\":0,\"who\":1}\n{\"at\":2,\"deed\":\"eval\",\"seen\":2,\"text\":\"hi\",\"who\":1}\n{\"at\":3,\"deed\":\"leave\",\"seen\":3,\"who\":1}\n",
    first: &[120],
    waits: &[2, 4],
    out: "{\"awaits\":0,\"marks\":[[1,2]],\"name\":\"ann\",\"taken\":4,\"text\":\"hi\",\"who\":1}\n{\"journal\":[[\"born\",1,2]],\"who\":1}\n",
    asked: "{\"call\":\"join\",\"lang\":\"lines\",\"name\":\"ann\"}\n{\"call\":\"edit\",\"num\":1,\"op\":[\"hi\"],\"seen\":0}\n{\"call\":\"eval\",\"num\":2,\"seen\":2,\"text\":\"hi\"}\n{\"call\":\"leave\",\"num\":3}\n",
    lives: &["go\nhi\n"],
    ..LEFT
};

/// A performer that never came to run.
const UNPLAYED: Evening = Evening {
    out: "",
    retired: 0,
    asked: "",
    ..LEFT
};

/// A performer whose opening failed.
const UNOPENED: Evening = Evening {
    retired: 2,
    asked: JOIN,
    ..UNPLAYED
};

const EVENINGS: &[Evening] = &[
    LEFT,
    PLAYED,
    Evening {
        words: &[
            "perform",
            "here",
            "ann",
            "lines",
            "--boot=lost",
            "--",
            "cat",
        ],
        code: 4,
        err: "troop: read fault\n",
        ..UNPLAYED
    },
    Evening {
        reads: &[1],
        code: 4,
        err: "troop: read fault\n",
        ..LEFT
    },
    Evening {
        commands: "[\"show\"]\n",
        writes: &[1],
        code: 5,
        err: "troop: write fault\n",
        ..LEFT
    },
    // The last lines.
    Evening {
        writes: &[1],
        code: 5,
        out: "",
        err: "troop: write fault\n",
        ..LEFT
    },
    Evening {
        dials: &[1],
        code: 6,
        err: "troop: net fault\n",
        ..UNPLAYED
    },
    Evening {
        words: &["perform", "there", "ann", "lines", "--", "cat"],
        code: 6,
        err: "troop: net fault\n",
        ..UNPLAYED
    },
    Evening {
        dials: &[2],
        code: 6,
        err: "troop: net fault\n",
        retired: 1,
        ..UNPLAYED
    },
    Evening {
        up_writes: &[1],
        code: 6,
        err: "troop: net fault\n",
        asked: "",
        ..UNOPENED
    },
    // The leave.
    Evening {
        up_writes: &[2],
        down: THE_JOIN,
        code: 6,
        out: ONE_TAKEN,
        err: "troop: net fault\n",
        asked: JOIN,
        ..LEFT
    },
    Evening {
        commands: "\n[\"hush\"]\n",
        code: 7,
        err: "troop: bad line 2\n",
        ..LEFT
    },
    Evening {
        up: "{\"joins\":4096,\"no\":\"crowded\"}\n",
        code: 8,
        err: "troop: refused {\"joins\":4096,\"no\":\"crowded\"}\n",
        ..UNOPENED
    },
    // A leave that nobody sent.
    Evening {
        commands: "[\"until\",5]\n",
        waits: &[],
        code: 8,
        err: "troop: dropped at 1\n",
        asked: JOIN,
        ..LEFT
    },
    Evening {
        up: "",
        code: 9,
        err: "troop: bad peer, up line 1\n",
        ..UNOPENED
    },
    Evening {
        commands: "[\"until\",5]\n",
        down: "hi\n",
        waits: &[],
        code: 9,
        out: NOTHING,
        err: "troop: bad peer, down line 1\n",
        asked: JOIN,
        ..LEFT
    },
    Evening {
        words: &[
            "perform", "--boot", "big", "here", "ann", "lines", "--", "cat",
        ],
        code: 10,
        err: "troop: too much input\n",
        ..UNPLAYED
    },
    // Its request is too long, its command isn't.
    Evening {
        reset: 1_048_560,
        down: THE_JOIN,
        waits: &[1, 2],
        code: 11,
        out: ONE_TAKEN,
        err: "troop: request of 1048603 bytes is too long\n",
        asked: JOIN,
        ..LEFT
    },
];

// A reset to so many characters, if it isn't 0.
fn reset_of(alloc: Global, length: usize) -> Result<Vec<u8>, AllocError> {
    let mut bytes = Vec::new(alloc);
    if length > 0 {
        bytes.extend_from_slice(b"[\"reset\",\"")?;
        for _ in 0..length {
            bytes.push(b'x')?;
        }
        bytes.extend_from_slice(b"\"]\n")?;
    }
    Ok(bytes)
}

// The commands of an evening.
fn commands(alloc: Global, evening: &Evening) -> Result<BytesSource, AllocError> {
    let mut bytes = reset_of(alloc, evening.reset)?;
    bytes.extend_from_slice(evening.commands.as_bytes())?;
    BytesSource::new(alloc, &bytes, &[], evening.reads)
}

// A shelf with a boot text, a file that is as large as one may be, and one that is larger.
fn shelf(alloc: Global) -> Result<ListShelf, Fail> {
    let mut full = Vec::new(alloc);
    full.resize(1_048_576, b'x')?;
    let mut big = Vec::new(alloc);
    big.resize(1_048_577, b'x')?;
    let files = vec![in alloc;
        (
            String::from_str(alloc, "boot")?,
            Vec::from_slice(alloc, b"go\n")?
        ),
        (String::from_str(alloc, "full")?, full),
        (String::from_str(alloc, "big")?, big),
    ]?;
    Ok(ListShelf::new(alloc, files, &[])?)
}

// The up link, which counts its calls.
fn up_link<'c>(alloc: Global, evening: &Evening, calls: &'c AtomicU64) -> Result<HeldLink<'c>, Fail>
    ensures { IfOk result (λ link. link.wire.is_closed ≡ false) }
{
    let bytes = evening.up.as_bytes();
    Ok(HeldLink {
        wire: BytesLink::new(alloc, bytes, &[], &[], 1 << 16, evening.up_writes)?,
        calls,
        counts: true,
        waits: &[],
    })
}

// The down link, which waits for calls.
fn down_link<'c>(
    alloc: Global,
    evening: &Evening,
    calls: &'c AtomicU64,
) -> Result<HeldLink<'c>, Fail>
    ensures { IfOk result (λ link. link.wire.is_closed ≡ false) }
{
    let bytes = evening.down.as_bytes();
    Ok(HeldLink {
        wire: BytesLink::new(alloc, bytes, evening.first, &[], 1 << 16, &[])?,
        calls,
        counts: false,
        waits: evening.waits,
    })
}

// A net of these two links, at the address `here`.
fn net<'c>(alloc: Global, evening: &Evening, calls: &'c AtomicU64) -> Result<HeldNet<'c>, Fail> {
    let up = up_link(alloc, evening, calls)?;
    let down = down_link(alloc, evening, calls)?;
    let links = vec![in alloc; up, down]?;
    let doors = Vec::<ListDoor<BytesLink>>::new(alloc);
    let here = String::from_str(alloc, "here")?;
    Ok(ListNet::new(alloc, doors, links, evening.dials)?.standing_at(here))
}

// Whether the program comes over this net to what the row says.
fn plays_over<R: Threads + Wait + Sync>(
    rt: &R,
    alloc: Global,
    evening: &Evening,
    net: &mut HeldNet<'_>,
) -> Result<bool, Fail> {
    let ending = Ending {
        writes: evening.writes,
        room: 1000,
        code: evening.code,
        out: evening.out,
        err: evening.err,
        lives: evening.lives,
    };
    let mut input = commands(alloc, evening)?;
    let mut shelf = shelf(alloc)?;
    comes_to(
        rt,
        alloc,
        evening.words,
        &mut input,
        net,
        &mut shelf,
        &ending,
    )
}

// Whether the evening came to what its row says.
fn plays<R: Threads + Wait + Sync>(rt: &R, alloc: Global, evening: &Evening) -> Result<bool, Fail> {
    let calls = AtomicU64::new(0);
    let mut net = net(alloc, evening, &calls)?;
    let is_played = plays_over(rt, alloc, evening, &mut net)?;
    Ok(is_played && came_back(net.retired(), evening))
}

// Whether so many links came back, and this was written on the first.
fn came_back(links: &[HeldLink<'_>], evening: &Evening) -> bool {
    let asked = match links {
        [up, ..] => up.wire.written(),
        [] => &[],
    };
    links.len() == evening.retired && asked == evening.asked.as_bytes()
}

#[test]
fn an_evening_comes_to_what_its_row_says(rt: HostRuntime) -> Result<(), Fail> {
    for (number, evening) in EVENINGS.iter().enumerate() {
        let played = plays(&rt, rt.alloc(), evening)?;
        assert!(rt; played, "evening {number}");
    }
    Ok(())
}

/// Words, and the status where no link can be had.
const WORDS: &[(&[&str], u8)] = &[
    (&["perform", "here", "ann", "lines", "--", "cat"], 6),
    (
        &["perform", "here", "ann", "ghci", "--", "ghci", "-v0", "--"],
        6,
    ),
    (
        &[
            "perform",
            "--boot=boot",
            "here",
            "ann",
            "lines",
            "--",
            "cat",
        ],
        6,
    ),
    (
        &[
            "perform",
            "here",
            "--boot=boot",
            "ann",
            "lines",
            "--",
            "cat",
        ],
        6,
    ),
    (
        &[
            "perform",
            "here",
            "ann",
            "--boot=boot",
            "lines",
            "--",
            "cat",
        ],
        6,
    ),
    (
        &[
            "perform",
            "here",
            "ann",
            "lines",
            "--boot=boot",
            "--",
            "cat",
        ],
        6,
    ),
    (
        &[
            "perform", "--boot", "boot", "here", "ann", "lines", "--", "cat",
        ],
        6,
    ),
    (
        &[
            "perform", "here", "--boot", "boot", "ann", "lines", "--", "cat",
        ],
        6,
    ),
    (
        &[
            "perform", "here", "ann", "--boot", "boot", "lines", "--", "cat",
        ],
        6,
    ),
    (
        &[
            "perform", "here", "ann", "lines", "--boot", "boot", "--", "cat",
        ],
        6,
    ),
    (
        &[
            "perform", "--boot", "full", "here", "ann", "lines", "--", "cat",
        ],
        6,
    ),
    // 32 characters of two bytes each.
    (
        &[
            "perform",
            "here",
            "éééééééééééééééééééééééééééééééé",
            "lines",
            "--",
            "cat",
        ],
        6,
    ),
    (
        &[
            "perform",
            "here",
            "ééééééééééééééééééééééééééééééééé",
            "lines",
            "--",
            "cat",
        ],
        2,
    ),
    (&["perform"], 2),
    (&["perform", "here", "ann", "lines"], 2),
    (&["perform", "here", "ann", "lines", "--"], 2),
    (&["perform", "here", "ann", "--", "cat"], 2),
    (&["perform", "here", "ann", "lines", "more", "--", "cat"], 2),
    (&["perform", "here", "ann", "Lines", "--", "cat"], 2),
    (&["perform", "", "ann", "lines", "--", "cat"], 2),
    (&["perform", "here", "", "lines", "--", "cat"], 2),
    (&["perform", "here", "-ann", "lines", "--", "cat"], 2),
    (
        &["perform", "here", "ann", "lines", "--boot", "--", "cat"],
        2,
    ),
    (
        &["perform", "here", "ann", "lines", "--boot=", "--", "cat"],
        2,
    ),
    (
        &[
            "perform", "here", "ann", "lines", "--boot", "-boot", "--", "cat",
        ],
        2,
    ),
    (
        &[
            "perform",
            "--boot=boot",
            "--boot=boot",
            "here",
            "ann",
            "lines",
            "--",
            "cat",
        ],
        2,
    ),
    (&["serve", "here", "--", "cat"], 2),
    (&["replay", "--", "cat"], 2),
];

// An evening without a link, of these words.
fn unlinked(words: &'static [&'static str], code: u8) -> Evening {
    Evening {
        words,
        dials: &[1],
        code,
        err: if code == 2 {
            "troop: usage\n"
        } else {
            "troop: net fault\n"
        },
        ..UNPLAYED
    }
}

#[test]
fn words_say_who_performs(rt: HostRuntime) -> Result<(), Fail> {
    for (words, code) in WORDS {
        assert!(rt; plays(&rt, rt.alloc(), &unlinked(*words, *code))?);
    }
    Ok(())
}

#[test]
fn program_is_named_behind_dashes(rt: HostRuntime) -> Result<(), Fail> {
    let words = words_of(rt.alloc(), &["perform", "--", "ghci", "-v0", "--"])?;
    let program = words_of(rt.alloc(), &["ghci", "-v0", "--"])?;
    assert!(rt; program_words(&words) == program.as_slice());
    let others = words_of(rt.alloc(), &["replay"])?;
    assert!(rt; program_words(&others).is_empty());
    Ok(())
}
