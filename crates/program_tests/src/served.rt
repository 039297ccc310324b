//! Servers by their words: the statuses, the line at the end, and the door that comes back.
ghost use Rattle.std.specs.Prelude.{◌≡◌, false, IfOk};

use crate::held::HeldLink;
use crate::programs::{Ending, HeldNet, comes_to};
use std::alloc::Global;
use std::sync::Wait;
use std::test::Fail;
use std::thread::Threads;
use troop_ports::{BytesLink, BytesSource, ListDoor, ListNet, ListShelf};

/// A join, and an edit that changes nothing.
const LINES: &[u8] =
    b"{\"call\":\"join\",\"lang\":\"lines\",\"name\":\"ann\"}\n{\"call\":\"edit\",\"op\":[],\"seen\":0}\n";

/// A join, a line that is no request, and an edit.
const UP: &[u8] =
    b"{\"call\":\"join\",\"lang\":\"lines\",\"name\":\"ann\"}\n{\"call\":\"edit\"}\n{\"call\":\"edit\",\"op\":[\"hi\"],\"seen\":1}\n";

/// Words, what links give, which calls fail, and then what a server of one door with two such links comes to, where the net stands at
/// `here`.
#[derive(Clone, Copy)]
struct Evening {
    words: &'static [&'static str],
    /// What each link gives.
    given: &'static [u8],
    /// The lengths of the pieces in which it comes.
    pieces: &'static [u64],
    /// The numbers of the net's failing calls.
    listens: &'static [u64],
    /// The numbers of the door's failing calls.
    accepts: &'static [u64],
    /// The numbers of failing writes.
    writes: &'static [u64],
    /// The output's room.
    room: u64,
    code: u8,
    out: &'static str,
    err: &'static str,
    /// How many links came back to doors that came back.
    retired: usize,
    /// How many doors came back.
    shut: usize,
    /// What was written on the first link that came back, where no other link decides it.
    written: Option<&'static str>,
}

const BOTH: Evening = Evening {
    words: &["serve", "here"],
    given: LINES,
    pieces: &[],
    listens: &[],
    accepts: &[],
    writes: &[],
    room: 100,
    code: 0,
    out: "{\"entries\":6,\"marks\":[],\"text\":\"\"}\n",
    err: "",
    retired: 2,
    shut: 1,
    written: None,
};

const ONE: Evening = Evening {
    out: "{\"entries\":3,\"marks\":[],\"text\":\"\"}\n",
    retired: 1,
    written: Some("{\"at\":0,\"who\":1}\n{\"at\":1,\"who\":1}\n"),
    ..BOTH
};

const USAGE: Evening = Evening {
    code: 2,
    out: "",
    err: "troop: usage\n",
    retired: 0,
    shut: 0,
    ..BOTH
};

const WRITE_FAULT: Evening = Evening {
    code: 5,
    out: "",
    err: "troop: write fault\n",
    ..BOTH
};

const NET_FAULT: Evening = Evening {
    code: 6,
    out: "",
    err: "troop: net fault\n",
    ..BOTH
};

const EVENINGS: &[Evening] = &[
    BOTH,
    Evening {
        words: &["serve", "here", "--sessions", "1"],
        ..ONE
    },
    Evening {
        words: &["serve", "--sessions=00000000000000000001", "here"],
        ..ONE
    },
    // Byte by byte.
    Evening {
        words: &["serve", "here", "--sessions", "1"],
        given: UP,
        pieces: &[1; 100],
        out: "{\"entries\":3,\"marks\":[[1,2]],\"text\":\"hi\"}\n",
        written: Some("{\"at\":0,\"who\":1}\n{\"line\":2,\"no\":\"bad\"}\n{\"at\":1,\"who\":1}\n"),
        ..ONE
    },
    Evening {
        words: &["serve", "--sessions", "1000000", "here"],
        ..BOTH
    },
    Evening {
        words: &["serve", "here", "--sessions=0"],
        out: "{\"entries\":0,\"marks\":[],\"text\":\"\"}\n",
        retired: 0,
        ..BOTH
    },
    Evening {
        writes: &[1],
        ..WRITE_FAULT
    },
    Evening {
        room: 5,
        out: "{\"ent",
        ..WRITE_FAULT
    },
    Evening {
        listens: &[1],
        retired: 0,
        shut: 0,
        ..NET_FAULT
    },
    Evening {
        words: &["serve", "there"],
        retired: 0,
        shut: 0,
        ..NET_FAULT
    },
    Evening {
        accepts: &[2],
        retired: 1,
        ..NET_FAULT
    },
    Evening {
        words: &["serve"],
        ..USAGE
    },
    Evening {
        words: &["serve", ""],
        ..USAGE
    },
    Evening {
        words: &["serve", "-here"],
        ..USAGE
    },
    Evening {
        words: &["serve", "here", "there"],
        ..USAGE
    },
    Evening {
        words: &["serve", "here", "--sessions"],
        ..USAGE
    },
    Evening {
        words: &["serve", "--sessions", "1"],
        ..USAGE
    },
    Evening {
        words: &["serve", "here", "--sessions", "+1"],
        ..USAGE
    },
    Evening {
        words: &["serve", "here", "--sessions="],
        ..USAGE
    },
    Evening {
        words: &["serve", "here", "--sessions", "1000001"],
        ..USAGE
    },
    Evening {
        words: &["serve", "here", "--sessions", "99999999999999999999"],
        ..USAGE
    },
    Evening {
        words: &["serve", "here", "--sessions", "000000000000000000001"],
        ..USAGE
    },
    Evening {
        words: &["serve", "here", "--sessions=1", "--sessions=1"],
        ..USAGE
    },
    Evening {
        words: &["serve", "here", "--sessions", "1", "--sessions", "1"],
        ..USAGE
    },
    Evening {
        words: &["serve", "--", "here"],
        ..USAGE
    },
];

// A link of such an evening.
fn link(alloc: Global, evening: &Evening) -> Result<BytesLink, Fail>
    ensures { IfOk result (λ link. link.is_closed ≡ false) }
{
    Ok(BytesLink::new(alloc, evening.given, evening.pieces, &[], 1 << 16, &[])?)
}

// A door with two such links.
fn door(alloc: Global, evening: &Evening) -> Result<ListDoor<BytesLink>, Fail> {
    let first = link(alloc, evening)?;
    let second = link(alloc, evening)?;
    let links = vec![in alloc; first, second]?;
    Ok(ListDoor::new(alloc, links, evening.accepts)?)
}

// A net of one such door, at the address `here`.
fn net(alloc: Global, evening: &Evening) -> Result<HeldNet<'static>, Fail> {
    let doors = vec![in alloc; door(alloc, evening)?]?;
    let links = Vec::<HeldLink<'static>>::new(alloc);
    let here = String::from_str(alloc, "here")?;
    Ok(ListNet::new(alloc, doors, links, evening.listens)?.standing_at(here))
}

// Whether the program comes over this net to what the row says.
fn serves_over<R: Threads + Wait + Sync>(
    rt: &R,
    alloc: Global,
    evening: &Evening,
    net: &mut HeldNet<'_>,
) -> Result<bool, Fail> {
    let ending = Ending {
        writes: evening.writes,
        room: evening.room,
        code: evening.code,
        out: evening.out,
        err: evening.err,
        lives: &[],
    };
    let mut input = BytesSource::new(alloc, b"[]\n", &[], &[])?;
    let mut shelf = ListShelf::new(alloc, Vec::new(alloc), &[])?;
    comes_to(
        rt,
        alloc,
        evening.words,
        &mut input,
        net,
        &mut shelf,
        &ending,
    )
}

// The links that came back to the first of these doors.
fn retired(doors: &[ListDoor<BytesLink>]) -> &[BytesLink] {
    match doors {
        [door, ..] => door.retired(),
        [] => &[],
    }
}

// What was written on the first of these links.
fn first_written(links: &[BytesLink]) -> &[u8] {
    match links {
        [link, ..] => link.written(),
        [] => &[],
    }
}

// Whether so many doors came back, and to the first of them so many links, and this was written on the first of these.
fn came_back(doors: &[ListDoor<BytesLink>], evening: &Evening) -> bool {
    let links = retired(doors);
    let is_written = match evening.written {
        Some(written) => first_written(links) == written.as_bytes(),
        None => true,
    };
    doors.len() == evening.shut && links.len() == evening.retired && is_written
}

// Whether the evening came to what its row says.
fn serves<R: Threads + Wait + Sync>(
    rt: &R,
    alloc: Global,
    evening: &Evening,
) -> Result<bool, Fail> {
    let mut net = net(alloc, evening)?;
    let is_served = serves_over(rt, alloc, evening, &mut net)?;
    Ok(is_served && came_back(net.shut_doors(), evening))
}

#[test]
fn words_and_faults_decide_how_a_server_ends(rt: HostRuntime) -> Result<(), Fail> {
    for (number, evening) in EVENINGS.iter().enumerate() {
        let served = serves(&rt, rt.alloc(), evening)?;
        assert!(rt; served, "evening {number}");
    }
    Ok(())
}
