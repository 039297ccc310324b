//! What drills come to. The lines were worked out by a second program, written from the description of the generator and of the world alone.
use drill_run::drill;
use std::alloc::Global;
use std::process::Abort;
use std::test::Fail;
use troop_ports::{BytesSink, CalmSink};

/// A drill and its line.
#[derive(Clone, Copy)]
struct Drill {
    seed: u64,
    steps: u64,
    line: &'static str,
}

const SHORT: [Drill; 3] = [
    Drill {
        seed: 1,
        steps: 0,
        line: "{\"blocks\":0,\"entries\":3,\"equal\":true,\"lives\":0,\"notes\":0,\"seed\":1,\"steps\":0,\"unfit\":0}\n",
    },
    Drill {
        seed: 1,
        steps: 1,
        line: "{\"blocks\":0,\"entries\":3,\"equal\":true,\"lives\":0,\"notes\":0,\"seed\":1,\"steps\":1,\"unfit\":1}\n",
    },
    Drill {
        seed: 7,
        steps: 2000,
        line: "{\"blocks\":145,\"entries\":224,\"equal\":true,\"lives\":34,\"notes\":66,\"seed\":7,\"steps\":2000,\"unfit\":279}\n",
    },
];

const SEEDS: [Drill; 10] = [
    Drill {
        seed: 0,
        steps: 2000,
        line: "{\"blocks\":158,\"entries\":232,\"equal\":true,\"lives\":42,\"notes\":83,\"seed\":0,\"steps\":2000,\"unfit\":257}\n",
    },
    Drill {
        seed: 1,
        steps: 2000,
        line: "{\"blocks\":151,\"entries\":233,\"equal\":true,\"lives\":38,\"notes\":73,\"seed\":1,\"steps\":2000,\"unfit\":263}\n",
    },
    Drill {
        seed: 2,
        steps: 2000,
        line: "{\"blocks\":164,\"entries\":240,\"equal\":true,\"lives\":42,\"notes\":86,\"seed\":2,\"steps\":2000,\"unfit\":227}\n",
    },
    Drill {
        seed: 3,
        steps: 2000,
        line: "{\"blocks\":162,\"entries\":231,\"equal\":true,\"lives\":37,\"notes\":74,\"seed\":3,\"steps\":2000,\"unfit\":264}\n",
    },
    Drill {
        seed: 5,
        steps: 2000,
        line: "{\"blocks\":135,\"entries\":218,\"equal\":true,\"lives\":49,\"notes\":98,\"seed\":5,\"steps\":2000,\"unfit\":276}\n",
    },
    Drill {
        seed: 8,
        steps: 2000,
        line: "{\"blocks\":153,\"entries\":240,\"equal\":true,\"lives\":39,\"notes\":78,\"seed\":8,\"steps\":2000,\"unfit\":259}\n",
    },
    Drill {
        seed: 13,
        steps: 2000,
        line: "{\"blocks\":142,\"entries\":230,\"equal\":true,\"lives\":36,\"notes\":71,\"seed\":13,\"steps\":2000,\"unfit\":263}\n",
    },
    Drill {
        seed: 1000,
        steps: 2000,
        line: "{\"blocks\":130,\"entries\":221,\"equal\":true,\"lives\":35,\"notes\":69,\"seed\":1000,\"steps\":2000,\"unfit\":287}\n",
    },
    Drill {
        seed: 4_294_967_296,
        steps: 2000,
        line: "{\"blocks\":146,\"entries\":222,\"equal\":true,\"lives\":32,\"notes\":65,\"seed\":4294967296,\"steps\":2000,\"unfit\":274}\n",
    },
    Drill {
        seed: 18_446_744_073_709_551_615,
        steps: 2000,
        line: "{\"blocks\":141,\"entries\":240,\"equal\":true,\"lives\":28,\"notes\":53,\"seed\":18446744073709551615,\"steps\":2000,\"unfit\":258}\n",
    },
];

const LONG: Drill = Drill {
    seed: 7,
    steps: 20_000,
    line: "{\"blocks\":1498,\"entries\":2059,\"equal\":true,\"lives\":368,\"notes\":765,\"seed\":7,\"steps\":20000,\"unfit\":2705}\n",
};

// Runs a drill, and compares what it writes.
fn compare(rt: &(impl Abort + AllocGlobal), alloc: Global, drilled: Drill) -> Result<(), Fail> {
    let mut out = BytesSink::new(alloc, 200, &[])?;
    let mut err = BytesSink::new(alloc, 200, &[])?;
    let status = drill(alloc, drilled.seed, drilled.steps, &mut out, &mut err);
    assert!(rt; status.code == 0);
    assert!(rt; out.bytes() == drilled.line.as_bytes());
    assert!(rt; err.bytes().is_empty());
    Ok(())
}

#[test]
fn short_drills_come_to_their_lines(rt: HostRuntime) -> Result<(), Fail> {
    for drilled in SHORT {
        compare(&rt, rt.alloc(), drilled)?;
    }
    Ok(())
}

#[test]
fn ten_seeds_come_to_their_lines(rt: HostRuntime) -> Result<(), Fail> {
    for drilled in SEEDS {
        compare(&rt, rt.alloc(), drilled)?;
    }
    Ok(())
}

#[test]
fn a_long_drill_comes_to_its_line_each_time(rt: HostRuntime) -> Result<(), Fail> {
    compare(&rt, rt.alloc(), LONG)?;
    compare(&rt, rt.alloc(), LONG)
}

#[test]
fn an_output_without_room_is_a_write_fault(rt: HostRuntime) -> Result<(), Fail> {
    let mut out = BytesSink::new(rt.alloc(), 12, &[])?;
    let mut err = BytesSink::new(rt.alloc(), 200, &[])?;
    let status = drill(rt.alloc(), 1, 0, &mut out, &mut err);
    assert!(rt; status.code == 5);
    assert!(rt; out.bytes() == b"{\"blocks\":0,".as_slice());
    assert!(rt; err.bytes() == b"troop: write fault\n".as_slice());
    Ok(())
}

#[test]
fn a_fault_of_the_error_stream_changes_no_status(rt: HostRuntime) -> Result<(), Fail> {
    let mut out = BytesSink::new(rt.alloc(), 200, &[1])?;
    let mut err = BytesSink::new(rt.alloc(), 0, &[])?;
    let status = drill(rt.alloc(), 1, 0, &mut out, &mut err);
    assert!(rt; status.code == 5);
    assert!(rt; out.bytes().is_empty());
    let mut calm = CalmSink::new();
    let status = drill(rt.alloc(), 1, 0, &mut calm, &mut err);
    assert!(rt; status.code == 0);
    Ok(())
}
