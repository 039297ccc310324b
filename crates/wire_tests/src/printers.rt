//! Each printed form once.
use std::alloc::{AllocError, Global};
use std::test::Fail;
use troop_doc::Doc;
use troop_entry::Note;
use wire_json::{Read, Snapshot, read_entry, read_reply, read_request, read_snapshot};
use wire_print::*;

// Whether what was printed is this line.
fn is_line(printed: &[u8], line: &str) -> bool {
    printed.strip_suffix(b"\n") == Some(line.as_bytes())
}

const REQUESTS: [&str; 10] = [
    "{\"call\":\"join\",\"lang\":\"ghci\",\"name\":\"ann\"}",
    "{\"call\":\"leave\"}",
    "{\"call\":\"leave\",\"num\":9007199254740991}",
    "{\"call\":\"edit\",\"num\":1,\"op\":[1,\"a\\n\\\"\",-2],\"seen\":3}",
    "{\"call\":\"eval\",\"num\":2,\"seen\":5,\"text\":\"hush\"}",
    "{\"call\":\"reset\",\"num\":3,\"seen\":5,\"text\":\"\"}",
    "{\"call\":\"stay\",\"lang\":\"lines\",\"name\":\"bo\"}",
    "{\"call\":\"back\",\"who\":2}",
    "{\"call\":\"down\",\"from\":0,\"who\":1}",
    "{\"call\":\"snap\",\"who\":4294967295}",
];

const REPLIES: [&str; 10] = [
    "{\"at\":5,\"who\":2}",
    "{\"at\":5,\"kept\":true,\"who\":2}",
    "{\"at\":5,\"no\":\"clash\",\"num\":3}",
    "{\"no\":\"member\",\"who\":2}",
    "{\"length\":4,\"no\":\"ahead\",\"seen\":9}",
    "{\"got\":1,\"no\":\"base\",\"want\":2}",
    "{\"joins\":4096,\"no\":\"crowded\"}",
    "{\"line\":3,\"no\":\"bad\"}",
    "{\"line\":3,\"no\":\"long\"}",
    "{\"line\":1,\"no\":\"unfit\"}",
];

const ENTRIES: [&str; 5] = [
    "{\"at\":0,\"deed\":\"join\",\"lang\":\"lines\",\"name\":\"ann\",\"seen\":0,\"who\":1}",
    "{\"at\":4,\"deed\":\"leave\",\"seen\":4,\"who\":1}",
    "{\"at\":3,\"deed\":\"edit\",\"op\":[2,\"!\"],\"seen\":3,\"who\":2}",
    "{\"at\":5,\"deed\":\"eval\",\"seen\":5,\"text\":\"hi\",\"who\":2}",
    "{\"at\":6,\"deed\":\"reset\",\"op\":[\"new\",-4],\"seen\":5,\"who\":2}",
];

// Whether the line is a request, and printed as it came.
fn is_request(alloc: Global, line: &str) -> Result<bool, AllocError> {
    match read_request(alloc, line.as_bytes()) {
        Read::Value(request) => Ok(is_line(&print_request(alloc, &request)?, line)),
        _ => Ok(false),
    }
}

// Whether the line is a reply, and printed as it came.
fn is_reply(alloc: Global, line: &str) -> Result<bool, AllocError> {
    match read_reply(alloc, line.as_bytes()) {
        Read::Value(reply) => Ok(is_line(&print_reply(alloc, &reply)?, line)),
        _ => Ok(false),
    }
}

// Whether the line is an entry, and printed as it came.
fn is_entry(alloc: Global, line: &str) -> Result<bool, AllocError> {
    match read_entry(alloc, line.as_bytes()) {
        Read::Value(entry) => Ok(is_line(&print_entry(alloc, &entry)?, line)),
        _ => Ok(false),
    }
}

#[test]
fn what_is_read_is_printed_as_it_came(rt: HostRuntime) -> Result<(), Fail> {
    for line in REQUESTS {
        let is_so = is_request(rt.alloc(), line)?;
        assert_eq!(rt; (line, is_so), (line, true));
    }
    for line in REPLIES {
        let is_so = is_reply(rt.alloc(), line)?;
        assert_eq!(rt; (line, is_so), (line, true));
    }
    for line in ENTRIES {
        let is_so = is_entry(rt.alloc(), line)?;
        assert_eq!(rt; (line, is_so), (line, true));
    }
    Ok(())
}

#[test]
fn the_laws_of_printing_are_called() {
    read_back_law();
    one_line_law();
    read_within_law();
}

// Whether the snapshot is printed as this line.
fn is_snapshot(alloc: Global, snapshot: &Snapshot, line: &str) -> Result<bool, AllocError> {
    Ok(is_line(&print_snapshot(alloc, snapshot.at, &snapshot.doc)?, line))
}

// Whether the document is printed as this line of a desk with seven entries.
fn is_desk(alloc: Global, doc: &Doc, line: &str) -> Result<bool, AllocError> {
    Ok(is_line(&print_desk(alloc, 7, doc)?, line))
}

// Whether the document is printed as this line of a stage whose performer has its text for a name.
fn is_stage(alloc: Global, doc: &Doc, line: &str) -> Result<bool, AllocError> {
    let name = doc.text()?;
    Ok(is_line(&print_stage(alloc, &name, 1, 2, 6, doc)?, line))
}

const SNAPSHOT: &str = "{\"at\":5,\"marks\":[[2,1],[1,3]],\"text\":\"a\\tb\\u0001\"}";

const DESK: &str = "{\"entries\":7,\"marks\":[[2,1],[1,3]],\"text\":\"a\\tb\\u0001\"}";

const STAGE: &str =
    "{\"awaits\":2,\"marks\":[[2,1],[1,3]],\"name\":\"a\\tb\\u0001\",\"taken\":6,\"text\":\"a\\tb\\u0001\",\"who\":1}";

// Whether the snapshot is printed as it came, and its document as these lines.
fn are_documents(alloc: Global, snapshot: &Snapshot) -> Result<bool, AllocError> {
    Ok(
        is_snapshot(alloc, snapshot, SNAPSHOT)?
            && is_desk(alloc, &snapshot.doc, DESK)?
            && is_stage(alloc, &snapshot.doc, STAGE)?,
    )
}

// Whether the line is a snapshot, which is printed in each way.
fn is_printed(alloc: Global, line: &str) -> Result<bool, AllocError> {
    match &read_snapshot(alloc, line.as_bytes()) {
        Read::Value(snapshot) => are_documents(alloc, snapshot),
        _ => Ok(false),
    }
}

#[test]
fn documents_are_printed_with_their_runs(rt: HostRuntime) -> Result<(), Fail> {
    let is_so = is_printed(rt.alloc(), SNAPSHOT)?;
    assert!(rt; is_so);
    Ok(())
}

const NOTES: [Note; 5] = [
    Note::Born { life: 1, place: 2 },
    Note::BootCut { life: 1, bytes: 3 },
    Note::Skipped { place: 2 },
    Note::Cut {
        life: 2,
        place: 4,
        bytes: 5,
    },
    Note::Unclosed { life: 3 },
];

// A life of some bytes, and one of none.
fn two_lives(alloc: Global) -> Result<Vec<Vec<u8>>, AllocError> {
    let life = Vec::from_slice(alloc, b"go\n\xff")?;
    Ok(Vec::from_array(alloc, [life, Vec::new(alloc)])?)
}

fn are_lives(alloc: Global, line: &str) -> Result<bool, AllocError> {
    Ok(is_line(&print_lives(alloc, 1, &two_lives(alloc)?)?, line))
}

fn is_journal(alloc: Global, line: &str) -> Result<bool, AllocError> {
    Ok(is_line(&print_journal(alloc, 1, &NOTES)?, line))
}

fn is_blank(alloc: Global, line: &str) -> Result<bool, AllocError> {
    Ok(is_line(&print_blank(alloc, 7)?, line))
}

#[test]
fn lives_are_printed_in_hexadecimal_and_notes_as_arrays(rt: HostRuntime) -> Result<(), Fail> {
    let alloc = rt.alloc();
    assert!(rt; are_lives(alloc, "{\"lives\":[\"676f0aff\",\"\"],\"who\":1}")?);
    let line =
        "{\"journal\":[[\"born\",1,2],[\"bootcut\",1,3],[\"skipped\",2],[\"cut\",2,4,5],[\"unclosed\",3]],\"who\":1}";
    assert!(rt; is_journal(alloc, line)?);
    assert!(rt; is_blank(alloc, "{\"no\":\"blank\",\"place\":7}")?);
    Ok(())
}

const DRILL: DrillSummary = DrillSummary {
    blocks: 1,
    entries: 9,
    equal: true,
    lives: 2,
    notes: 3,
    seed: 18_446_744_073_709_551_615,
    steps: 50,
    unfit: 4,
};

const JAM: JamSummary = JamSummary {
    calls: 20,
    entries: 164,
    equal: true,
    performers: 4,
};

fn is_drill(alloc: Global, line: &str) -> Result<bool, AllocError> {
    Ok(is_line(&print_drill(alloc, &DRILL)?, line))
}

fn is_jam(alloc: Global, line: &str) -> Result<bool, AllocError> {
    Ok(is_line(&print_jam(alloc, &JAM)?, line))
}

#[test]
fn summaries_are_printed_key_by_key(rt: HostRuntime) -> Result<(), Fail> {
    let line =
        "{\"blocks\":1,\"entries\":9,\"equal\":true,\"lives\":2,\"notes\":3,\"seed\":18446744073709551615,\"steps\":50,\"unfit\":4}";
    assert!(rt; is_drill(rt.alloc(), line)?);
    let line = "{\"calls\":20,\"entries\":164,\"equal\":true,\"performers\":4}";
    assert!(rt; is_jam(rt.alloc(), line)?);
    Ok(())
}
