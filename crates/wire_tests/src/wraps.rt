//! The worked row of wraps, brace lines with blanks at their ends, and empty blocks.
use lang_wrap::*;
use ot_text::Text;
use std::alloc::Global;
use std::test::Fail;
use troop_entry::Lang;

fn wrapped(alloc: Global, lang: Lang, text: &str) -> Result<Vec<u8>, Fail> {
    let text = Text::of(alloc, text)?;
    Ok(wrap(alloc, lang, &text)?)
}

/// A block's text in its language, and the bytes for its interpreter.
struct Row(Lang, &'static str, &'static [u8]);

const WRAPS: &[Row] = &[
    // A GHCi block is one command.
    Row(Lang::Ghci, "d1 $ s \"bd\"", COMMAND),
    // One with brace lines goes as plain lines.
    Row(Lang::Ghci, "a\n :} \nb", b"a\n :} \nb\n"),
    Row(Lang::Ghci, "\t:{ \nb\n:}\t", b"\t:{ \nb\n:}\t\n"),
    // An empty block, and one that ends with a line feed.
    Row(Lang::Lines, "", b"\n"),
    Row(Lang::Ghci, "", b":{\n\n:}\n"),
    Row(Lang::Lines, "a\n", b"a\n"),
];

const COMMAND: &[u8] = b":{\nd1 $ s \"bd\"\n:}\n";

const UNENDED: &[u8] = b":{\nd1 $ s \"bd\"\n:}";

fn is_wrapped(alloc: Global, row: &Row) -> Result<bool, Fail> {
    Ok(wrapped(alloc, row.0, row.1)?.as_slice() == row.2)
}

#[test]
fn blocks_are_wrapped_for_their_interpreters(rt: HostRuntime) -> Result<(), Fail> {
    for row in WRAPS {
        let is_so = is_wrapped(rt.alloc(), row)?;
        assert_eq!(rt; (row.1, is_so), (row.1, true));
    }
    wrap_law();
    Ok(())
}

// Where the first command of bytes for GHCi ends.
fn first_end(bytes: &[u8]) -> Option<usize> {
    first_command(Lang::Ghci, bytes)
}

#[test]
fn the_first_command_ends_behind_its_brace_line(rt: HostRuntime) {
    let ends = [
        first_end(COMMAND),
        first_end(UNENDED),
        first_end(b":{\na:}b\n :}\t\nc\n"),
    ];
    assert_eq!(rt; ends, [Some(18), None, Some(13)]);
}
