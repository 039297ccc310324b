//! Single lines.
ghost use Rattle.std.specs.Prelude.{◌≡◌, ◌+◌, ◌<◌, ◌∷◌, ◌++◌, false, length, take, drop, IfSome, IfNone};
ghost use Rattle.lang_wrap.specs.Wraps.{is_blank_byte, behind_blanks, begins_with_brace, opens, closes};
ghost use Rattle.std.specs.List.{list_all};
ghost use Rattle.lang_wrap.specs.Commands.{has_feed};

// Whether the byte is a space or a tab.
fn is_blank_byte(byte: u8) -> bool
    ensures { result ≡ is_blank_byte byte }
{
    byte == b' ' || byte == b'\t'
}

// The line from its first byte on that is no blank.
fn behind_blanks(line: &[u8]) -> &[u8]
    ensures { result.now ≡ behind_blanks line.now }
{
    let mut at = 0;
    while at < line.len() && is_blank_byte(line[at]) {
        at += 1;
    }
    &line[at..]
}

// Whether all bytes are blanks.
fn are_blank(bytes: &[u8]) -> bool
    ensures { result ≡ list_all is_blank_byte bytes.now }
{
    bytes.iter().all(|b| is_blank_byte(*b))
}

// Whether the line is a colon and this byte, blanks at its ends ignored.
fn is_brace_line(line: &[u8], brace: u8) -> bool
    ensures { result ≡ begins_with_brace brace (behind_blanks line.now) }
{
    match behind_blanks(line) {
        [first, second, rest @ ..] => *first == b':' && *second == brace && are_blank(rest),
        _ => false,
    }
}

/// Whether the line is `:{`, blanks at its ends ignored.
pub(crate) fn opens(line: &[u8]) -> bool
    ensures { result ≡ opens line.now }
{
    is_brace_line(line, b'{')
}

/// Whether the line is `:}`, blanks at its ends ignored.
pub(crate) fn closes(line: &[u8]) -> bool
    ensures { result ≡ closes line.now }
{
    is_brace_line(line, b'}')
}

/// The place of the first line feed.
pub(crate) fn feed_at(bytes: &[u8]) -> Option<usize>
    ensures none { IfNone result (has_feed bytes.now ≡ false) }
    ensures line { IfSome result (λ at. has_feed (take at bytes.now) ≡ false) }
    ensures feed { IfSome result (λ at. bytes.now ≡ take at bytes.now ++ 10 ∷ drop (at + 1) bytes.now) }
    ensures within { IfSome result (λ at. at < length bytes.now) }
{
    for (at, b) in bytes.iter().enumerate() {
        if *b == b'\n' {
            return Some(at);
        }
    }
    None
}
