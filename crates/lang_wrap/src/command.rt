//! Where a command ends.
ghost use Rattle.std.specs.Prelude.{◌≡◌, ◌+◌, ◌≤◌, ◌<◌, drop, take, length, ℕ, Some, IfSome, option_map};
ghost use Rattle.lang_wrap.specs.Commands.{lines_in, closing_end, command_end, IsCommand};

use crate::line::{closes, feed_at, opens};
use troop_entry::Lang;

/// The number of bytes of the first command, if all of it is there: the one front of the bytes that is a command. It takes no
/// memory.
pub fn first_command(lang: Lang, bytes: &[u8]) -> Option<usize>
    ensures value { result ≡ command_end lang (lines_in bytes.now) }
    ensures found { IfSome result (λ n. (n ≤ length bytes.now) × IsCommand lang (take n bytes.now)) }
    ensures only { (n : ℕ) → n ≤ length bytes.now → IsCommand lang (take n bytes.now) → result ≡ Some n }
{
    command_end(lang, bytes)
}

// The number of bytes of the first line, or for GHCi, where that opens, up to and with the next line that closes.
fn command_end(lang: Lang, bytes: &[u8]) -> Option<usize>
    ensures { result ≡ command_end lang (lines_in bytes.now) }
{
    let end = feed_at(bytes)?;
    match lang {
        Lang::Lines => Some(end + 1),
        Lang::Ghci => {
            if opens(&bytes[..end]) {
                closing_end(bytes, end + 1)
            } else {
                Some(end + 1)
            }
        }
    }
}

// The number of bytes up to and with the first line behind this place that closes.
fn closing_end(bytes: &[u8], start: usize) -> Option<usize>
    requires { start ≤ length bytes.now }
    ensures { result ≡ option_map (λ n. start + n) (closing_end (lines_in (drop start bytes.now))) }
{
    let mut at = start;
    while let Some(count) = feed_at(&bytes[at..]) {
        let rest = &bytes[at..];
        if closes(&rest[..count]) {
            return Some(at + count + 1);
        }
        at += count + 1;
    }
    None
}
