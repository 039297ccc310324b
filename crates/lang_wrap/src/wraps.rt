//! The wrap of a block.
ghost use Rattle.std.specs.Prelude.{◌≡◌, ◌||◌, ◌++◌, ◌∷◌, [], IfOk, encode_utf8_all, string_bytes};
ghost use Rattle.std.specs.List.{list_any};
ghost use Rattle.lang_wrap.specs.Wraps.{wrap, has_brace_line, ends_with_feed, plain_form, braced_form};

use crate::line::{closes, opens};
use ot_text::Text;
use std::alloc::{AllocError, Global};
use troop_entry::Lang;

/// The wrap of a block's text: for GHCi the text between a line `:{` and a line `:}`, unless a line of the text is one of
/// these itself; else the text, and a line feed unless it ends with one.
#[tactic(auto, unfolding(crate::specs::Wraps::wrap))]
pub fn wrap(alloc: Global, lang: Lang, text: &Text) -> Result<Vec<u8>, AllocError>
    ensures { IfOk result (λ bytes. bytes.items ≡ wrap lang text.now) }
{
    let text = utf8_of(alloc, text)?;
    let bytes = text.as_bytes();
    match lang {
        Lang::Lines => plain_form(alloc, bytes),
        Lang::Ghci => {
            if has_brace_line(bytes) {
                plain_form(alloc, bytes)
            } else {
                braced_form(alloc, bytes)
            }
        }
    }
}

// The text in UTF-8.
fn utf8_of(alloc: Global, text: &Text) -> Result<String, AllocError>
    ensures { IfOk result (λ string. string_bytes string ≡ encode_utf8_all text.now) }
{
    text.chars().iter().copied().collect(alloc)
}

// Whether a line opens or closes.
fn has_brace_line(bytes: &[u8]) -> bool
    ensures { result ≡ has_brace_line bytes.now }
{
    bytes
        .split(|b| *b == b'\n')
        .any(|line| opens(line) || closes(line))
}

// Whether the last byte is a line feed.
fn ends_with_feed(bytes: &[u8]) -> bool
    ensures { result ≡ ends_with_feed bytes.now }
{
    match bytes.last() {
        Some(last) => *last == b'\n',
        None => false,
    }
}

// The bytes, and a line feed unless they end with one.
fn plain_form(alloc: Global, bytes: &[u8]) -> Result<Vec<u8>, AllocError>
    ensures { IfOk result (λ v. v.items ≡ plain_form bytes.now) }
{
    let mut wrapped = Vec::from_slice(alloc, bytes)?;
    if !ends_with_feed(bytes) {
        wrapped.push(b'\n')?;
    }
    Ok(wrapped)
}

// The bytes between a line `:{` and a line `:}`.
fn braced_form(alloc: Global, bytes: &[u8]) -> Result<Vec<u8>, AllocError>
    ensures { IfOk result (λ v. v.items ≡ braced_form bytes.now) }
{
    let mut wrapped = Vec::from_slice(alloc, b":{\n")?;
    wrapped.extend_from_slice(bytes)?;
    wrapped.extend_from_slice(b"\n:}\n")?;
    Ok(wrapped)
}
