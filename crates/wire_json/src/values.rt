//! The kinds of JSON values that the grammars name.
ghost use Rattle.std.specs.Prelude.{◌≡◌, IfOk};
ghost use Rattle.serde_json.specs.View.{view};
ghost use Rattle.wire_json.specs.Values.{count_of, who_of, performer_of, text_value, name_of, lang_of};

use ot_text::Text;
use serde_json::Value;
use std::alloc::{AllocError, Global};
use troop_entry::Lang;

/// The largest count, and the largest sum of the numbers of an operation: 2^53 - 1.
pub const MOST_COUNT: u64 = 9_007_199_254_740_991;

/// How many characters a name may have.
const LONGEST_NAME: u64 = 32;

/// A count.
pub fn read_count(value: &Value) -> Option<u64>
    ensures { result ≡ count_of (view value.now) }
{
    value.as_u64().filter(|count| *count <= MOST_COUNT)
}

/// The number of a performer.
pub fn read_who(value: &Value) -> Option<u32>
    ensures { result ≡ who_of (view value.now) }
{
    u32::try_from(value.as_u64()?).ok()
}

/// The number of a performer, at least 1.
pub fn read_performer(value: &Value) -> Option<u32>
    ensures { result ≡ performer_of (view value.now) }
{
    read_who(value).filter(|who| 1 <= *who)
}

/// A string.
pub fn read_text(alloc: Global, value: &Value) -> Result<Option<Text>, AllocError>
    ensures { IfOk result (λ text. text ≡ text_value (view value.now)) }
{
    match value.as_str() {
        Some(string) => Ok(Some(Text::of(alloc, string)?)),
        None => Ok(None),
    }
}

/// A string of 1 to 32 characters.
pub fn read_name(alloc: Global, value: &Value) -> Result<Option<Text>, AllocError>
    ensures { IfOk result (λ name. name ≡ name_of (view value.now)) }
{
    let Some(string) = value.as_str() else {
        return Ok(None);
    };
    let name = Text::of(alloc, string)?;
    if 1 <= name.len() && name.len() <= LONGEST_NAME {
        Ok(Some(name))
    } else {
        Ok(None)
    }
}

/// The string `lines` or the string `ghci`.
pub fn read_lang(value: &Value) -> Option<Lang>
    ensures { result ≡ lang_of (view value.now) }
{
    match value.as_str()? {
        "lines" => Some(Lang::Lines),
        "ghci" => Some(Lang::Ghci),
        _ => None,
    }
}
