//! The words of `perform`: an address, who performs, and a program's words behind `--`.
ghost use Rattle.std.specs.Prelude.{◌≡◌, map, string_bytes, option_map, option_copied, IfSome, chars, length};
ghost use Rattle.std.specs.List.{position, before_first};
ghost use Rattle.troop_main.specs.Words.{asked, KeepsLimits, is_dashes, program_of, perform_of, perform_front, perform_joined, perform_apart, perform_with, perform_boot, boot_joined, boot_apart, boot_named, is_name, lang_named};

use crate::words::{Command, is_plain};
use troop_entry::Lang;

/// How many characters a name may have.
const LONGEST_NAME: usize = 32;

/// Who is to perform.
#[derive(Clone, Copy, Debug, PartialEq, Eq)]
pub struct Billing<'w> {
    /// The performer's name.
    pub name: &'w str,
    /// The language of its interpreter.
    pub lang: Lang,
    /// The name of the file of its boot text, if there is one.
    pub boot: Option<&'w str>,
}

/// The words of the program that is to be started: those behind the first `--`.
pub fn program_words(words: &[String]) -> &[String]
    ensures { map string_bytes result.now ≡ program_of (map string_bytes words.now) }
{
    match dashes_at(words) {
        Some(at) => &words[at + 1..],
        None => &[],
    }
}

// The words in front of the first `--`.
fn words_in_front(words: &[String]) -> &[String]
    ensures { map string_bytes result.now ≡ before_first is_dashes (map string_bytes words.now) }
{
    match dashes_at(words) {
        Some(at) => &words[..at],
        None => words,
    }
}

// Where the first `--` stands.
fn dashes_at(words: &[String]) -> Option<usize>
    ensures { result ≡ position (λ word. is_dashes (string_bytes word)) words.now }
{
    words.iter().position(|word| word.as_str() == "--")
}

/// What the words behind `perform` ask.
#[tactic(auto, unfolding(crate::specs::Words::perform_of))]
pub fn read_perform(words: &[String]) -> Option<Command<'_>>
    ensures asked { option_map asked result ≡ perform_of (map string_bytes words.now) }
    ensures limits { IfSome result KeepsLimits }
{
    if program_words(words).is_empty() {
        return None;
    }
    read_front(words_in_front(words))
}

// What the words in front of the first `--` ask: three words, and perhaps the option.
#[tactic(auto, unfolding(crate::specs::Words::perform_front))]
fn read_front(words: &[String]) -> Option<Command<'_>>
    ensures asked { option_map asked result ≡ perform_front (map string_bytes words.now) }
    ensures limits { IfSome result KeepsLimits }
{
    match words {
        [addr, name, lang] => perform_with(None, addr, name, lang),
        [one, two, three, four] => perform_joined(one, two, three, four),
        [one, two, three, four, five] => perform_apart(one, two, three, four, five),
        _ => None,
    }
}

// What three words ask, and the option among them, which has its file behind '='.
#[tactic(auto, using(crate::proofs::PerformFront::asked_or, crate::proofs::PerformFront::named_or), unfolding(crate::specs::Words::perform_joined))]
fn perform_joined<'w>(
    one: &'w str,
    two: &'w str,
    three: &'w str,
    four: &'w str,
) -> Option<Command<'w>>
    ensures asked { option_map asked result ≡ perform_joined one.now two.now three.now four.now }
    ensures limits { IfSome result KeepsLimits }
{
    perform_boot(boot_joined(one), two, three, four)
        .or(perform_boot(boot_joined(two), one, three, four))
        .or(perform_boot(boot_joined(three), one, two, four))
        .or(perform_boot(boot_joined(four), one, two, three))
}

// What three words ask, and the option among them, which has its file in the next word.
#[tactic(auto, using(crate::proofs::PerformFront::asked_or, crate::proofs::PerformFront::named_or), unfolding(crate::specs::Words::perform_apart))]
fn perform_apart<'w>(
    one: &'w str,
    two: &'w str,
    three: &'w str,
    four: &'w str,
    five: &'w str,
) -> Option<Command<'w>>
    ensures asked { option_map asked result ≡ perform_apart one.now two.now three.now four.now five.now }
    ensures limits { IfSome result KeepsLimits }
{
    perform_boot(boot_apart(one, two), three, four, five)
        .or(perform_boot(boot_apart(two, three), one, four, five))
        .or(perform_boot(boot_apart(three, four), one, two, five))
        .or(perform_boot(boot_apart(four, five), one, two, three))
}

// What an address, a name and a language ask beside an option that names this file, if it does.
#[tactic(auto, unfolding(crate::specs::Words::perform_boot))]
fn perform_boot<'w>(
    boot: Option<&'w str>,
    addr: &'w str,
    name: &'w str,
    lang: &str,
) -> Option<Command<'w>>
    ensures asked { option_map asked result ≡ perform_boot (option_copied boot.entry) addr.now name.now lang.now }
    ensures limits { IfSome result KeepsLimits }
{
    if boot.is_none() {
        return None;
    }
    perform_with(boot, addr, name, lang)
}

// What they ask with this boot file, if it is there.
#[tactic(auto, unfolding(crate::specs::Words::perform_with))]
fn perform_with<'w>(
    boot: Option<&'w str>,
    addr: &'w str,
    name: &'w str,
    lang: &str,
) -> Option<Command<'w>>
    ensures asked { option_map asked result ≡ perform_with (option_copied boot.entry) addr.now name.now lang.now }
    ensures limits { IfSome result KeepsLimits }
{
    if !is_plain(addr) || !is_name(name) {
        return None;
    }
    let lang = lang_named(lang)?;
    Some(Command::Perform {
        addr,
        billing: Billing { name, lang, boot },
    })
}

// Whether a word is the name of a performer: it is no option, and has 1 to 32 characters.
fn is_name(word: &str) -> bool
    ensures { result ≡ is_name word.now }
{
    let count = count_chars(word);
    is_plain(word) && 1 <= count && count <= LONGEST_NAME
}

// How many characters a word has.
fn count_chars(word: &str) -> usize
    ensures { result ≡ length (chars word.now) }
{
    word.chars().count()
}

// The language of this name.
fn lang_named(word: &str) -> Option<Lang>
    ensures { result ≡ lang_named word.now }
{
    match word {
        "lines" => Some(Lang::Lines),
        "ghci" => Some(Lang::Ghci),
        _ => None,
    }
}

// The file that an option names that has it in the next word.
#[tactic(auto, unfolding(crate::specs::Words::boot_apart))]
fn boot_apart<'w>(name: &str, word: &'w str) -> Option<&'w str>
    ensures { option_copied result ≡ boot_apart name.now word.now }
{
    if name != "--boot" {
        return None;
    }
    boot_named(word)
}

// The file that an option names that has it behind '='.
#[tactic(auto, unfolding(crate::specs::Words::boot_joined))]
fn boot_joined(word: &str) -> Option<&str>
    ensures { option_copied result ≡ boot_joined word.now }
{
    let file = word.strip_prefix("--boot=")?;
    boot_named(file)
}

// The file that a word names.
fn boot_named(word: &str) -> Option<&str>
    ensures { option_copied result ≡ boot_named word.now }
{
    if is_plain(word) { Some(word) } else { None }
}
