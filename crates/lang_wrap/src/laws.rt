//! Laws of wraps, each the contract of a function that does nothing.
ghost use Rattle.std.specs.Prelude.{◌≡◌, ◌++◌, ℕ, List, false, Some, length};
ghost use Rattle.troop_entry.specs.declared.call.Lang.{Lang};
ghost use Rattle.troop_entry.specs.declared.call.Lang.TheVariants.{Lines, Ghci};
ghost use Rattle.lang_wrap.specs.Wraps.{wrap, has_brace_line};
ghost use Rattle.lang_wrap.specs.Commands.{IsCommand, IsOneLine, lines_in, command_end};

/// A GHCi text no line of which opens or closes, and a text of one plain line, is wrapped to a command; and whatever stands
/// behind a wrap that is a command, the first command is the wrap.
pub fn wrap_law()
    ensures ghci { (text : List ℕ) → has_brace_line text ≡ false → IsCommand Ghci (wrap Ghci text) }
    ensures line { (text : List ℕ) → IsOneLine text → IsCommand Lines (wrap Lines text) }
    ensures first { (lang : Lang) (text rest : List ℕ) → IsCommand lang (wrap lang text)
        → command_end lang (lines_in (wrap lang text ++ rest)) ≡ Some (length (wrap lang text)) }
{}
