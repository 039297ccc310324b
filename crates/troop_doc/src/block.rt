//! The block round a place of a text.
ghost use Rattle.std.specs.Prelude.{◌≡◌, ◌≤◌, [], ◌∷◌, IfSome, length, take, drop, slice_range, option_map};
ghost use Rattle.troop_doc.specs.Blocks.{block_round, is_blank};
ghost use Rattle.troop_doc.specs.BlockEnds.{IsLineStart, IsLineEnd, LacksLineFeeds, last_lines, first_lines};

use gap_text::GapText;

// What ends a line.
pub(crate) const LINE_FEED: char = '\n';
// What a blank line may have.
pub(crate) const SPACE: char = ' ';

pub(crate) const TAB: char = '\t';

pub(crate) const CARRIAGE_RETURN: char = '\r';

// From which place to which the block reaches, if the place's line isn't blank.
pub(crate) fn block_round(text: &GapText, place: usize) -> Option<(usize, usize)>
    requires { place ≤ length text.now.chars }
    ensures within { IfSome result (λ block. (block.0 ≤ block.1) × (block.1 ≤ length text.now.chars)) }
    ensures value { option_map (λ block. slice_range text.now.chars block.0 block.1) result ≡ block_round text.now.chars place }
{
    let start = line_start(text, place);
    let end = line_end(text, place);
    if is_blank(text, start, end) {
        return None;
    }
    let start = block_start(text, start);
    let end = block_end(text, end);
    Some((start, end))
}

// The start of the line that the place lies on.
fn line_start(text: &GapText, place: usize) -> usize
    requires { place ≤ length text.now.chars }
    ensures within { result ≤ place }
    ensures start { IsLineStart text.now.chars result }
    ensures same_line { LacksLineFeeds text.now.chars result place }
{
    let mut start = place;
    while start > 0 && text.at(start - 1) != LINE_FEED {
        start -= 1;
    }
    start
}

// The end of the line that the place lies on.
fn line_end(text: &GapText, place: usize) -> usize
    requires { place ≤ length text.now.chars }
    ensures within { result ≤ length text.now.chars }
    ensures end { IsLineEnd text.now.chars result }
    ensures behind { place ≤ result }
    ensures same_line { LacksLineFeeds text.now.chars place result }
{
    let mut end = place;
    while end < text.len() as usize && text.at(end) != LINE_FEED {
        end += 1;
    }
    end
}

// The start of the first of the lines above this start of a line, up to a blank one.
fn block_start(text: &GapText, line: usize) -> usize
    requires within { line ≤ length text.now.chars }
    requires start { IsLineStart text.now.chars line }
    ensures within { result ≤ line }
    ensures lines { slice_range text.now.chars result line ≡ last_lines (take line text.now.chars) }
{
    let mut start = line;
    while start > 0 {
        let above = line_start(text, start - 1);
        if is_blank(text, above, start - 1) {
            return start;
        }
        start = above;
    }
    start
}

// The end of the last of the lines below this end of a line, up to a blank one.
fn block_end(text: &GapText, line: usize) -> usize
    requires within { line ≤ length text.now.chars }
    requires end { IsLineEnd text.now.chars line }
    ensures within { result ≤ length text.now.chars }
    ensures behind { line ≤ result }
    ensures lines { slice_range text.now.chars line result ≡ first_lines (drop line text.now.chars) }
{
    let mut end = line;
    while end < text.len() as usize {
        let below = line_end(text, end + 1);
        if is_blank(text, end + 1, below) {
            return end;
        }
        end = below;
    }
    end
}

// Whether each character from the one place to the other is a space, a tab or a carriage return.
fn is_blank(text: &GapText, start: usize, end: usize) -> bool
    requires order { start ≤ end }
    requires within { end ≤ length text.now.chars }
    ensures { result ≡ is_blank (slice_range text.now.chars start end) }
{
    for place in start..end {
        if !is_blank_char(text.at(place)) {
            return false;
        }
    }
    true
}

// Whether the character is a space, a tab or a carriage return.
fn is_blank_char(c: char) -> bool
    ensures { result ≡ is_blank (c ∷ []) }
{
    c == SPACE || c == TAB || c == CARRIAGE_RETURN
}
