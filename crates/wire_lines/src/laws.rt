//! Laws of lines, each the contract of a function that does nothing.
ghost use Rattle.wire_lines.specs.Reader.{ForEveryCutting};
ghost use Rattle.wire_lines.specs.Lines.{LinesArePieces, WholeLinesArePieces};

/// The lines of bytes are the pieces between line feeds, and what stands behind the last one where that isn't empty.
pub fn lines_law()
    ensures lines { LinesArePieces }
    ensures whole { WholeLinesArePieces }
{}

/// However a source cuts its bytes, a reader answers by the first line of what is held and remaining.
pub fn cutting_law()
    ensures { ForEveryCutting }
{}
