//! Laws of lines, and of what they ask for.
ghost use Rattle.script_form.specs.Lines.{PiecesJoinToTheBytes, NoPieceHasALineFeed};
ghost use Rattle.script_form.specs.Shapes.{LinesAreRead};

/// The pieces of a script, joined by line feeds, are its bytes, and none of them has a line feed.
pub fn pieces_law()
    ensures joined { PiecesJoinToTheBytes }
    ensures none { NoPieceHasALineFeed }
{}

/// A line asks for a request exactly where it has its shape: that of a command is its word and its arguments, as the
/// table of commands has them.
pub fn line_law()
    ensures { LinesAreRead }
{}
