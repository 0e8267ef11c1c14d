//! What the definition of a text's lines amounts to.

ghost use Rattle.devices.specs.Lines.{JoinedAreReadBack, LinesHaveNoNewline, LinesLoseNothing};

/// Does nothing. Its contract says of the lines of a text that no line has a newline in it, that
/// whole lines joined by newlines are read back, and that a text's lines, joined, are the text.
pub fn lines_are_cut_at_newlines()
    ensures whole { LinesHaveNoNewline }
    ensures back { JoinedAreReadBack }
    ensures all { LinesLoseNothing }
{}
