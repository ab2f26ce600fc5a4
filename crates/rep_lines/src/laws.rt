//! What lines have to do with the text that they are handed out of.

ghost use Rattle.rep_lines.specs.Laws.{LinesAreHandedOut, LongLinesAreClipped};

/// The lines of a text are handed out from its front; what stands behind the last line feed is none.
pub fn lines_are_handed_out()
    ensures { LinesAreHandedOut }
{}

/// A clipped text has the lines of the text, each cut behind its first 8,192 bytes.
pub fn long_lines_are_clipped()
    ensures { LongLinesAreClipped }
{}
