//! Laws of texts and of blocks, each as the contract of a function that does nothing.

ghost use Rattle.rep_record.specs.Laws.{ReadingIsTheGrammar};
ghost use Rattle.rep_record.specs.Fronts.{FrontsAreDetermined, StaysInOrder};
ghost use Rattle.rep_record.specs.Lines.{raw_lines, AreLines};

/// What is read of a line is what the grammar says that the line says, and no line says two things.
pub fn reading_is_the_grammar()
    ensures { ReadingIsTheGrammar }
{}

/// The lines of a text make the text: joined they are the text, each has one byte or more and a
/// line feed at most at its end, and each but the last has one there.
pub fn lines_make_the_text(text: &[u8])
    ensures { AreLines text.now (raw_lines text.now) }
{}

/// What a block takes of some items is the longest front that it has room for, and there is one such
/// front. An empty block takes any item that has a spelling, and no block takes more than 64.
pub fn fronts_are_determined()
    ensures { FrontsAreDetermined }
{}

/// Items whose seqnos follow one another stay so where the next one comes behind them, and where a
/// front is taken from them.
pub fn stays_in_order()
    ensures { StaysInOrder }
{}
