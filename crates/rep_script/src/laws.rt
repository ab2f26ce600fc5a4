//! Laws of what an order text says, each as the contract of a function that does nothing.

ghost use Rattle.rep_script.specs.OrderText.{ReadingIsTheTextGrammar};

/// A text is read without a fault exactly where it is an order text by the grammar, and as what the
/// grammar says; and no text says two things.
pub fn reading_is_the_text_grammar()
    ensures { ReadingIsTheTextGrammar }
{}
