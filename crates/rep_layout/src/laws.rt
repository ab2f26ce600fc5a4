//! Laws of windows, each as the contract of a function that does nothing.

ghost use Rattle.rep_layout.specs.GoingOn.{WindowsGoOn};

/// Windows that a disk can hold go on with the order, whichever kind the next item is of. Such a window has no more entries than its size,
/// of strictly ascending seqnos from its floor on, each with 1 to 16 strictly ascending keys that are rows of the schema. The empty one of
/// the parameters' size is one; and so is the window after one more item that keeps its limits. Format 2 tells each such window, beside a
/// number and a position below 2^64; format 1 each whose size was the parameters' from the first item on.
pub fn windows_go_on()
    ensures { WindowsGoOn }
{}
