//! What the lines of a text have to do with the items of an order.

ghost use Rattle.rep_requests.specs.Laws.{NumbersAreItems};

/// A line that begins with a digit is an item or ends the node, and no other line is an item of an order that others write to; and nothing is
/// lost of a line that is cut behind its first 8,192 bytes.
pub fn numbers_are_items()
    ensures { NumbersAreItems }
{}
