//! Laws of the definitions, each as the contract of a function that does nothing: a law holds by
//! its proof, and calling the function brings it to the caller.

ghost use Rattle.rep_types.specs.Verdicts.{VerdictsAreDetermined, StateIsEnough, ReadsAreSerial, EqualItemsCommitOnce};
ghost use Rattle.rep_types.specs.ByItems.{HistoryByItems, WindowByItems, RowsByItems, ReadsByItems, StateByParts, SizeByItems, FloorByItems, ReachByItems};

/// The verdicts of an order are the one assignment in which each item has the verdict that its
/// definition by pairs says: a conflict names the greatest committed item that meets it.
pub fn verdicts_are_determined()
    ensures { VerdictsAreDetermined }
{}

/// Judging an item from the state before it is judging it in the whole order, and the state after
/// it is that of the longer order. So a node needs no more than its window to certify.
pub fn state_is_enough()
    ensures { StateIsEnough }
{}

/// A committed item read what it would have read at its own place in the order, so the committed
/// transactions are serializable in the order of their seqnos.
pub fn reads_are_serial()
    ensures { ReadsAreSerial }
{}

/// Of write sets that saw, read and wrote the same, whatever their labels, at most one commits: one behind
/// another that committed is stale, or in conflict with that one or with a later one. So who does not know
/// whether an item came into the order may send it again.
pub fn equal_items_commit_once()
    ensures { EqualItemsCommitOnce }
{}

/// The item that `n` items stand before has the seqno `n + 1`, and the history has as many items as
/// the order, each at its place, with its seqno and its verdict; that of a front of the order is a
/// front of it, and one more item stands behind it.
pub fn history_by_items()
    ensures { HistoryByItems }
{}

/// An entry is in the window exactly where its item is a write set that committed and wrote its keys,
/// and its seqno is the floor or above; the window ascends by seqno, and has the size and the floor of
/// the order. Where no item changes the size, it is the fixed window of the parameters' size.
pub fn window_by_items()
    ensures { WindowByItems }
{}

/// A key that no committed item writes has no row; else the row is the value of the last write of the
/// key by the last committed item that writes it, and there is none where that is a delete.
pub fn rows_by_items()
    ensures { RowsByItems }
{}

/// A read at a position is of the rows after so many items, and more items do not change it.
pub fn reads_by_items()
    ensures { ReadsByItems }
{}

/// A state is how many items came, the rows after them, and the window.
pub fn state_by_parts()
    ensures { StateByParts }
{}

/// The size of the window after some items is the one that the last change of it set, or that of the
/// parameters where none of them changes it.
pub fn size_by_items()
    ensures { SizeByItems }
{}

/// The floor is 1 at first and never falls: it is the least number from 1 on that is at no position
/// below what the size at that position spans. Where no item changes the size, it is what that size
/// spans at the position itself.
pub fn floor_by_items()
    ensures { FloorByItems }
{}

/// How far back the window reaches after one more item is told by how far it reached before, and by
/// the item.
pub fn reach_by_items()
    ensures { ReachByItems }
{}
