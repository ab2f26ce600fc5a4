//! What the origin of an item is told.

use crate::verdict::Verdict;

/// What the origin of a delivered item is told once the item is durable.
#[derive(Clone, Copy, Debug, Default, PartialEq, Eq)]
pub struct Reply {
    /// Its place in the order, from 1.
    pub seqno: u64,
    /// What certification said of it.
    pub verdict: Verdict,
    /// The label of the node or client that the item came from.
    pub source: u64,
    /// The label of the item at its source.
    pub trx: u64,
}
