//! How a transaction ends.

use rep_types::WriteSet;

/// How a transaction ended.
#[derive(Debug, Drop, PartialEq, Eq)]
pub enum Finished {
    /// It wrote nothing, so there is nothing to deliver: it has read the rows of one position.
    ReadOnly,
    /// What is to be delivered to every node.
    WriteSet(WriteSet),
}
