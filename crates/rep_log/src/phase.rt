//! How far the next block is, and what is due for it.

/// How far the log's next block is.
#[derive(Clone, Copy, Debug, PartialEq, Eq)]
pub enum Phase {
    /// Nothing of it was written.
    Resting,
    /// The closed gate was written over the cell's earlier block.
    Closing,
    /// The body was written: so many records.
    Filling(u16),
    /// The body is stable.
    Filled(u16),
    /// The open gate was written.
    Opening(u16),
}

/// What the log's next block needs.
#[derive(Clone, Copy, Debug, PartialEq, Eq)]
pub enum Step {
    /// The cell's earlier block has to be closed.
    Recycle,
    /// The body has to be written.
    Seal,
    /// The gate has to be opened.
    Gate,
    /// A write awaits a sync.
    Sync,
    /// The cell is live: its block is still needed.
    Full,
}
