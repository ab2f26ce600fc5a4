//! A file for the ordered lock, and one for a publisher of snapshots.

mod lock;
mod snapshots;
