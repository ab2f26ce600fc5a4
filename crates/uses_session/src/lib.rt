//! Transactions that went through a session, proved from the contracts of sessions and orders alone.
#![tactic(auto)]

mod laws;
mod moving;
mod swapping;

pub use laws::sessions_run_alone;
pub use moving::move_row;
pub use swapping::swap_rows;
