//! Clients of the gated cells and of the log in them, proved from their contracts alone.
#![tactic(auto)]

mod cells;
mod log;

pub use cells::{clear, publish, replace, take_up};
pub use log::{append, find, settle, what_a_stop_leaves_is_found};
