//! The saved state: the text by which operators and tools know the position of a node.
#![tactic(auto)]

mod line;
mod saved;

pub use saved::{SavedState, saved_states_read_back};
