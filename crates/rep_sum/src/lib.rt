//! Sums: by a few digits of each, nodes are compared. Nodes of one order have one sum at one position.
#![tactic(auto)]

mod laws;
mod sum;
mod summing;

pub use laws::sums_tell_states;
pub use sum::{Sum, sum_at};
