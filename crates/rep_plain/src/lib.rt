//! A node at its plainest: it keeps the whole order and compares all pairs.
#![tactic(auto)]

mod node;
mod scan;

pub use node::PlainNode;
