//! What the program does with the text of a batch: a node that threads run serves its items, and what came of them is written.
#![tactic(auto)]

mod lines;
mod serve;

pub use serve::serve_text;
