//! The lines of a text without end: handed out one by one as soon as their line feed came, in a fixed room.
#![tactic(auto)]

mod feed;
mod laws;

pub use feed::{Feed, MAX_KEPT};
pub use laws::{lines_are_handed_out, long_lines_are_clipped};
