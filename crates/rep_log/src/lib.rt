//! The log on the disk: a ring of gated cells, each with a block of records.
//!
//! Blocks lie in the cells in turn. One is written step by step, with a sync behind each: the gate of an
//! earlier block is closed where one stands open, the body is written, and its gate is opened. So a
//! stop at any moment leaves the durable blocks, or those with the one whose gate was opening.
#![tactic(auto)]

mod laws;
mod phase;
mod ring;
mod scan;

pub use laws::{open_blocks_are_shown, the_log_in_every_image, the_log_is_told};
pub use phase::{Phase, Step};
pub use rep_record::fronts_are_determined;
pub use ring::Log;
