//! A node that follows an order: what was delivered becomes durable block by block, and the receipts of each block are written before the
//! next one begins. What it does is counted, and checkpoints begin by themselves.
#![tactic(auto)]

mod blocks;
mod counts;
mod feeding;
mod finishing;
mod following;
mod laws;
mod receipts;
mod taking;

pub use blocks::{begin_if_due, commit, pages_due};
pub use counts::Counts;
pub use feeding::take_lines;
pub use finishing::finish;
pub use following::{End, follow_items};
pub use laws::{followers_follow_the_order, going_is_joined, parts_are_joined};
pub use receipts::write_receipts;
pub use taking::{deliver, take};
