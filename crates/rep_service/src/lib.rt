//! The service of a node that follows an order: its first line, the items that are durable already, and then the items as they come and the
//! commands between them, each answered by a line at what is durable.
#![tactic(auto)]

mod commands;
mod counters;
mod donating;
mod durable;
mod exchange;
mod first;
mod input;
mod line;
mod opening;
mod past;
mod rows;
mod same;
mod service;
mod syncs;

pub use exchange::Exchange;
pub use rep_replica::Replica;
pub use rep_script::{
    donate, donated_text, donation_refusal, format_text, join_text, read_saved, run_on_disk,
    state_text, sum_text, write_have,
};
pub use service::{follow_on_disk, followers_are_fed};
pub use syncs::CountsSyncs;
