//! Catch-up: how a node that joins a cluster, or was away, is brought up to date by another one. The joiner says what it has, the donor
//! writes what it lacks (Galera documentation: items, or a state snapshot where its log does not reach back so far), and the joiner takes
//! that, judging each item again. A transfer goes over any reader and writer, and takes no more memory for many items than for few.
#![tactic(auto)]

mod donor;
mod joiner;
mod joining;
mod laws;
mod snapshot;

pub use donor::{donate, donation_refusal};
pub use joiner::have;
pub use joining::join;
pub use laws::{donated_parts_come_next, joiners_hold_the_order};
pub use rep_replica::{Replica, format_disk};
