//! Judged items on their way from delivery to the log.
#![tactic(auto)]

mod backlog;

pub use backlog::Backlog;
