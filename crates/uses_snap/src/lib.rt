//! A publisher and readers that look beside it, proved from their contracts alone.
#![tactic(auto)]

mod beside;
mod counted;
mod folded;
mod planned;
mod steady;

pub use beside::{Count, watched_beside};
pub use counted::{Numbers, number_at, publish_next};
pub use folded::row_at;
pub use planned::{Plan, planned_row_at};
pub use steady::{Free, Steady};
