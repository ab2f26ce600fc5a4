//! What the committed items behind a checkpoint's base wrote, so that a read finds the newest value at
//! most at its snapshot.
#![tactic(auto)]

mod laws;
mod row;
mod versions;

pub use laws::{add_is_taken_back, versions_follow_the_items};
pub use versions::{At, VersionKey, Versions};
