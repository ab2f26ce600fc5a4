//! Readers that look up a row at a snapshot and never wait, beside one publisher: [`Publisher`] and
//! [`Reader`] say how.
#![tactic(auto)]

mod change;
mod copies;
mod door;
mod fixed;
mod history;
mod laws;
mod peek;
mod pending;
mod publisher;
mod reader;
mod rule;
mod several;
mod shelf;

pub use change::{Change, Pair};
pub use copies::{Glance, TwoCopies};
pub use door::Door;
pub use fixed::Fixed;
pub use history::{Law, Told};
pub use laws::{histories_grow, peeks_follow_the_fold, peeks_have_one_answer};
pub use peek::Peek;
pub use publisher::Publisher;
pub use reader::Reader;
pub use rule::{Admits, Again, Published};
pub use several::start;
pub use shelf::{Shelf, Sight, Step};
