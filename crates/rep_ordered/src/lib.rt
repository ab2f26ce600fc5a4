//! A lock of several stations, each with a value, that threads pass in the order of their tickets:
//! [`OrderedLock`] says how.
#![tactic(auto)]

mod ends;
mod front;
mod laws;
mod lock;
mod numbers;
mod plays;
mod room;
mod rule;
mod seat;
mod turns;
mod view;
mod waiting;

pub use ends::Refused;
pub use front::Front;
pub use laws::{numbers_pass, views_go_on};
pub use lock::OrderedLock;
pub use rule::{Keeps, Opening};
pub use seat::Seat;
pub use view::{GivenUp, Hold, Joined, Reached, View};
pub use waiting::{announced, pass};
