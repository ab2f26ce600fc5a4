//! What the lines of a text ask of a node that follows an order.
//!
//! Into such an order anybody may write. So a line that begins with a digit is an item, whatever text stands behind its seqno, or it ends the
//! node; and a command begins with a letter.
#![tactic(auto)]

mod laws;
mod position;
mod request;
mod texts;

pub use laws::numbers_are_items;
pub use position::read_order;
pub use request::{MAX_KEYS, Request, read_request, renew_numbered};
pub use texts::is_unreadable;
