//! Sessions: what an application runs a transaction with. A session reads rows at one position, keeps
//! what is written to itself, and ends with a write set, or with none where it only read.
#![tactic(auto)]

mod finished;
mod laws;
mod places;
mod rows;
mod session;

pub use finished::Finished;
pub use laws::{sessions_are_serial, sessions_come_to};
pub use rows::Rows;
pub use session::Session;
