//! The node that threads run: items are judged at one station, made durable at another, and wait between the two.
//! [`Node`] says how.
#![tactic(auto)]

mod batch;
mod changes;
mod checking;
mod desk;
mod ends;
mod home;
mod keeping;
mod node;
mod origin;
mod pace;
mod parts;
mod publishing;
mod reading;
mod rows;
mod seat;
mod served;
mod submitting;
mod waiting;

pub use batch::{Batch, Receipt};
pub use checking::Checked;
pub use home::{Desk, Home, Queue};
pub use keeping::Kept;
pub use node::Node;
pub use origin::Origin;
pub use pace::{Pace, Point};
pub use reading::NodeReader;
pub use rows::NodeRows;
pub use seat::Seat;
pub use served::serve_batch;
pub use waiting::Waiting;
