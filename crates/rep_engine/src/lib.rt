//! The engine of a node on a disk: what was accepted goes into the log, becomes durable, and is read; and a
//! checkpoint raises the base that the log goes on behind.
#![tactic(auto)]

mod accept;
mod check;
mod donor;
mod engine;
mod flush;
mod install;
mod laws;
mod read;
mod write;

pub use engine::Engine;
pub use install::Installation;
pub use laws::{
    accepted_items_are_a_front, certifiers_hold_windows, running_engines_leave_their_ends,
    the_tail_is_told,
};
pub use rep_checkpoint::{
    Checkpoint, Step, images_mean_one_thing, images_mean_what_stands, nodes_leave_their_fronts,
    the_base_is_found,
};
pub use rep_pool::{Pool, pools_go_on};
