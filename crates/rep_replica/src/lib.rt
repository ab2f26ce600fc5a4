//! A replica: one node of the database on a disk, in one thread, as a state that events move.
#![tactic(auto)]

mod commit;
mod donor;
mod install;
mod laws;
mod open;
mod replica;
mod run;
mod settle;
mod step;

pub use install::Installation;
pub use laws::{
    asks_are_given_up, certifiers_judge_as_nodes, lives_follow_the_order,
    lives_with_snapshots_follow_the_order, reads_forget_nothing, running_replicas_leave_their_ends,
    runs_are_joined, stopped_replicas_hold,
};
pub use rep_recover::{format_disk, the_tail_is_told};
pub use replica::Replica;
