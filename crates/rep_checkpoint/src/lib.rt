//! The checkpoint of a node on a disk: a base that a superblock names, and how the next one takes its place, so
//! that a stop at any moment leaves one of them whole.
#![tactic(auto)]

mod checkpoint;
mod flush;
mod going;
mod install;
mod laws;
mod stage;

pub use checkpoint::Checkpoint;
pub use install::Installation;
pub use laws::{
    installations_can_be_dropped, installations_leave_the_old_or_the_new,
    installations_make_the_node, installations_settle, installations_stand_beside,
    nodes_leave_their_ends, nodes_leave_their_fronts, nodes_settle, stable_bases_are_read,
    the_base_in_every_image, the_base_is_found, the_base_stands_still, the_bytes_tell_the_page,
    the_checkpoint_is_apart, the_log_is_apart, the_old_base_or_the_snapshot,
    the_stage_is_the_facts, versions_lead_to_the_state,
};
pub use rep_image::{images_mean_one_thing, images_mean_what_stands, the_synced_log_is_the_facts};
pub use stage::{NextBase, Part, Stage, Step};
