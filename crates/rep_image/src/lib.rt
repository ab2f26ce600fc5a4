//! What an image of a device means: the base that its superblock names, and the items of its log behind that.
#![tactic(auto)]

mod laws;

pub use laws::{
    images_mean_one_thing, images_mean_what_stands, images_stand_for_orders,
    logs_end_in_their_node, the_synced_log_is_the_facts,
};
