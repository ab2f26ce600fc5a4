//! The steps of a replica: what may happen to it, what it answers, and what it stands for. Each contract of a
//! replica is said in these words, whatever its body is.
#![tactic(auto)]

mod answer;
mod client;
mod event;
mod laws;

pub use answer::{Answer, Replies};
pub use client::{Core, run};
pub use event::Event;
pub use laws::{
    fed_the_rest, fronts_stand_for_the_order, judged_items_extend_the_order, judging_goes_on,
    nodes_hold_the_order, nodes_outlast_failures, nodes_stay_nodes, openings_open_the_order,
    parts_step_as_the_whole, runs_answer_the_order, runs_are_joined, runs_come_to, steps_are_moves,
    steps_follow_the_order, verdicts_have_a_place,
};
pub use rep_log::{the_log_in_every_image, the_log_is_told};
