//! What stands at the stations of a node that threads run: how one history of judged items goes on at each of them, the certifier that
//! judges it, and the engine that takes it from the backlog.
#![tactic(auto)]

mod judge;
mod laws;
mod take;

pub use judge::judge_next;
pub use laws::{
    histories_extend_the_order, histories_go_on, histories_lie_between_replicas, taken_items_stay,
};
pub use take::take_next;
