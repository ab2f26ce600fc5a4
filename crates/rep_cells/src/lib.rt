//! Gated cells on one device: what each reads as, whatever a stop may leave.
#![tactic(auto)]

mod cells;
mod fault;
mod laws;

pub use cells::Cells;
pub use fault::refusal_of;
pub use laws::{
    filled_bodies_stand, found_states_stand, images_read_as_allowed, moments_read_as_allowed,
    places_read_as_shown, states_move, syncs_narrow,
};
