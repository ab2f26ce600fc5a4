//! A certifier: it judges each item of the delivered order from the window alone.
#![tactic(auto)]

mod certifier;
mod entries;
mod laws;
mod reaches;
mod ring;
mod writers;

pub use certifier::Certifier;
pub use laws::{
    follows_from_the_start, follows_on, gives_its_window, judges_as_the_order, limits_are_these,
};
pub use reaches::KEPT_REACHES;
pub use ring::KEPT_ENTRIES;
