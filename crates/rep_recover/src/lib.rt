//! Formatting and opening a device: what a node stands on before its first event.
#![tactic(auto)]

mod disk;
mod format;
mod judge;
mod laws;
mod logs;
mod open;
mod pages;
mod supers;
mod windows;

pub use disk::open_disk;
pub use format::format_disk;
pub use laws::reasons_exclude_meanings;
pub use open::{Opened, read_disk};
pub use rep_engine::{
    Engine, Installation, Step, accepted_items_are_a_front, certifiers_hold_windows,
    images_mean_one_thing, running_engines_leave_their_ends, the_tail_is_told,
};
