//! Where everything lies on the device, and the bytes of its superblocks and windows.
#![tactic(auto)]

mod format;
mod laws;
mod page_state;
mod place;
mod rows;
mod super_body;
mod window_body;
mod window_reader;

pub use format::Format;
pub use laws::windows_go_on;
pub use page_state::PageState;
pub use place::{
    GATE, LOG, LOG_BODY, Layout, PAGE_BODY, Place, SUPER_BODY, Side, Slot, WINDOW_BODY, WINDOWS,
    need, places_fill_the_device, sizes_are_these, turns_are_taken,
};
pub use rep_types::Refusal;
pub use rows::{RowPlace, page_of, row_at, row_places_are_told};
pub use super_body::{SuperBody, superblocks_are_told};
pub use window_body::WindowBody;
pub use window_reader::{WindowReader, windows_are_told};
