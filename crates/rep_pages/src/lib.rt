//! The pages of a checkpoint: their bytes, in which slot they stand, and what they are at a later
//! position.
#![tactic(auto)]

mod image;
mod laws;
mod page;
mod page_rows;
mod slots;
mod spelled_page;

pub use laws::{images_follow_the_order, pages_are_told, unchanged_pages_stay};
pub use page::Page;
pub use page_rows::PageRows;
pub use slots::{slot_of, spare_of};
pub use spelled_page::{SpelledPage, row_of_bytes};
