//! The pool of pages: the pages of a device that were read last, so that it need not be asked for them again, and its bytes not be
//! read as a page again. What the pool gives is what the page's slot has.
#![tactic(auto)]

mod laws;
mod pool;

pub use laws::{pages_are_places, pools_go_on};
pub use pool::{Kept, POOL_PAGES, Pool, pool_pages_are_64};
