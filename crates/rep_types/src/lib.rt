//! The values of a replicated database: keys, write sets, a node's parameters, verdicts and
//! refusals, with the definitions of an order and of the verdicts in it.
#![tactic(auto)]

mod boxed;
mod entry;
mod gtid;
mod item;
mod judged;
mod key;
mod laws;
mod limits;
mod number;
mod params;
mod reach;
mod refusal;
mod reply;
mod value;
mod verdict;
mod window;
mod write_set;

pub use boxed::Boxed;
pub use entry::Entry;
pub use gtid::{Gtid, gtids_read_back, read_seqno, read_uuid};
pub use item::{Item, SetWindow};
pub use judged::Judged;
pub use key::Key;
pub use laws::{
    equal_items_commit_once, floor_by_items, history_by_items, reach_by_items, reads_are_serial,
    reads_by_items, rows_by_items, size_by_items, state_by_parts, state_is_enough,
    verdicts_are_determined, window_by_items,
};
pub use limits::{
    MAX_AHEAD, MAX_CELLS, MAX_PAGES, MAX_READS, MAX_SEQNO, MAX_TABLES, MAX_VALUE, MAX_WINDOW,
    MAX_WRITES, MIN_CELLS, ROWS_PER_PAGE, limits_are_these,
};
pub use number::read_number;
pub use params::{Params, Schema};
pub use reach::Reach;
pub use refusal::{Part, Refusal};
pub use reply::Reply;
pub use value::{Value, Write};
pub use verdict::Verdict;
pub use window::{Window, WindowSize};
pub use write_set::WriteSet;
