//! Forms of bytes: what every record, block, superblock, window and page is made of.
//!
//! A form says which values have a spelling, what it is, and what a reader takes from the front of
//! bytes. Three laws tie these together: what is read is spelled so; what is spelled so is read,
//! whatever follows; and so spellings are told apart.
#![tactic(auto)]

mod entry;
mod form;
mod key;
mod laws;
mod numbers;
mod row;
mod run;
mod write;

pub use entry::MAX_ENTRY;
pub use form::{Chain, Exact, Form, Put, read_front};
pub use laws::{runs_are_told, spellings_are_told};
pub use numbers::{
    are_blank, put_bytes, put_u8, put_u16, put_u32, put_u64, put_zeros, read_part, read_u8,
    read_u16, read_u32, read_u64, strip_front,
};
pub use row::{ROW, are_rows, push_rows, rows_have_one_size};
pub use run::{Run, follows, put_run, read_chain, read_run};
