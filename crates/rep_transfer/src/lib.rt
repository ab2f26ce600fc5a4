//! Transfers: how a node that joins a cluster is brought up to date by another one, as bytes that any stream may carry. They are
//! written part by part and read piece by piece, in a room of one piece, and nothing behind their end is read. The Galera
//! documentation has the two kinds, a state snapshot and what is missing behind a position; the bytes are this project's own.
#![tactic(auto)]

mod have;
mod header;
mod laws;
mod part;
mod pieces;
mod reader;
mod shape;
mod writer;

pub use have::{Have, read_have};
pub use header::Header;
pub use laws::{parts_are_told, transfers_are_told};
pub use part::{Part, next_part};
pub use pieces::{NumberedPage, PIECE, Piece};
pub use reader::TransferReader;
pub use shape::Shape;
pub use writer::{
    write_count, write_end, write_entry, write_front, write_header, write_page, write_record,
};
