//! What a node takes in and gives out: order texts and verdict lines, and records and blocks of
//! them as bytes.
#![tactic(auto)]

mod block;
mod block_reader;
mod few;
mod item_line;
mod laws;
mod limits;
mod order_line;
mod params_line;
mod pieces;
mod published;
mod record;
mod replay;
mod replays;
mod room;
mod text_reader;
mod verdict_line;
mod words;

pub use block::BlockBuilder;
pub use block_reader::{BlockReader, blocks_are_told, read_block};
pub use item_line::read_item_line;
pub use laws::{
    fronts_are_determined, lines_make_the_text, reading_is_the_grammar, stays_in_order,
};
pub use limits::{BLOCK, MAX_BLOCK, MAX_RECORD, MAX_RECORDS, block_limits_are_these};
pub use order_line::{read_order_line, read_stated, renew_order_line, renew_stated};
pub use params_line::read_params_line;
pub use pieces::{cut_at, read_key};
pub use published::{no_effect, published_item, renew_published};
pub use record::{is_placed, put_record, read_record, records_are_told};
pub use replay::replay_block;
pub use replays::Replays;
pub use room::Room;
pub use text_reader::{MAX_LINE, MAX_TEXT, TextReader};
pub use verdict_line::{push_decimal, write_verdict};
pub use words::{Words, is_blank};
