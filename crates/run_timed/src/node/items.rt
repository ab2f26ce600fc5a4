//! The items of the batch, and what a reader may find of them.

ghost use Rattle.std.specs.Prelude.{◌<◌};

use rep_snap::Peek;
use rep_types::{Item, Key, Params, Refusal, Value, Write, WriteSet};
use std::alloc::Global;

/// How many rows there are. An item writes one of them.
const ROWS: u32 = 6_300;

/// How many of the numbers before its own an item has not seen.
const UNSEEN: u64 = 100;

/// A window of 256 seqnos, a log of 1,024 cells, and one table.
pub(crate) fn params() -> Result<Params, Refusal> {
    Params::new(256, 1_024, &[ROWS])
}

/// The row that the item of this number writes.
pub(crate) fn row_of(number: u64) -> Key {
    Key {
        table: 0,
        row: (number % u64::from(ROWS)) as u32,
    }
}

/// The item of this number, from 1, which writes its number.
fn item(number: u64) -> Result<Item, Refusal> {
    let write = Write {
        key: row_of(number),
        value: Some(Value::new(&number.to_be_bytes())?),
    };
    let seen = number.saturating_sub(UNSEEN);
    Ok(Item::WriteSet(WriteSet::new(1, number, seen, &[], &[write])?))
}

/// The number of the item at a place of a batch of which each worker hands in so many, one behind the other: the seqno that it gets where
/// the workers take turns.
fn number_at(place: usize, each: usize, workers: usize) -> u64
    requires { 0 < each }
{
    let worker = place / each;
    let turn = place % each;
    turn.saturating_mul(workers)
        .saturating_add(worker)
        .saturating_add(1) as u64
}

/// A batch of so many items, for so many workers.
pub(crate) fn batch(alloc: Global, count: usize, workers: usize) -> Result<Vec<Item>, Refusal>
    requires { 0 < workers }
{
    let each = count.div_ceil(workers).max(1);
    let mut items = Vec::new(alloc);
    for place in 0..count {
        items.push(item(number_at(place, each, workers))?)?;
    }
    Ok(items)
}

/// Whether an item that writes this row may have written the value.
fn is_of(key: Key, value: &Value) -> bool {
    match value.as_bytes() {
        [a, b, c, d, e, f, g, h] => {
            row_of(u64::from_be_bytes([*a, *b, *c, *d, *e, *f, *g, *h])) == key
        }
        _ => false,
    }
}

/// Whether a reader may be answered so that looks up the row in the state of a front that it found, beside the batch: no item deletes a row.
pub(crate) fn is_right(key: Key, answer: &Result<Peek, Refusal>) -> bool {
    match answer {
        Ok(Peek::Value(value)) => is_of(key, value),
        Ok(Peek::Cold) | Err(Refusal::TooOld { .. }) => true,
        _ => false,
    }
}
