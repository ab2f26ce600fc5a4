//! The items that each library is given.

use rep_types::{Key, Params, Refusal, Value, Write, WriteSet};

/// A window of 4, and one table of 126 rows.
pub(crate) fn params() -> Result<Params, Refusal> {
    Params::new(4, 4, &[126])
}

/// A write set that writes this row and had seen so many items.
pub(crate) fn item(row: u32, last_seen: u64) -> Result<WriteSet, Refusal> {
    let write = Write {
        key: Key { table: 0, row },
        value: Some(Value::new(b"1")?),
    };
    WriteSet::new(1, 1, last_seen, &[], &[write])
}

/// Rows that are written by write sets that had seen nothing: the third conflicts with the first.
pub(crate) const ROWS: &[u32] = &[1, 2, 1];
