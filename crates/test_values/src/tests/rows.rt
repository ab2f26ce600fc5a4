//! Writes of rows, and the versions that items of them make: what more than one test is made of.

use rep_types::{Item, Key, Refusal, Value, Write, WriteSet};
use rep_versions::Versions;

/// A write that puts these bytes.
pub(crate) fn put(key: Key, bytes: &[u8]) -> Result<Write, Refusal> {
    Ok(Write {
        key,
        value: Some(Value::new(bytes)?),
    })
}

/// A write that deletes the row.
pub(crate) fn delete(key: Key) -> Write {
    Write { key, value: None }
}

/// Adds the versions of an item of these writes.
pub(crate) fn add(versions: &mut Versions, seqno: u64, writes: &[Write]) -> Result<(), Refusal> {
    versions.add(seqno, &Item::WriteSet(WriteSet::new(1, 1, 0, &[], writes)?))
}
