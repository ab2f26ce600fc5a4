//! The plain node: its verdicts and its rows.

use rep_plain::PlainNode;
use rep_types::{Key, Params, Refusal, Value, Verdict, Write, WriteSet};
use std::alloc::Global;
use std::process::Abort;
use std::test::Fail;

/// A write set that saw `last_seen` and puts one byte under `0/row`.
fn put(last_seen: u64, row: u32, byte: u8) -> Result<WriteSet, Refusal> {
    let write = Write {
        key: Key { table: 0, row },
        value: Some(Value::new(&[byte])?),
    };
    WriteSet::new(0, 0, last_seen, &[], &[write])
}

/// Items, by what they saw, their row and their byte, and their verdicts.
const ITEMS: &[(u64, u32, u8, Verdict)] = &[
    (0, 1, b'a', Verdict::Commit),
    (0, 1, b'b', Verdict::Conflict(1)),
    (1, 1, b'c', Verdict::Commit),
    (3, 2, b'd', Verdict::Commit),
];

/// Hands the node such a write set.
fn delivered(node: &mut PlainNode, last_seen: u64, row: u32, byte: u8) -> Result<Verdict, Refusal> {
    node.deliver(put(last_seen, row, byte)?)
}

/// Hands the node the items, and compares their verdicts.
fn judges(rt: &impl Abort, node: &mut PlainNode) {
    for (last_seen, row, byte, verdict) in ITEMS {
        let found = delivered(node, *last_seen, *row, *byte);
        assert_eq!(rt; (*row, *byte, found), (*row, *byte, Ok(*verdict)));
    }
}

/// Whether the row holds this byte alone after the first `s` items, or nothing where there is none.
fn holds(node: &PlainNode, row: u32, s: u64, wanted: Option<u8>) -> bool {
    if s > node.position() {
        return false;
    }
    match (node.get(Key { table: 0, row }, s), wanted) {
        (Some(value), Some(byte)) => value.as_bytes() == [byte].as_slice(),
        (None, None) => true,
        _ => false,
    }
}

/// What a row holds after so many items.
const ROWS: &[(u32, u64, Option<u8>)] = &[
    (1, 0, None),
    (1, 1, Some(b'a')),
    (1, 2, Some(b'a')),
    (1, 3, Some(b'c')),
    (2, 3, None),
    (2, 4, Some(b'd')),
];

/// Compares what the rows hold.
fn has_rows(rt: &impl Abort, node: &PlainNode) {
    for row in ROWS {
        let (row, s, value) = *row;
        assert_eq!(rt; (row, s, holds(node, row, s, value)), (row, s, true));
    }
}

/// A plain node with a window of two seqnos.
fn new_node(alloc: Global) -> Result<PlainNode, Refusal> {
    Ok(PlainNode::new(alloc, Params::new(2, 4, &[126])?))
}

#[test]
fn the_plain_node_keeps_rows(rt: HostRuntime) -> Result<(), Fail> {
    let mut node = new_node(rt.alloc())?;
    judges(&rt, &mut node);
    has_rows(&rt, &node);
    Ok(())
}
