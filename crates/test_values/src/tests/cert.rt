//! The certifier that is made of any entries.

use rep_cert::Certifier;
use rep_types::{Entry, Key, Params, Refusal, Verdict, Window, Write, WriteSet};
use std::alloc::Global;
use std::process::Abort;
use std::test::Fail;

/// An item that deletes the row 7, and saw so many items.
fn item(last_seen: u64) -> Result<WriteSet, Refusal> {
    let write = Write {
        key: Key { table: 0, row: 7 },
        value: None,
    };
    WriteSet::new(1, 1, last_seen, &[], &[write])
}

/// Entries of the item with these seqnos.
fn entries_of(alloc: Global, item: &WriteSet, seqnos: &[u64]) -> Result<Vec<Entry>, Refusal> {
    let mut entries = Vec::new(alloc);
    for seqno in seqnos {
        entries.push(Entry::new(*seqno, item.written()))?;
    }
    Ok(entries)
}

/// A certifier of these parameters at this position, with these entries.
fn certifier(
    alloc: Global,
    params: Params,
    position: u64,
    entries: Vec<Entry>,
) -> Result<Certifier, Refusal> {
    let window = Window::fixed(params.window_size(), position, entries);
    Certifier::new(alloc, params, position, window)
}

/// What the item is judged with.
fn judged(certifier: &Certifier, item: &WriteSet) -> Verdict {
    certifier.judge(item)
}

/// What the item is admitted with.
fn admitted(certifier: &mut Certifier, item: &WriteSet) -> Result<(u64, Verdict), Refusal> {
    certifier.admit(item)
}

/// Whether the entries have these seqnos, and each of them the row 7 alone.
fn are(entries: &[Entry], seqnos: &[u64]) -> bool {
    let mut right = entries.len() == seqnos.len();
    for (entry, seqno) in entries.iter().zip(seqnos) {
        let key = Key { table: 0, row: 7 };
        right = right && entry.seqno() == *seqno && entry.keys() == [key].as_slice();
    }
    right
}

/// Compares the position, and the window there.
fn stands(
    rt: &(impl Abort + AllocGlobal),
    certifier: &Certifier,
    position: u64,
    seqnos: &[u64],
) -> Result<(), Refusal> {
    let window = certifier.window_at(rt.alloc(), certifier.delivered())?;
    assert_eq!(rt;
        (certifier.delivered(), are(window.entries(), seqnos)),
        (position, true)
    );
    Ok(())
}

/// The greatest number.
const TOP: u64 = u64::MAX;

/// Entries near the top, in any order, one of them twice.
const GIVEN: &[u64] = &[TOP, TOP - 2, TOP - 5, TOP - 3, TOP - 3, 0, TOP - 4];

/// What is left of those entries.
const LEFT: &[u64] = &[TOP - 2, TOP - 3, TOP - 3, TOP - 4];

/// Compares what a certifier with such entries answers, and its window.
fn keeps_its_entries(
    rt: &(impl Abort + AllocGlobal),
    certifier: &mut Certifier,
    item: &WriteSet,
) -> Result<(), Refusal> {
    let found = (judged(certifier, item), admitted(certifier, item));
    assert_eq!(rt;
        found,
        (Verdict::Conflict(TOP - 2), Err(Refusal::Exhausted))
    );
    stands(rt, certifier, TOP - 1, LEFT)
}

// At the last positions of all, with a window of 4 seqnos: the entries above the position and
// below its window go, the others stay as they are.
#[test]
fn is_made_of_any_entries(rt: HostRuntime) -> Result<(), Fail> {
    let params = Params::new(4, 4, &[10])?;
    let item = item(TOP - 5)?;
    let entries = entries_of(rt.alloc(), &item, GIVEN)?;
    let mut certifier = certifier(rt.alloc(), params, TOP - 1, entries)?;
    Ok(keeps_its_entries(&rt, &mut certifier, &item)?)
}
