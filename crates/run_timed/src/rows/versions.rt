//! Adds versions of rows and looks rows up among them.

ghost use Rattle.std.specs.Prelude.{◌<◌};

use arrayvec::ArrayVec;
use rep_types::{Item, Key, Refusal, Value, Write, WriteSet};
use rep_versions::{At, Versions};
use std::alloc::Global;

/// How many rows an item writes.
const WRITES: u32 = 10;

/// How far apart the rows of an item lie. So there are ten times as many rows.
const APART: u32 = 25_800;

/// The first row of the item of a seqno: another one each time until all were written.
fn first_row(seqno: u64) -> u32
    ensures { result < 25800 }
{
    (seqno % u64::from(APART) * 7_919 % u64::from(APART)) as u32
}

/// The item of a seqno, which writes ten rows.
fn item(seqno: u64) -> Result<WriteSet, Refusal> {
    let first = first_row(seqno);
    let mut writes: ArrayVec<Write, 10> = ArrayVec::new();
    for i in 0..WRITES {
        writes.push(Write {
            key: Key {
                table: 0,
                row: first + APART * i,
            },
            value: Some(Value::new(&seqno.to_be_bytes())?),
        });
    }
    WriteSet::new(1, 1, 0, &[], &writes)
}

/// Versions of so many items.
fn versions(alloc: Global, items: u64) -> Result<Versions, Refusal> {
    let mut versions = Versions::new(alloc);
    for seqno in 0..items {
        versions.add(seqno, &Item::WriteSet(item(seqno)?))?;
    }
    Ok(versions)
}

/// How many of so many look-ups find a version: each of a row that an item wrote, at its seqno.
fn found(versions: &Versions, items: u64, reads: u64) -> u64 {
    let mut found = 0u64;
    for read in 0..reads {
        let seqno = (read % 1_000_003 * 7_919).checked_rem(items).unwrap_or(0);
        let row = first_row(seqno) + APART * (read % u64::from(WRITES)) as u32;
        if versions.at(Key { table: 0, row }, seqno) != At::Below {
            found = found.saturating_add(1);
        }
    }
    found
}

/// How many look-ups find a version in so many rounds: of the versions of so many items, and so many look-ups among them.
pub(crate) fn found_in_rounds(
    alloc: Global,
    rounds: u64,
    items: u64,
    reads: u64,
) -> Result<u64, Refusal> {
    let mut all = 0u64;
    for _ in 0..rounds {
        let versions = versions(alloc, items)?;
        all = all.saturating_add(found(&versions, items, reads));
    }
    Ok(all)
}
