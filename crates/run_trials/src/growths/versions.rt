//! The versions of rows, and the pages with a change.

use crate::growths::items::params;
use arrayvec::ArrayVec;
use rep_types::{Item, Key, Refusal, Value, Write, WriteSet};
use rep_versions::{At, Versions};
use std::alloc::Global;

/// An item that writes 16 rows, each seventh from this one on.
fn item(first: u32) -> Result<Item, Refusal> {
    let mut writes: ArrayVec<Write, 16> = ArrayVec::new();
    for i in 0..16 {
        writes.push(Write {
            key: Key {
                table: 0,
                row: first % 7 + 7 * i,
            },
            value: Some(Value::new(b"1")?),
        });
    }
    Ok(Item::WriteSet(WriteSet::new(1, 1, 0, &[], &writes)?))
}

fn add(versions: &mut Versions, seqno: u64, item: &Item) -> Result<(), Refusal> {
    match versions.add(seqno, item) {
        Err(Refusal::OutOfMemory) => versions.add(seqno, item),
        answer => answer,
    }
}

fn pages(alloc: Global, versions: &Versions) -> Result<Vec<u32>, Refusal> {
    let params = params()?;
    match versions.pages(alloc, params.schema(), 0, 4) {
        Err(Refusal::OutOfMemory) => versions.pages(alloc, params.schema(), 0, 4),
        answer => answer,
    }
}

/// Adds four items of 16 writes.
fn add_items(versions: &mut Versions) -> Result<(), Refusal> {
    for seqno in 1..5u32 {
        add(versions, u64::from(seqno), &item(seqno)?)?;
    }
    Ok(())
}

/// How many of the first 112 rows have a version.
fn rows_found(versions: &Versions) -> u64 {
    let mut found = 0u64;
    for row in 0..112 {
        if versions.at(Key { table: 0, row }, 4) != At::Below {
            found = found.saturating_add(1);
        }
    }
    found
}

/// How many of the first 112 rows have a version after four items of 16 writes, and how many pages a
/// change.
fn versions(alloc: Global) -> Result<(u64, usize), Refusal> {
    let mut versions = Versions::new(alloc);
    add_items(&mut versions)?;
    Ok((rows_found(&versions), pages(alloc, &versions)?.len()))
}

/// Prints how many rows have a version, and how many pages a change.
pub(crate) fn show<R: Print + AllocGlobal>(rt: &R) -> anyhow::Result<()> {
    let (found, pages) = versions(rt.alloc())?;
    rt.println(format_args!("versions: {found} rows have one, {pages} pages a change"))?;
    Ok(())
}
