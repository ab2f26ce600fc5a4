//! Versions of rows: what a row is at each snapshot, what goes, and the pages with a change.

use crate::tests::rows::{add, delete, put};
use rep_types::{Key, Refusal, Schema};
use rep_versions::{At, Versions};
use std::alloc::Global;
use std::process::Abort;
use std::test::Fail;

fn key(row: u32) -> Key {
    Key { table: 0, row }
}

/// Row 5 is put at seqno 2 and at 9 and deleted at 6; row 7 is put at 2; row 130 is deleted at 6.
fn add_three(versions: &mut Versions) -> Result<(), Refusal> {
    add(versions, 2, &[put(key(5), b"two")?, put(key(7), b"")?])?;
    add(versions, 6, &[delete(key(5)), delete(key(130))])?;
    add(versions, 9, &[put(key(5), b"nine")?])
}

/// The versions of those three items.
fn three(alloc: Global) -> Result<Versions, Refusal> {
    let mut versions = Versions::new(alloc);
    add_three(&mut versions)?;
    Ok(versions)
}

/// A row at a snapshot, its bytes there, and whether it has no version so old: None where it is deleted
/// or there is no version.
type Case = (u32, u64, Option<&'static [u8]>, bool);

/// Whether the row is this at the snapshot.
fn is(versions: &Versions, (row, seqno, bytes, below): Case) -> bool {
    match versions.at(key(row), seqno) {
        At::Found(value) => bytes == Some(value.as_bytes()),
        At::Deleted => bytes.is_none() && !below,
        At::Below => bytes.is_none() && below,
    }
}

/// Compares these rows.
fn are(rt: &impl Abort, versions: &Versions, cases: &[Case]) -> Result<(), Fail> {
    for case in cases {
        assert_eq!(rt;
            (case.0, case.1, is(versions, *case)),
            (case.0, case.1, true)
        );
    }
    Ok(())
}

const NEWEST: &[Case] = &[
    (5, 0, None, true),
    (5, 1, None, true),
    (5, 2, Some(b"two"), false),
    (5, 5, Some(b"two"), false),
    (5, 6, None, false),
    (5, 8, None, false),
    (5, 9, Some(b"nine"), false),
    (5, u64::MAX, Some(b"nine"), false),
    (6, 9, None, true),
    (7, 9, Some(b""), false),
    (130, 5, None, true),
    (130, 6, None, false),
];

#[test]
fn the_newest_version_at_most_at_the_snapshot_is_found(rt: HostRuntime) -> Result<(), Fail> {
    are(&rt, &three(rt.alloc())?, NEWEST)
}

const TAKEN_BACK: &[Case] = &[(5, 9, None, false), (5, 5, Some(b"two"), false)];

const PRUNED: &[Case] = &[
    (5, 8, None, true),
    (7, 9, None, true),
    (5, 9, Some(b"nine"), false),
];

#[test]
fn versions_are_taken_back_by_seqno(rt: HostRuntime) -> Result<(), Fail> {
    let mut versions = three(rt.alloc())?;
    versions.take_back(9);
    are(&rt, &versions, TAKEN_BACK)
}

#[test]
fn versions_are_pruned_by_seqno(rt: HostRuntime) -> Result<(), Fail> {
    let mut versions = three(rt.alloc())?;
    versions.prune(6);
    are(&rt, &versions, PRUNED)
}

/// A base, a position, and the pages with a version between.
const PAGES: &[(u64, u64, &[u32])] = &[
    (0, 0, &[]),
    (0, 2, &[0]),
    (2, 5, &[]),
    (2, 6, &[0, 2]),
    (6, 9, &[0]),
    (9, 10, &[1]),
    (0, 10, &[0, 1, 2]),
];

/// Compares the pages with a change.
fn has_changed(
    rt: &(impl Abort + AllocGlobal),
    versions: &Versions,
    schema: &Schema,
) -> Result<(), Refusal> {
    for row in PAGES {
        let (base, position, wanted) = *row;
        let found = versions.pages(rt.alloc(), schema, base, position)?;
        assert_eq!(rt;
            (base, position, found.as_slice()),
            (base, position, wanted)
        );
    }
    Ok(())
}

#[test]
fn changed_pages_are_those_of_the_versions_between(rt: HostRuntime) -> Result<(), Fail> {
    let mut versions = three(rt.alloc())?;
    // the first and the last row of page 1, and a row that the schema does not have
    let writes = [delete(key(63)), put(key(125), b"1")?, put(key(131), b"1")?];
    add(&mut versions, 10, &writes)?;
    has_changed(&rt, &versions, &Schema::new(&[131])?)?;
    Ok(())
}
