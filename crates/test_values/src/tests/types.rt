//! Refusals and GTIDs as texts, against texts that were written by hand; floors of windows; and the first fault of a write set.

use rep_types::{Gtid, Key, Part, Refusal, Window, WindowSize, Write, WriteSet};
use std::alloc::{AllocError, Global};
use std::test::Fail;
use uuid::Uuid;

/// The number, the name and the data of a refusal.
fn shown(alloc: Global, refusal: Refusal) -> Result<String, AllocError> {
    let number = refusal.number();
    format!(in alloc; "{number} {refusal}")
}

/// Each refusal, and each part that may be corrupt.
const REFUSALS: &[Refusal] = &[
    Refusal::OutOfMemory,
    Refusal::DiskFault,
    Refusal::Stopped,
    Refusal::OutOfOrder { expected: 7 },
    Refusal::Backlogged,
    Refusal::LogFull,
    Refusal::NotDue,
    Refusal::TooOld { oldest: 3 },
    Refusal::NotYet { durable: 3 },
    Refusal::BadKey,
    Refusal::Undefined,
    Refusal::NotFormatted,
    Refusal::Corrupt {
        part: Part::Superblock,
    },
    Refusal::Corrupt { part: Part::Window },
    Refusal::Corrupt { part: Part::Log },
    Refusal::Corrupt { part: Part::Pages },
    Refusal::TooSmall { need: 103_424 },
    Refusal::BadParams,
    Refusal::Malformed { at: 59 },
    Refusal::TooManyReads,
    Refusal::TooManyWrites,
    Refusal::ValueTooLong,
    Refusal::WrongCluster,
    Refusal::Ahead { position: 9 },
    Refusal::Closed,
    Refusal::Exhausted,
    Refusal::StreamFault,
];

/// Their lines: the number, the name and the data of each.
const SHOWN: &str = "\
1 out-of-memory
2 disk-fault
3 stopped
4 out-of-order 7
5 backlogged
6 log-full
7 not-due
8 too-old 3
9 not-yet 3
10 bad-key
11 undefined
12 not-formatted
13 corrupt superblock
13 corrupt window
13 corrupt log
13 corrupt pages
14 too-small 103424
15 bad-params
16 malformed 59
17 too-many-reads
18 too-many-writes
19 value-too-long
20 wrong-cluster
21 ahead 9
22 closed
23 exhausted
24 stream-fault
";

/// The lines of the refusals.
fn lines_of(alloc: Global, refusals: &[Refusal]) -> Result<String, AllocError> {
    let mut lines = String::new(alloc);
    for refusal in refusals {
        lines.push_str(&shown(alloc, *refusal)?)?;
        lines.push('\n')?;
    }
    Ok(lines)
}

#[test]
fn refusals_show_their_numbers_and_names(rt: HostRuntime) -> Result<(), Fail> {
    let lines = lines_of(rt.alloc(), REFUSALS)?;
    assert_eq!(rt; lines.as_str(), SHOWN);
    Ok(())
}

/// The seqno of the GTID that the text is.
fn seqno_of(text: &[u8]) -> Result<i64, Refusal> {
    Ok(Gtid::parse(text)?.seqno())
}

/// Texts, and the seqno of each that is a GTID, or where the first fault of another stands.
const GTIDS: &[(&[u8], Result<i64, u64>)] = &[
    (b"11111111-1111-4111-8111-111111111111:4", Ok(4)),
    (b"11111111-1111-4111-8111-111111111111:-1", Ok(-1)),
    (
        b"5EE99582-bb8d-11e2-B8E3-23de375c1d30:0000000000000000007",
        Ok(7),
    ),
    (
        b"11111111-1111-4111-8111-111111111111:9223372036854775807",
        Ok(i64::MAX),
    ),
    (
        b"11111111-1111-4111-8111-111111111111:9223372036854775808",
        Err(37),
    ),
    (
        b"11111111-1111-4111-8111-111111111111:00000000000000000007",
        Err(37),
    ),
    (b"11111111-1111-4111-8111-111111111111:-2", Err(37)),
    (b"11111111-1111-4111-8111-111111111111:", Err(37)),
    (b"11111111-1111-4111-8111-111111111111:+4", Err(37)),
    (b"11111111-1111-4111-8111-111111111111 4", Err(36)),
    (b"11111111-1111-4111-8111-111111111111", Err(36)),
    (b"11111111-1111-4111-8111-11111111111:4", Err(0)),
    (b"11111111111141118111111111111111:4", Err(0)),
    (b"", Err(0)),
];

#[test]
fn gtids_are_read_or_name_their_first_fault(rt: HostRuntime) {
    for row in GTIDS {
        let (text, wanted) = *row;
        let seqno = wanted.map_err(|at| Refusal::Malformed { at });
        assert_eq!(rt; (text, seqno_of(text)), (text, seqno));
    }
}

/// Whether the GTID is written so.
fn is_written(alloc: Global, gtid: Gtid, wanted: &str) -> bool {
    match format!(in alloc; "{gtid}") {
        Ok(text) => text.as_str() == wanted,
        Err(_) => false,
    }
}

#[test]
fn gtids_are_written_in_lower_case(rt: HostRuntime) -> Result<(), Fail> {
    let gtid = Gtid::parse(b"5EE99582-bb8d-11e2-B8E3-23de375c1d30:008204503945773")?;
    let undefined = Gtid::new(Uuid::nil(), -1).ok_or("no undefined GTID")?;
    let found = [
        is_written(
            rt.alloc(),
            gtid,
            "5ee99582-bb8d-11e2-b8e3-23de375c1d30:8204503945773",
        ),
        is_written(
            rt.alloc(),
            undefined,
            "00000000-0000-0000-0000-000000000000:-1",
        ),
        Gtid::new(Uuid::nil(), -2).is_none(),
    ];
    assert_eq!(rt; found, [true; 3]);
    Ok(())
}

/// The floor of a fixed window of this size at the position.
fn floor_of(alloc: Global, seqnos: u64, position: u64) -> Result<u64, Refusal> {
    let size = WindowSize::new(seqnos)?;
    Ok(Window::fixed(size, position, Vec::new(alloc)).floor())
}

/// Sizes, positions and floors of fixed windows.
const FLOORS: &[(u64, u64, u64)] = &[
    (4, 0, 1),
    (4, 4, 1),
    (4, 5, 2),
    (1, 7, 7),
    (256, 256, 1),
    (256, u64::MAX, u64::MAX - 255),
];

#[test]
fn fixed_windows_reach_back_by_their_size(rt: HostRuntime) {
    for row in FLOORS {
        let (seqnos, position, floor) = *row;
        let found = floor_of(rt.alloc(), seqnos, position);
        assert_eq!(rt; (seqnos, position, found), (seqnos, position, Ok(floor)));
    }
}

/// The keys of these rows of table 0.
fn keys_of(alloc: Global, rows: &[u32]) -> Result<Vec<Key>, AllocError> {
    let mut keys = Vec::new(alloc);
    for row in rows {
        keys.push(Key {
            table: 0,
            row: *row,
        })?;
    }
    Ok(keys)
}

/// Deletes of these rows of table 0.
fn deletes_of(alloc: Global, rows: &[u32]) -> Result<Vec<Write>, AllocError> {
    let mut deletes = Vec::new(alloc);
    for key in keys_of(alloc, rows)?.iter() {
        deletes.push(Write {
            key: *key,
            value: None,
        })?;
    }
    Ok(deletes)
}

/// What a write set is refused by that reads these rows, and deletes those.
fn fault_of(alloc: Global, reads: &[u32], writes: &[u32]) -> Result<Option<Refusal>, AllocError> {
    let reads = keys_of(alloc, reads)?;
    let writes = deletes_of(alloc, writes)?;
    Ok(WriteSet::new(7, 8, 0, &reads, &writes).err())
}

const SIXTEEN: &[u32] = &[0, 1, 2, 3, 4, 5, 6, 7, 8, 9, 10, 11, 12, 13, 14, 15];

const SEVENTEEN: &[u32] = &[0, 1, 2, 3, 4, 5, 6, 7, 8, 9, 10, 11, 12, 13, 14, 15, 16];

/// Rows that are read and rows that are written, and the first fault, if there is one.
const WRITE_SETS: &[(&[u32], &[u32], Option<Refusal>)] = &[
    (&[], &[1], None),
    (&[5, 6], &[1, 2], None),
    (SIXTEEN, SIXTEEN, None),
    (SEVENTEEN, SEVENTEEN, Some(Refusal::TooManyReads)),
    (SIXTEEN, SEVENTEEN, Some(Refusal::TooManyWrites)),
    // the first that is not above the one before it, by its index in the reads followed by the writes
    (&[1, 1], &[1], Some(Refusal::Malformed { at: 1 })),
    (&[1, 3, 2], &[2, 1], Some(Refusal::Malformed { at: 2 })),
    (&[1, 2], &[3, 3], Some(Refusal::Malformed { at: 3 })),
    (&[1, 2], &[1, 2, 3, 2], Some(Refusal::Malformed { at: 5 })),
    (&[], &[2, 1], Some(Refusal::Malformed { at: 1 })),
    // no write: the number of the reads, where these ascend
    (&[], &[], Some(Refusal::Malformed { at: 0 })),
    (&[1, 2, 3], &[], Some(Refusal::Malformed { at: 3 })),
    (&[2, 1, 3], &[], Some(Refusal::Malformed { at: 1 })),
];

#[test]
fn write_sets_name_their_first_fault(rt: HostRuntime) -> Result<(), Fail> {
    for row in WRITE_SETS {
        let (reads, writes, refusal) = *row;
        let found = fault_of(rt.alloc(), reads, writes)?;
        assert_eq!(rt; (reads, writes, found), (reads, writes, refusal));
    }
    Ok(())
}
