//! Records and blocks: what has no spelling, what a block takes next, and what is none of either, by its size or at a place of its own.

use rep_record::{BlockBuilder, put_record, read_block, read_record};
use rep_types::{Item, Judged, Key, Refusal, Value, Verdict, Write, WriteSet};
use std::alloc::{AllocError, Global};
use std::process::Abort;
use std::test::Fail;

/// The item of this seqno and this verdict, which had seen nothing and puts `61` under `0/1`: a record of 53 bytes.
fn judged(seqno: u64, verdict: Verdict) -> Result<Judged, Refusal> {
    let write = Write {
        key: Key { table: 0, row: 1 },
        value: Some(Value::new(&[0x61])?),
    };
    Ok(Judged {
        seqno,
        item: Item::WriteSet(WriteSet::new(0, 0, 0, &[], &[write])?),
        verdict,
    })
}

/// Pushes the record, and says whether there was room.
fn takes(block: &mut BlockBuilder, record: &Judged) -> bool {
    block.push(record)
}

const LAST: u64 = 1 << 60;

/// Seqnos and verdicts, and whether they can be written.
const SPELLINGS: &[(u64, Verdict, bool)] = &[
    (0, Verdict::Commit, false),
    (1, Verdict::Commit, true),
    (LAST, Verdict::Commit, true),
    (LAST + 1, Verdict::Commit, false),
    (4, Verdict::Conflict(0), false),
    (4, Verdict::Conflict(1), true),
    (4, Verdict::Conflict(3), true),
    (4, Verdict::Conflict(4), false),
];

/// Whether such an item is written alone, and taken by a block.
fn has_spelling(seqno: u64, verdict: Verdict) -> Result<(bool, bool), Refusal> {
    let record = judged(seqno, verdict)?;
    let is_written = put_record(&record).is_some();
    Ok((is_written, takes(&mut BlockBuilder::new(), &record)))
}

// Neither seqno 0, nor one past 2^60, nor a conflict with itself or with item 0 can be written.
#[test]
fn what_has_no_spelling_is_not_written(rt: HostRuntime) {
    for (seqno, verdict, is_written) in SPELLINGS {
        let found = (*seqno, *verdict, has_spelling(*seqno, *verdict));
        assert_eq!(rt; found, (*seqno, *verdict, Ok((*is_written, *is_written))));
    }
}

/// Pushes the item of this seqno, and says whether it was taken, and how many the block then has.
fn push(block: &mut BlockBuilder, seqno: u64) -> Result<(bool, u16), Refusal> {
    let is_taken = takes(block, &judged(seqno, Verdict::Commit)?);
    Ok((is_taken, block.len()))
}

/// Seqnos, whether a block takes them one after another, and how many records it then has.
const NEXT: &[(u64, (bool, u16))] = &[
    (7, (true, 1)),
    (8, (true, 2)),
    (9, (true, 3)),
    (9, (false, 3)),
    (11, (false, 3)),
    (10, (true, 4)),
];

/// Compares which seqnos the block takes.
fn takes_the_next(rt: &impl Abort, block: &mut BlockBuilder) {
    for (seqno, wanted) in NEXT {
        assert_eq!(rt; (*seqno, push(block, *seqno)), (*seqno, Ok(*wanted)));
    }
}

// Nor does a block take a record whose seqno does not follow. One without records has no body.
#[test]
fn a_block_takes_the_next_seqno_alone(rt: HostRuntime) {
    let mut block = BlockBuilder::new();
    let found = (block.is_empty(), block.write_body(5).is_none());
    assert_eq!(rt; found, (true, true));
    takes_the_next(&rt, &mut block);
}

/// The body of a block of the items 7 and 8 for the cell 5, and a byte behind it; None where it has none.
fn body(alloc: Global) -> Result<Option<Vec<u8>>, Refusal> {
    let mut block = BlockBuilder::new();
    push(&mut block, 7)?;
    push(&mut block, 8)?;
    match block.write_body(5) {
        Some(body) => {
            let mut bytes = Vec::from_slice(alloc, body.as_slice())?;
            bytes.push(0)?;
            Ok(Some(bytes))
        }
        None => Ok(None),
    }
}

/// The block itself, its first record, its second one, and what stands behind that.
const AT_0: Option<Refusal> = Some(Refusal::Malformed { at: 0 });

const AT_18: Option<Refusal> = Some(Refusal::Malformed { at: 18 });

const AT_71: Option<Refusal> = Some(Refusal::Malformed { at: 71 });

const AT_124: Option<Refusal> = Some(Refusal::Malformed { at: 124 });

/// How many of the first bytes are read as a block, a place and what is put there, and what is then refused.
const BODIES: &[(usize, usize, u8, Option<Refusal>)] = &[
    (7_680, 7_680, 0, None),
    (0, 7_680, 0, AT_0),
    (17, 7_680, 0, AT_0),
    (18, 7_680, 0, AT_0),
    (7_679, 7_680, 0, AT_0),
    (7_681, 7_680, 0, AT_0),
    // the verdict of the first record, and the seqno of the second
    (7_680, 18 + 34, 5, AT_18),
    (7_680, 71 + 9, 7, AT_71),
    // the number of records: none, 65, one too few, and one too many
    (7_680, 17, 0, AT_0),
    (7_680, 17, 65, AT_0),
    (7_680, 17, 1, AT_0),
    (7_680, 17, 3, AT_124),
    // the first byte behind the records, and the closing one
    (7_680, 124, 1, AT_0),
    (7_680, 7_679, 1, AT_0),
];

/// So many of the first bytes, with this byte at the place.
fn changed(
    alloc: Global,
    bytes: &[u8],
    length: usize,
    place: usize,
    byte: u8,
) -> Result<Vec<u8>, AllocError> {
    let mut changed = Vec::from_slice(alloc, bytes.get(..length).unwrap_or(bytes))?;
    if let Some(old) = changed.get_mut(place) {
        *old = byte;
    }
    Ok(changed)
}

/// What so many of the first bytes are refused by as a block, with this byte at the place.
fn refusal_of(
    alloc: Global,
    bytes: &[u8],
    length: usize,
    place: usize,
    byte: u8,
) -> Result<Option<Refusal>, AllocError> {
    Ok(read_block(&changed(alloc, bytes, length, place, byte)?).err())
}

/// Compares what is refused of the body.
fn is_held(rt: &(impl Abort + AllocGlobal), bytes: &[u8]) -> Result<(), Fail> {
    for (length, place, byte, refusal) in BODIES {
        let found = refusal_of(rt.alloc(), bytes, *length, *place, *byte)?;
        assert_eq!(rt; (*length, *place, found), (*length, *place, *refusal));
    }
    Ok(())
}

#[test]
fn a_block_has_one_size_and_names_its_record(rt: HostRuntime) -> Result<(), Fail> {
    let bytes = body(rt.alloc())?.ok_or("no block")?;
    is_held(&rt, &bytes)
}

/// The bytes of the first item that writes `61` under `0/1`, as the format has them, and some behind them.
const RECORD: &[u8] = &[
    0x00, 0x35, 0, 0, 0, 0, 0, 0, 0, 1, 0, 0, 0, 0, 0, 0, 0, 0, 0, 0, 0, 0, 0, 0, 0, 0, 0, 0, 0, 0,
    0, 0, 0, 0, 0, 0, 0, 0, 0, 0, 0, 0, 0, 0, 1, 0, 0, 0, 0, 1, 1, 1, 0x61, 0xFF, 0xFF,
];

/// How many of these bytes are read as a record, and how long that is.
const FRONTS: &[(usize, Result<usize, Refusal>)] = &[
    (0, Err(Refusal::Malformed { at: 0 })),
    (1, Err(Refusal::Malformed { at: 0 })),
    (2, Err(Refusal::Malformed { at: 0 })),
    (45, Err(Refusal::Malformed { at: 0 })),
    (52, Err(Refusal::Malformed { at: 0 })),
    (53, Ok(53)),
    (55, Ok(53)),
];

/// How long the record at the front of the bytes is, and whether it is this one.
fn read(bytes: &[u8], record: &Judged) -> Result<(usize, bool), Refusal> {
    let (read, length) = read_record(bytes)?;
    Ok((length, read == *record))
}

// What stands behind a record is not looked at.
#[test]
fn a_record_is_read_whole(rt: HostRuntime) -> Result<(), Fail> {
    let record = judged(1, Verdict::Commit)?;
    for (length, wanted) in FRONTS {
        let found = read(RECORD.get(..*length).unwrap_or(RECORD), &record);
        let wanted = match wanted {
            Ok(size) => Ok((*size, true)),
            Err(refusal) => Err(*refusal),
        };
        assert_eq!(rt; (*length, found), (*length, wanted));
    }
    Ok(())
}

/// The bytes of the fourth item, which reads `0/1` and `0/2`, writes `61` and `62` under them and conflicts with the second, and some
/// behind them.
const CONFLICT: &[u8] = &[
    0, 0x47, 0, 0, 0, 0, 0, 0, 0, 4, 0, 0, 0, 0, 0, 0, 0, 0, 0, 0, 0, 0, 0, 0, 0, 0, 0, 0, 0, 0, 0,
    0, 0, 0, 1, 0, 0, 0, 0, 0, 0, 0, 2, 2, 2, 0, 0, 0, 0, 1, 0, 0, 0, 0, 2, 0, 0, 0, 0, 1, 1, 1,
    0x61, 0, 0, 0, 0, 2, 1, 1, 0x62, 0xFF, 0xFF,
];

const REFUSED: Result<usize, Refusal> = Err(Refusal::Malformed { at: 0 });

/// A record, a place in it, a byte that is put there, and how long what is then read is.
const CHANGES: &[(&[u8], usize, u8, Result<usize, Refusal>)] = &[
    // the seqno 0, and one above 2^60
    (RECORD, 9, 0, REFUSED),
    (RECORD, 2, 0x10, REFUSED),
    // a conflict with the item 0, with the one before, with itself, and with a later one
    (CONFLICT, 42, 0, REFUSED),
    (CONFLICT, 42, 3, Ok(71)),
    (CONFLICT, 42, 4, REFUSED),
    (CONFLICT, 42, 5, REFUSED),
    // a verdict of no number, and a commit that names a seqno
    (RECORD, 34, 5, REFUSED),
    (RECORD, 42, 1, REFUSED),
    // a byte more and a byte less than a record has
    (CONFLICT, 1, 72, REFUSED),
    (CONFLICT, 1, 70, REFUSED),
    // 17 reads, no write, and 17 writes
    (CONFLICT, 43, 17, REFUSED),
    (CONFLICT, 44, 0, REFUSED),
    (CONFLICT, 44, 17, REFUSED),
    // a write of another kind, a delete with a value, and a value of 63 bytes
    (CONFLICT, 60, 2, REFUSED),
    (CONFLICT, 60, 0, REFUSED),
    (CONFLICT, 61, 63, REFUSED),
    // a key twice and keys that descend, of the reads and of the writes
    (CONFLICT, 54, 1, REFUSED),
    (CONFLICT, 54, 0, REFUSED),
    (CONFLICT, 67, 1, REFUSED),
    (CONFLICT, 67, 0, REFUSED),
    (CONFLICT, 67, 3, Ok(71)),
];

/// How long the record at the front of the bytes is, with this byte at the place.
fn length_with(
    alloc: Global,
    bytes: &[u8],
    place: usize,
    byte: u8,
) -> Result<Result<usize, Refusal>, AllocError> {
    let changed = changed(alloc, bytes, bytes.len(), place, byte)?;
    Ok(match read_record(&changed) {
        Ok((_, length)) => Ok(length),
        Err(refusal) => Err(refusal),
    })
}

#[test]
fn a_record_is_held_to_its_form(rt: HostRuntime) -> Result<(), Fail> {
    for (bytes, place, byte, wanted) in CHANGES {
        let found = length_with(rt.alloc(), bytes, *place, *byte)?;
        assert_eq!(rt; (*place, *byte, found), (*place, *byte, *wanted));
    }
    Ok(())
}
