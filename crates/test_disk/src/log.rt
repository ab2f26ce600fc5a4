//! What the log answers where a replica never asks it: for a call that is not due, one on the cells of another log, and another
//! block than the next. What it says of itself behind each call, of four cells and of one, and behind a call that fails; and what a
//! scan refuses of numbers and of cells that no superblock has.

use rep_cells::{Cells, refusal_of};
use rep_disk::{FaultOnce, MemDisk, Once};
use rep_layout::Layout;
use rep_log::{Log, Phase, Step};
use rep_record::BlockBuilder;
use rep_types::{Item, Judged, Key, Part, Refusal, Verdict, Write, WriteSet};
use std::alloc::Global;
use std::process::Abort;
use std::test::Fail;

/// A device that fails one call.
type Device = Cells<FaultOnce<MemDisk>>;

const NO_FAULT: u64 = u64::MAX;

/// What is asked of a log.
enum Call {
    Recycle,
    Seal,
    Gate,
    /// A sync of the device, of which the log is told where it succeeds.
    Sync,
    /// The blocks before this number go.
    StartAt(u64),
    /// It is what a scan finds from this block on, which begins behind this position.
    Scan(u64, u64),
}

/// The way of a block into a cell in which none stands open, and into one in which an earlier one does.
const NEW_WAY: &[Call] = &[Call::Seal, Call::Sync, Call::Gate, Call::Sync];

const WAY: &[Call] = &[
    Call::Recycle,
    Call::Sync,
    Call::Seal,
    Call::Sync,
    Call::Gate,
    Call::Sync,
];

/// What a log says of itself: the first block that it needs, the next one, the last durable seqno, its phase, and what is due.
type Look = (u64, u64, u64, Phase, Step);

/// The position behind which a block begins, and how many records it has.
type Block = (u64, u16);

/// Calls with a block, what the last of them or the first that is refused answers, and what the log then says of itself.
type Row = (&'static [Call], Block, Result<u64, Refusal>, Look);

/// Rows with a new log of so many cells, on a device that fails the call of this number, where the first sync has the number 0.
type Case = (u32, u64, &'static [Row]);

const FULL: Refusal = Refusal::LogFull;

const FAULT: Result<u64, Refusal> = Err(Refusal::DiskFault);

/// Of four cells: the blocks 0 to 3, and once the log needs the first no longer, the block 4, whose cell holds that. Each call of the
/// first and of the last one, and a second sync behind each.
const FOUR: &[Row] = &[
    (
        &[Call::Seal],
        (0, 2),
        Ok(0),
        (0, 0, 0, Phase::Filling(2), Step::Sync),
    ),
    (
        &[Call::Sync],
        (0, 2),
        Ok(0),
        (0, 0, 0, Phase::Filled(2), Step::Gate),
    ),
    (
        &[Call::Gate],
        (0, 2),
        Ok(0),
        (0, 0, 0, Phase::Opening(2), Step::Sync),
    ),
    (
        &[Call::Sync],
        (0, 2),
        Ok(2),
        (0, 1, 2, Phase::Resting, Step::Seal),
    ),
    (
        NEW_WAY,
        (2, 1),
        Ok(1),
        (0, 2, 3, Phase::Resting, Step::Seal),
    ),
    (
        NEW_WAY,
        (3, 64),
        Ok(64),
        (0, 3, 67, Phase::Resting, Step::Seal),
    ),
    (
        NEW_WAY,
        (67, 1),
        Ok(1),
        (0, 4, 68, Phase::Resting, Step::Full),
    ),
    (
        &[Call::Seal],
        (68, 2),
        Err(FULL),
        (0, 4, 68, Phase::Resting, Step::Full),
    ),
    (
        &[Call::StartAt(1)],
        (68, 2),
        Ok(0),
        (1, 4, 68, Phase::Resting, Step::Recycle),
    ),
    (
        &[Call::Recycle],
        (68, 2),
        Ok(0),
        (1, 4, 68, Phase::Closing, Step::Sync),
    ),
    (
        &[Call::Sync],
        (68, 2),
        Ok(0),
        (1, 4, 68, Phase::Resting, Step::Seal),
    ),
    (
        &[Call::Sync],
        (68, 2),
        Ok(0),
        (1, 4, 68, Phase::Resting, Step::Seal),
    ),
    (
        &[Call::Seal],
        (68, 2),
        Ok(0),
        (1, 4, 68, Phase::Filling(2), Step::Sync),
    ),
    (
        &[Call::Sync],
        (68, 2),
        Ok(0),
        (1, 4, 68, Phase::Filled(2), Step::Gate),
    ),
    (
        &[Call::Sync],
        (68, 2),
        Ok(0),
        (1, 4, 68, Phase::Filled(2), Step::Gate),
    ),
    (
        &[Call::Gate],
        (68, 2),
        Ok(0),
        (1, 4, 68, Phase::Opening(2), Step::Sync),
    ),
    (
        &[Call::Sync],
        (68, 2),
        Ok(2),
        (1, 5, 70, Phase::Resting, Step::Full),
    ),
    (
        &[Call::Sync],
        (70, 1),
        Ok(0),
        (1, 5, 70, Phase::Resting, Step::Full),
    ),
    (
        &[Call::Scan(1, 2)],
        (70, 1),
        Ok(68),
        (1, 5, 70, Phase::Resting, Step::Full),
    ),
    (
        &[Call::StartAt(9)],
        (70, 1),
        Ok(0),
        (5, 5, 70, Phase::Resting, Step::Recycle),
    ),
    (
        &[Call::StartAt(2)],
        (70, 1),
        Ok(0),
        (5, 5, 70, Phase::Resting, Step::Recycle),
    ),
];

/// Of one cell: three blocks, each of which the log needs no longer before the next.
const ALONE: &[Row] = &[
    (
        NEW_WAY,
        (0, 2),
        Ok(2),
        (0, 1, 2, Phase::Resting, Step::Full),
    ),
    (
        &[Call::Scan(0, 0)],
        (2, 1),
        Ok(2),
        (0, 1, 2, Phase::Resting, Step::Full),
    ),
    (
        &[Call::StartAt(1)],
        (2, 1),
        Ok(0),
        (1, 1, 2, Phase::Resting, Step::Recycle),
    ),
    (WAY, (2, 1), Ok(1), (1, 2, 3, Phase::Resting, Step::Full)),
    (
        &[Call::Scan(1, 2)],
        (3, 2),
        Ok(1),
        (1, 2, 3, Phase::Resting, Step::Full),
    ),
    (
        &[Call::StartAt(2)],
        (3, 2),
        Ok(0),
        (2, 2, 3, Phase::Resting, Step::Recycle),
    ),
    (WAY, (3, 2), Ok(2), (2, 3, 5, Phase::Resting, Step::Full)),
    (
        &[Call::Scan(2, 3)],
        (5, 1),
        Ok(2),
        (2, 3, 5, Phase::Resting, Step::Full),
    ),
];

/// A block that the log needs no longer, before one of one record.
const ONCE: &[Call] = &[
    Call::Seal,
    Call::Sync,
    Call::Gate,
    Call::Sync,
    Call::StartAt(1),
];

const BEFORE: Row = (
    ONCE,
    (0, 2),
    Ok(0),
    (1, 1, 2, Phase::Resting, Step::Recycle),
);

/// The way of a block of which a call fails, and the phase in which the log then is. A sync that fails is not told to it, so that it stays
/// in the phase before.
const CLOSING: Row = (WAY, (2, 1), FAULT, (1, 1, 2, Phase::Closing, Step::Sync));

const FILLING: Row = (WAY, (2, 1), FAULT, (1, 1, 2, Phase::Filling(1), Step::Sync));

const OPENING: Row = (WAY, (2, 1), FAULT, (1, 1, 2, Phase::Opening(1), Step::Sync));

/// Of one cell: before the way of the second block the device served a sync, a read, and four calls.
const CASES: &[Case] = &[
    (4, NO_FAULT, FOUR),
    (1, NO_FAULT, ALONE),
    (1, 6, &[BEFORE, CLOSING]),
    (1, 7, &[BEFORE, CLOSING]),
    (1, 8, &[BEFORE, FILLING]),
    (1, 9, &[BEFORE, FILLING]),
    (1, 10, &[BEFORE, OPENING]),
    (1, 11, &[BEFORE, OPENING]),
];

/// The item of this seqno, which deletes a row.
fn item(seqno: u64) -> Result<Judged, Refusal> {
    let write = Write {
        key: Key { table: 0, row: 1 },
        value: None,
    };
    Ok(Judged {
        seqno,
        item: Item::WriteSet(WriteSet::new(7, seqno, 0, &[], &[write])?),
        verdict: Verdict::Commit,
    })
}

/// A block of so many records from behind this position on.
fn block_of((position, count): Block) -> Result<BlockBuilder, Refusal> {
    let mut block = BlockBuilder::new();
    for k in 1..=u64::from(count) {
        if !block.push(&item(position.saturating_add(k))?) {
            return Err(Refusal::Backlogged);
        }
    }
    Ok(block)
}

/// A new device of so many cells that fails the call of this number, behind a first sync.
fn device_of(alloc: Global, cells: u32, fault: u64) -> Result<Device, Refusal> {
    let layout = Layout { cells, pages: 0 };
    let disk = MemDisk::new(alloc, 54_272 + 8_192 * cells as usize)?;
    let Ok(mut device) = Cells::new(FaultOnce::new(disk, Once::after(fault)), layout) else {
        return Err(Refusal::NotFormatted);
    };
    refusal_of(device.sync())?;
    Ok(device)
}

/// What a scan of the device finds, from this block on, which begins behind this position, and how many records.
fn scanned(
    alloc: Global,
    device: &mut Device,
    start: u64,
    position: u64,
) -> Result<(Log, u64), Refusal> {
    let mut items = Vec::new(alloc);
    let log = Log::scan(device, start, position, &mut items)?;
    Ok((log, items.len() as u64))
}

fn look_at(log: &Log) -> Look {
    (
        log.start(),
        log.next(),
        log.durable(),
        log.phase(),
        log.step_due(),
    )
}

/// Makes a call of the log that writes.
fn written(
    log: &mut Log,
    device: &mut Device,
    call: &Call,
    block: &BlockBuilder,
) -> Result<(), Refusal> {
    match call {
        Call::Recycle => log.recycle(device),
        Call::Seal => log.seal(device, block),
        Call::Gate => log.gate(device),
        _ => Ok(()),
    }
}

/// Makes a call, and says how many records it made durable, or found.
fn made(
    alloc: Global,
    log: &mut Log,
    device: &mut Device,
    call: &Call,
    block: &BlockBuilder,
) -> Result<u64, Refusal> {
    match call {
        Call::Sync => {
            refusal_of(device.sync())?;
            Ok(u64::from(log.synced()))
        }
        Call::StartAt(start) => {
            log.start_at(*start);
            Ok(0)
        }
        Call::Scan(start, position) => {
            let (found, count) = scanned(alloc, device, *start, *position)?;
            *log = found;
            Ok(count)
        }
        _ => {
            written(log, device, call, block)?;
            Ok(0)
        }
    }
}

/// Makes the calls, up to the first that is refused.
fn made_all(
    alloc: Global,
    log: &mut Log,
    device: &mut Device,
    calls: &[Call],
    block: &BlockBuilder,
) -> Result<u64, Refusal> {
    let mut answer = 0;
    for call in calls {
        answer = made(alloc, log, device, call, block)?;
    }
    Ok(answer)
}

/// What is tried: calls, how many cells another log's device has on which they are made, another block, and what has to be due for the
/// calls: they are made of this log and of its next block where that is not due, and otherwise where it is.
type Tried = (&'static [Call], Option<u32>, Option<Block>, &'static [Step]);

const TRIED: &[Tried] = &[
    (&[Call::Recycle], None, None, &[Step::Recycle]),
    (&[Call::Recycle], Some(0), None, &[Step::Recycle]),
    (&[Call::Recycle], Some(3), None, &[Step::Recycle]),
    (&[Call::Recycle], Some(5), None, &[Step::Recycle]),
    (&[Call::Gate], None, None, &[Step::Gate]),
    (&[Call::Gate], Some(0), None, &[Step::Gate]),
    (&[Call::Gate], Some(3), None, &[Step::Gate]),
    (&[Call::Gate], Some(5), None, &[Step::Gate]),
    (&[Call::Seal], None, None, SEALED),
    (&[Call::Seal], Some(0), None, SEALED),
    (&[Call::Seal], Some(3), None, SEALED),
    (&[Call::Seal], Some(5), None, SEALED),
    (&[Call::Seal], None, Some((0, 0)), SEALED),
    (&[Call::Seal], None, Some((1, 2)), SEALED),
    (&[Call::Seal], None, Some((4, 64)), SEALED),
    (&[Call::Seal], None, Some((69, 1)), SEALED),
];

/// What has to be due for the next block to be sealed, or to be refused because the log is full.
const SEALED: &[Step] = &[Step::Seal, Step::Full];

/// What the calls answer, and whether the device reads as before where they are refused.
fn asked(
    alloc: Global,
    log: &mut Log,
    device: &mut Device,
    calls: &[Call],
    block: Block,
) -> Result<(Result<u64, Refusal>, bool), Refusal> {
    let records = block_of(block)?;
    let before = Vec::from_slice(alloc, device.disk().inner().bytes())?;
    let answer = made_all(alloc, log, device, calls, &records);
    let is_same = device.disk().inner().bytes() == before.as_slice();
    let may_write = answer.is_ok() || answer == Err(Refusal::DiskFault);
    Ok((answer, is_same || may_write))
}

/// Whether what is tried is refused and leaves log and device as they were, where it is made.
fn is_refused(
    alloc: Global,
    log: &mut Log,
    device: &mut Device,
    (calls, cells, other, due): Tried,
    block: Block,
) -> Result<bool, Refusal> {
    let before = look_at(log);
    let is_next = cells.is_none() && other.is_none();
    if due.contains(&before.4) == is_next {
        return Ok(true);
    }
    let block = other.unwrap_or(block);
    let found = match cells {
        Some(cells) => {
            let mut others = device_of(alloc, cells, NO_FAULT)?;
            asked(alloc, log, &mut others, calls, block)?
        }
        None => asked(alloc, log, device, calls, block)?,
    };
    Ok(found == (Err(Refusal::NotDue), true) && look_at(log) == before)
}

/// Compares that all that is tried is refused.
fn refuses(
    rt: &(impl Abort + AllocGlobal),
    log: &mut Log,
    device: &mut Device,
    block: Block,
) -> Result<(), Refusal> {
    for (number, tried) in TRIED.iter().enumerate() {
        let found = is_refused(rt.alloc(), log, device, *tried, block)?;
        assert_eq!(rt; (block, number, found), (block, number, true));
    }
    Ok(())
}

/// Compares what the rows answer, before each of which all is tried that is to be refused.
fn takes(
    rt: &(impl Abort + AllocGlobal),
    log: &mut Log,
    device: &mut Device,
    rows: &[Row],
) -> Result<(), Refusal> {
    for (number, row) in rows.iter().enumerate() {
        let (calls, block, answer, look) = *row;
        refuses(rt, log, device, block)?;
        let found = asked(rt.alloc(), log, device, calls, block)?;
        assert_eq!(rt;
            (number, found, look_at(log)),
            (number, (answer, true), look)
        );
    }
    Ok(())
}

/// Compares what the rows answer, with a new log.
fn goes(rt: &(impl Abort + AllocGlobal), (cells, fault, rows): Case) -> Result<(), Refusal> {
    let mut device = device_of(rt.alloc(), cells, fault)?;
    let (mut log, _) = scanned(rt.alloc(), &mut device, 0, 0)?;
    takes(rt, &mut log, &mut device, rows)
}

#[test]
fn a_log_takes_what_is_due(rt: HostRuntime) -> Result<(), Fail> {
    for case in CASES {
        goes(&rt, *case)?;
    }
    Ok(())
}

const LAST: u64 = 1 << 60;

const CORRUPT: Option<Refusal> = Some(Refusal::Corrupt { part: Part::Log });

const BAD_PARAMS: Option<Refusal> = Some(Refusal::BadParams);

/// Of blank cells: how many there are, the first number that is scanned, the position behind which its block begins, and what that is
/// refused by.
const SCANS: &[(u32, u64, u64, Option<Refusal>)] = &[
    (4, 0, 0, None),
    (4, 4, 4, None),
    (4, 5, 4, CORRUPT),
    (4, 1, 0, CORRUPT),
    (4, 0, LAST, None),
    (4, LAST, LAST, None),
    (4, LAST + 1, LAST, CORRUPT),
    (4, 0, LAST + 1, CORRUPT),
    (4, LAST + 1, LAST + 1, CORRUPT),
    (4, 0, u64::MAX, CORRUPT),
    (4, u64::MAX, u64::MAX, CORRUPT),
    (0, 0, 0, BAD_PARAMS),
    (1, 0, 0, None),
    (1_024, 0, 0, None),
    (1_025, 0, 0, BAD_PARAMS),
];

/// What a log says of itself that a scan of so many blank cells finds, and how many records there are.
fn scan_of(alloc: Global, cells: u32, start: u64, position: u64) -> Result<(Look, u64), Refusal> {
    let mut device = device_of(alloc, cells, NO_FAULT)?;
    let (log, count) = scanned(alloc, &mut device, start, position)?;
    Ok((look_at(&log), count))
}

#[test]
fn a_scan_keeps_start_and_position(rt: HostRuntime) {
    for row in SCANS {
        let (cells, start, position, refusal) = *row;
        let look = (start, start, position, Phase::Resting, Step::Seal);
        let wanted = match refusal {
            Some(refusal) => Err(refusal),
            None => Ok((look, 0)),
        };
        let found = scan_of(rt.alloc(), cells, start, position);
        assert_eq!(rt; (cells, found), (cells, wanted));
    }
}
