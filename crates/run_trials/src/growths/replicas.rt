//! A replica on a device in memory. A write or a sync without room for its record is a failure of the device, and
//! then the replica begins on another one.

use crate::growths::items::{ROWS, item, params};
use rep_disk::{Loss, MemDisk};
use rep_layout::need;
use rep_recover::format_disk;
use rep_replica::Replica;
use rep_steps::{Answer, Event};
use rep_types::{Entry, Key, Refusal, Window, WindowSize};
use std::alloc::{AllocError, Global};
use uuid::Uuid;

/// The bytes of the replica's state UUID.
const STATE: [u8; 16] = [0x11; 16];

fn device(alloc: Global, size: usize) -> Result<MemDisk, AllocError> {
    if let Ok(disk) = MemDisk::new(alloc, size) {
        return Ok(disk);
    }
    MemDisk::new(alloc, size)
}

/// A device that was formatted.
fn formatted(alloc: Global) -> Result<MemDisk, Refusal> {
    let params = params()?;
    let disk = device(alloc, need(&params) as usize)?;
    let (disk, outcome) = format_disk(disk, &params, Some(Uuid::from_bytes(STATE)));
    outcome?;
    Ok(disk)
}

/// The replica on the device, opened again where there was no memory for it.
fn opened(alloc: Global, disk: MemDisk) -> Result<Replica<MemDisk>, Refusal> {
    let opened = match Replica::open(alloc, disk) {
        Err((disk, Refusal::OutOfMemory)) => Replica::open(alloc, disk),
        opened => opened,
    };
    match opened {
        Ok(replica) => Ok(replica),
        Err((_, refusal)) => Err(refusal),
    }
}

/// A step that has to be made.
fn step_once(replica: &mut Replica<MemDisk>, event: &Event) -> Result<(), Refusal> {
    match replica.step(event.copied()) {
        Answer::Refused(refusal) => Err(refusal),
        _ => Ok(()),
    }
}

/// A step, made again where there was no memory for it; the first one leaves the replica as it was.
fn step(replica: &mut Replica<MemDisk>, event: &Event) -> Result<(), Refusal> {
    match step_once(replica, event) {
        Err(Refusal::OutOfMemory) => step_once(replica, event),
        done => done,
    }
}

fn run(
    replica: &mut Replica<MemDisk>,
    alloc: Global,
    events: &[Event],
) -> Result<Vec<Answer>, Refusal> {
    match replica.run(alloc, events) {
        Err(Refusal::OutOfMemory) => replica.run(alloc, events),
        answers => answers,
    }
}

fn window(alloc: Global, replica: &Replica<MemDisk>) -> Result<Window, Refusal> {
    match replica.window(alloc) {
        Err(Refusal::OutOfMemory) => replica.window(alloc),
        entries => entries,
    }
}

/// Delivers an item for each row and one that changes the window's size to 2, and makes them durable.
fn serve(replica: &mut Replica<MemDisk>) -> Result<(), Refusal> {
    for (before, row) in ROWS.iter().enumerate() {
        let seqno = before as u64 + 1;
        step(replica, &Event::Deliver(seqno, item(*row, 0)?))?;
    }
    let change = Event::SetWindow(4, WindowSize::new(2)?, 1, 1);
    for event in [change, Event::Log, Event::Sync, Event::Log, Event::Sync] {
        step(replica, &event)?;
    }
    Ok(())
}

/// The device of a replica to which these items were delivered and are durable, behind a stop.
fn served(alloc: Global) -> Result<MemDisk, Refusal> {
    let mut replica = opened(alloc, formatted(alloc)?)?;
    let served = serve(&mut replica);
    let mut disk = replica.into_disk();
    disk.crash(Loss::Drop);
    match served {
        Ok(()) => Ok(disk),
        Err(refusal) => Err(refusal),
    }
}

/// Has the replica settle, and again where there was no memory for it: what it did until then stands.
fn settle(replica: &mut Replica<MemDisk>) -> Result<(), Refusal> {
    match replica.settle() {
        Err(Refusal::OutOfMemory) => replica.settle(),
        settled => settled,
    }
}

/// Delivers five items more, each of which the replica makes durable by settling. For the fourth the log has no cell: a checkpoint
/// comes before it.
fn settle_each(replica: &mut Replica<MemDisk>) -> Result<(), Refusal> {
    for before in 4..9 {
        step(replica, &Event::Deliver(before + 1, item(70, before)?))?;
        settle(replica)?;
    }
    Ok(())
}

/// Makes the next block durable, and again where there was no memory for it: what it did until then stands. Gives how many items were
/// replied to.
fn commit(replica: &mut Replica<MemDisk>, pages: u64) -> Result<usize, Refusal> {
    let replies = match replica.commit_block(pages) {
        Err(Refusal::OutOfMemory) => replica.commit_block(pages),
        committed => committed,
    };
    Ok(replies?.len())
}

/// Delivers four items more, a block each, beside a checkpoint of one page that is begun before them, and gives how many of them were replied
/// to, and whether the checkpoint has ended.
fn commit_each(replica: &mut Replica<MemDisk>) -> Result<(usize, bool), Refusal> {
    step(replica, &Event::Check)?;
    let mut told = 0usize;
    for before in 9..13 {
        step(replica, &Event::Deliver(before + 1, item(70, before)?))?;
        told = told.saturating_add(commit(replica, 1)?);
    }
    Ok((told, replica.is_quiet()))
}

/// Adds a read of each row, as it is behind so many items. Room for them is asked for again where there was none.
fn add_reads(reads: &mut Vec<Event>, durable: u64) -> Result<(), AllocError> {
    if reads.reserve(ROWS.len()).is_err() {
        reads.reserve(ROWS.len())?;
    }
    for row in ROWS {
        let key = Key {
            table: 0,
            row: *row,
        };
        reads.push(Event::Read(key, durable))?;
    }
    Ok(())
}

/// How many of the answers are rows that are there.
fn rows_in(answers: &[Answer]) -> usize {
    let mut rows = 0usize;
    for answer in answers {
        if let Answer::Row(Some(_)) = answer {
            rows = rows.saturating_add(1);
        }
    }
    rows
}

/// How many rows are there behind so many items.
fn rows_read(
    alloc: Global,
    replica: &mut Replica<MemDisk>,
    durable: u64,
) -> Result<usize, Refusal> {
    let mut reads = Vec::new(alloc);
    add_reads(&mut reads, durable)?;
    Ok(rows_in(&run(replica, alloc, &reads)?))
}

/// Where the base stands, how many items are durable, how many rows are there, and how many entries the window has, behind five items
/// more.
fn looked_at(
    alloc: Global,
    replica: &mut Replica<MemDisk>,
) -> Result<(u64, u64, usize, usize), Refusal> {
    settle_each(replica)?;
    if commit_each(replica)? != (4, true) {
        return Err(Refusal::NotDue);
    }
    let durable = replica.durable();
    let rows = rows_read(alloc, replica, durable)?;
    let entries = window(alloc, replica)?.entries().len();
    Ok((replica.base(), durable, rows, entries))
}

/// The same of a replica that is opened again after a stop.
fn served_and_looked_at(alloc: Global) -> Result<(u64, u64, usize, usize), Refusal> {
    let mut replica = opened(alloc, served(alloc)?)?;
    let seen = looked_at(alloc, &mut replica);
    // (taken apart: each place where a whole one goes by itself is dear to prove)
    let _disk = replica.into_disk();
    seen
}

/// Where the base stands, how many items are durable, how many reads then find a row, and how many entries the window has.
fn replica(alloc: Global) -> Result<(u64, u64, usize, usize), Refusal> {
    match served_and_looked_at(alloc) {
        Err(Refusal::DiskFault) => served_and_looked_at(alloc),
        answer => answer,
    }
}

/// Prints what the replica then is.
pub(crate) fn show<R: Print + AllocGlobal>(rt: &R) -> anyhow::Result<()> {
    let (base, durable, rows, entries) = replica(rt.alloc())?;
    rt.println(format_args!(
        "replica: base {base}, {durable} durable, {rows} rows read, a window of {entries}"
    ))?;
    Ok(())
}
