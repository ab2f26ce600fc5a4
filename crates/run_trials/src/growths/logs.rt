//! A log on a device in memory. A sync without room for its record is a failure of the device.

use crate::growths::items::{ROWS, item};
use rep_cells::Cells;
use rep_disk::MemDisk;
use rep_layout::Layout;
use rep_log::Log;
use rep_record::BlockBuilder;
use rep_types::{Item, Judged, Refusal, Verdict};
use std::alloc::{AllocError, Global};

/// One cell of the log and no page: 62,464 bytes, of which the cell's gate begins at 61,952.
const LAYOUT: Layout = Layout { cells: 1, pages: 0 };

const CELL: usize = 54_272;

const GATE: usize = 61_952;

const SIZE: usize = 62_464;

/// The block of the cell, of a record for each row.
fn block() -> Result<BlockBuilder, Refusal> {
    let mut block = BlockBuilder::new();
    for (before, row) in ROWS.iter().enumerate() {
        block.push(&Judged {
            seqno: before as u64 + 1,
            item: Item::WriteSet(item(*row, 0)?),
            verdict: Verdict::Commit,
        });
    }
    Ok(block)
}

fn room(alloc: Global) -> Result<Vec<u8>, AllocError> {
    match Vec::from_elem(alloc, 0, SIZE) {
        Err(_) => Vec::from_elem(alloc, 0, SIZE),
        room => room,
    }
}

/// Has the cell stand open over the block.
fn fill(bytes: &mut [u8]) -> Result<(), Refusal> {
    if let Some(body) = block()?.write_body(0) {
        for (place, byte) in bytes.iter_mut().skip(CELL).zip(body.as_slice()) {
            *place = *byte;
        }
    }
    if let Some(gate) = bytes.get_mut(GATE) {
        *gate = 0xA5;
    }
    Ok(())
}

/// A device whose cell stands open over the block.
fn device(alloc: Global) -> Result<MemDisk, Refusal> {
    let mut bytes = room(alloc)?;
    fill(&mut bytes)?;
    match MemDisk::from_bytes(alloc, &bytes) {
        Err(_) => Ok(MemDisk::from_bytes(alloc, &bytes)?),
        Ok(made) => Ok(made),
    }
}

fn scan(alloc: Global, cells: &mut Cells<MemDisk>) -> Result<(Log, Vec<Judged>), Refusal> {
    let mut items = Vec::new(alloc);
    let log = match Log::scan(cells, 0, 0, &mut items) {
        Err(Refusal::OutOfMemory) => {
            items.clear();
            Log::scan(cells, 0, 0, &mut items)?
        }
        found => found?,
    };
    Ok((log, items))
}

/// The number of the next block, and how many records are found in the cells.
fn found_in(alloc: Global, cells: &mut Cells<MemDisk>) -> Result<(u64, usize), Refusal> {
    if cells.sync().is_err() && cells.sync().is_err() {
        return Err(Refusal::DiskFault);
    }
    let (log, items) = scan(alloc, cells)?;
    Ok((log.next(), items.len()))
}

/// The same of the device.
fn log(alloc: Global) -> Result<(u64, usize), Refusal> {
    match Cells::new(device(alloc)?, LAYOUT) {
        Ok(mut cells) => found_in(alloc, &mut cells),
        Err(_) => Err(Refusal::NotFormatted),
    }
}

/// Prints what is found of the log.
pub(crate) fn show<R: Print + AllocGlobal>(rt: &R) -> anyhow::Result<()> {
    let (next, records) = log(rt.alloc())?;
    rt.println(format_args!("log: {records} records found, the next block is {next}"))?;
    Ok(())
}
