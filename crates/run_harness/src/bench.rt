//! Does what the lines of a text ask for: to the disk, and to a node on it.

use crate::device::{
    Device, armed, blank, bytes, copied, crashed, cut, damaged, failures, put, written,
};
use crate::donor::{Donor, lend, let_go};
use crate::join::joined;
use crate::node::{Bench, Left, kept, opened};
use crate::order::{Change, DiskOrder, NodeOrder, Order, Sight, read_order};
use crate::shown::{write_bytes, write_fingerprint};
use arrayvec::ArrayVec;
use rep_disk::Disk;
use rep_record::{MAX_LINE, TextReader, is_blank};
use rep_replica::Replica;
use rep_script::{Command, format_text, read_command, write_line, write_refused};
use rep_steps::Event;
use rep_streams::{Sink, Source};
use rep_types::{Params, Refusal};
use std::alloc::Global;
use uuid::Uuid;

/// The bytes of the state UUID under which disks are formatted: 11111111-1111-4111-8111-111111111111.
const UUID: [u8; 16] = [
    0x11, 0x11, 0x11, 0x11, 0x11, 0x11, 0x41, 0x11, 0x81, 0x11, 0x11, 0x11, 0x11, 0x11, 0x11, 0x11,
];

/// A line of a text.
type Line = ArrayVec<u8, MAX_LINE>;

/// Writes why it was refused, where it was.
fn write_outcome<W: Sink>(writer: &mut W, outcome: Result<(), Refusal>) -> Result<(), Refusal> {
    match outcome {
        Ok(()) => Ok(()),
        Err(refusal) => write_refused(writer, refusal),
    }
}

/// Formats the disk, as that of a node of no cluster where that is asked, and writes what came of it.
fn formatted<D: Disk, W: Sink>(
    disk: D,
    params: &Params,
    is_undefined: bool,
    writer: &mut W,
) -> (D, Result<(), Refusal>) {
    let uuid = if is_undefined {
        None
    } else {
        Some(Uuid::from_bytes(UUID))
    };
    let (disk, outcome) = format_text(disk, params, uuid, writer);
    (disk, write_outcome(writer, outcome))
}

/// Has these bytes stand at this place of the disk, and writes whether they fit.
fn put_part<W: Sink>(
    alloc: Global,
    device: &mut Device,
    at: u64,
    part: &[u8],
    writer: &mut W,
) -> Result<(), Refusal> {
    let fits = put(alloc, device, at as usize, part)?;
    write_line(writer, if fits { "put" } else { "outside" })
}

/// Has these bytes be written at this place of the disk, and writes whether they were.
fn write_part<W: Sink>(
    device: &mut Device,
    at: u64,
    part: &[u8],
    writer: &mut W,
) -> Result<(), Refusal> {
    let served = written(device, at as usize, part);
    write_line(writer, if served { "written" } else { "not written" })
}

/// Changes the bytes of the disk, and writes what came of it.
fn change<W: Sink>(
    alloc: Global,
    device: &mut Device,
    change: Change,
    writer: &mut W,
) -> Result<(), Refusal> {
    match change {
        Change::Blank(size, byte) => {
            write_line(writer, "blank")?;
            *device = blank(alloc, size as usize, byte)?;
            Ok(())
        }
        Change::Cut(size) => {
            write_line(writer, "cut")?;
            *device = cut(alloc, device, size as usize)?;
            Ok(())
        }
        Change::Put(at, part) => put_part(alloc, device, at, part.as_slice(), writer),
        Change::Write(at, part) => write_part(device, at, part.as_slice(), writer),
    }
}

/// Shows the disk.
fn show<W: Sink>(device: &Device, sight: Sight, writer: &mut W) -> Result<(), Refusal> {
    match sight {
        Sight::Bytes(at, count) => write_bytes(writer, device, at as usize, count as usize),
        Sight::Fingerprint => write_fingerprint(writer, bytes(device)),
        Sight::Failures => write_line(writer, format_args!("failures {}", failures(device))),
    }
}

/// Does this to the disk, and writes what came of it.
fn on_disk<W: Sink>(
    alloc: Global,
    mut device: Device,
    order: DiskOrder,
    writer: &mut W,
) -> (Device, Result<(), Refusal>) {
    match order {
        DiskOrder::Change(order) => {
            let written = change(alloc, &mut device, order, writer);
            (device, written)
        }
        DiskOrder::Format(params, is_undefined) => {
            formatted(device, &params, is_undefined, writer)
        }
        DiskOrder::Crash(loss) => (crashed(device, loss), write_line(writer, "crashed")),
        DiskOrder::Arm(failing) => (armed(device, failing), write_line(writer, "armed")),
        DiskOrder::Damage(damage) => (damaged(device, damage), write_line(writer, "damaged")),
        DiskOrder::Show(sight) => {
            let written = show(&device, sight, writer);
            (device, written)
        }
    }
}

/// Does this to the node, where there is one, and writes what came of it.
fn at_bench<W: Sink>(
    alloc: Global,
    bench: Bench<Device>,
    order: NodeOrder,
    writer: &mut W,
) -> Left<Device> {
    let node = match bench {
        Bench::Node(node) => node,
        bench => return (bench, write_line(writer, "off")),
    };
    match order {
        NodeOrder::Script(Command::Stop(loss)) => {
            opened(alloc, crashed(node.into_disk(), loss), writer)
        }
        order => kept(alloc, node, order, writer),
    }
}

/// The next line, if there is one. It promises nothing of the line, so that a proof of who calls it need not carry that.
fn next_line<R: Source>(
    text: &mut TextReader,
    reader: &mut R,
    line: &mut Line,
) -> Result<bool, Refusal> {
    text.next_line(reader, line)
}

/// The event that the line with this number asks for.
fn read_event(line: &[u8], number: u64) -> Result<Event, Refusal> {
    match read_command(line, number)? {
        Command::Step(event) => Ok(event),
        _ => Err(Refusal::Malformed { at: number }),
    }
}

/// The events that the next so many lines ask for.
fn read_events<R: Source>(
    alloc: Global,
    text: &mut TextReader,
    reader: &mut R,
    count: u64,
) -> Result<Vec<Event>, Refusal> {
    let mut line = Line::new();
    let mut events = Vec::new(alloc);
    for _ in 0..count {
        if !next_line(text, reader, &mut line)? {
            break;
        }
        events.push(read_event(&line, text.number())?)?;
    }
    Ok(events)
}

/// Runs the events together that the next so many lines ask for, and writes what came of it.
fn batch<R: Source, W: Sink>(
    alloc: Global,
    bench: &mut Bench<Device>,
    text: &mut TextReader,
    reader: &mut R,
    count: u64,
    writer: &mut W,
) -> Result<(), Refusal> {
    let events = read_events(alloc, text, reader, count)?;
    bench.batch(alloc, &events, writer)
}

/// Has a copy of the disk be the donor's from now on, and writes what came of it.
fn lend_copy<W: Sink>(
    alloc: Global,
    device: &Device,
    donor: &mut Option<Donor<Device>>,
    writer: &mut W,
) -> Result<(), Refusal> {
    let copy = copied(alloc, device)?;
    lend(alloc, copy, donor, writer)
}

/// Has the disk and the donor's change places, where there is a donor, and writes what came of it. A node on the disk is let go.
fn swapped<D: Disk + Drop, W: Sink>(
    alloc: Global,
    bench: Bench<D>,
    donor: &mut Option<Donor<D>>,
    writer: &mut W,
) -> Left<D> {
    match donor.take() {
        Some(before) => {
            let written = lend(alloc, bench.into_disk(), donor, writer);
            (Bench::Disk(before.into_disk()), written)
        }
        None => (bench, write_line(writer, "off")),
    }
}

/// Does what a line asks for, and writes what came of it. What asks for the disk lets a node on it go. Where there is no node, what asks
/// for one is answered by `off`, and so it is while a snapshot comes to the node.
fn done<R: Source, W: Sink>(
    alloc: Global,
    mut bench: Bench<Device>,
    donor: &mut Option<Donor<Device>>,
    order: Order,
    text: &mut TextReader,
    reader: &mut R,
    writer: &mut W,
) -> Left<Device> {
    match order {
        Order::Disk(order) => {
            let (device, written) = on_disk(alloc, bench.into_disk(), order, writer);
            (Bench::Disk(device), written)
        }
        Order::Open => opened(alloc, bench.into_disk(), writer),
        Order::Node(order) => at_bench(alloc, bench, order, writer),
        Order::Lend => {
            let device = bench.into_disk();
            let written = lend_copy(alloc, &device, donor, writer);
            (Bench::Disk(device), written)
        }
        Order::Swap => swapped(alloc, bench, donor, writer),
        Order::Join(order) => joined(alloc, bench, donor, order, writer),
        Order::Batch(count) => {
            let written = batch(alloc, &mut bench, text, reader, count, writer);
            (bench, written)
        }
    }
}

/// What the next line with words asks for.
fn next_order<R: Source>(text: &mut TextReader, reader: &mut R) -> Result<Option<Order>, Refusal> {
    let mut line = Line::new();
    for _ in 0..u64::MAX {
        if !next_line(text, reader, &mut line)? {
            break;
        }
        if !is_blank(&line) {
            return Ok(Some(read_order(&line, text.number())?));
        }
    }
    Ok(None)
}

/// Does what each line of the text asks for, and writes what came of it.
fn answer_all<R: Source, W: Sink>(
    alloc: Global,
    mut bench: Bench<Device>,
    donor: &mut Option<Donor<Device>>,
    text: &mut TextReader,
    reader: &mut R,
    writer: &mut W,
) -> Left<Device> {
    for _ in 0..u64::MAX {
        let order = match next_order(text, reader) {
            Ok(Some(order)) => order,
            Ok(None) => break,
            Err(refusal) => return (bench, Err(refusal)),
        };
        let (after, written) = done(alloc, bench, donor, order, text, reader, writer);
        bench = after;
        if written.is_err() {
            return (bench, written);
        }
    }
    (bench, Ok(()))
}

/// Does what each line of the text asks for, on a disk that has no bytes at first, and writes what came of it.
///
/// Refuses a line of no such form as `read_command` does, want of memory for a disk with `OutOfMemory`, and with
/// `StreamFault` a reader or a writer that fails.
pub(crate) fn run<R: Source, W: Sink>(
    alloc: Global,
    reader: &mut R,
    writer: &mut W,
) -> Result<(), Refusal> {
    let bench = Bench::Disk(blank(alloc, 0, 0)?);
    let mut donor = None;
    let mut text = TextReader::new();
    let (bench, answered) = answer_all(alloc, bench, &mut donor, &mut text, reader, writer);
    drop(bench.into_disk());
    let_go(donor);
    answered
}
