//! The lines that show a disk, a node or a transfer.

use crate::device::{Device, bytes};
use arrayvec::ArrayVec;
use rep_disk::Disk;
use rep_replica::Replica;
use rep_script::write_line;
use rep_streams::Sink;
use rep_types::{Entry, Refusal};
use std::fmt::Display;
use std::io::Write;

/// The most bytes of a disk that a line shows.
const MAX_SHOWN: usize = 512;

/// A line of bytes.
type Line = ArrayVec<u8, 1100>;

/// Writes what the node says of itself: how many items were delivered, are durable, and are in the base, whether it is quiet, and
/// whether it is stopped.
pub(crate) fn write_node<D: Disk, W: Sink>(
    writer: &mut W,
    node: &Replica<D>,
) -> Result<(), Refusal> {
    let quiet = if node.is_quiet() { "quiet" } else { "busy" };
    let stopped = if node.is_stopped() {
        "stopped"
    } else {
        "running"
    };
    let (delivered, durable, base) = (node.delivered(), node.durable(), node.base());
    write_line(
        writer,
        format_args!("node {delivered} {durable} {base} {quiet} {stopped}"),
    )
}

/// Writes the entry of a window: its seqno and how many keys it has, and then each of these.
fn write_entry<W: Sink>(writer: &mut W, entry: &Entry) -> Result<(), Refusal> {
    let (seqno, count) = (entry.seqno(), entry.keys().len());
    write_line(writer, format_args!("entry {seqno} {count}"))?;
    for key in entry.keys() {
        write_line(writer, format_args!("key {}/{}", key.table, key.row))?;
    }
    Ok(())
}

/// Writes a window: how many entries it has, and then each of these.
pub(crate) fn write_window<W: Sink>(writer: &mut W, window: &[Entry]) -> Result<(), Refusal> {
    let count = window.len();
    write_line(writer, format_args!("window {count}"))?;
    for entry in window {
        write_entry(writer, entry)?;
    }
    Ok(())
}

/// Puts the text at the end of the line, which has room for it.
fn put<D: Display + Drop>(line: &mut Line, text: D) -> Result<(), Refusal> {
    line.write_fmt(text).map_err(|_| Refusal::StreamFault)
}

/// Puts the bytes at the end of the line, two digits each, and ends it.
fn put_digits(line: &mut Line, bytes: &[u8]) -> Result<(), Refusal> {
    for byte in bytes {
        put(line, format_args!("{byte:02x}"))?;
    }
    put(line, "\n")
}

/// Writes so many bytes of the disk from this place on, at most 512, two digits each.
pub(crate) fn write_bytes<W: Sink>(
    writer: &mut W,
    device: &Device,
    at: usize,
    count: usize,
) -> Result<(), Refusal> {
    let shown = bytes(device).get(at..).unwrap_or_default();
    let count = count.min(MAX_SHOWN).min(shown.len());
    let mut line = Line::new();
    match put_digits(&mut line, &shown[..count]) {
        Ok(()) => writer.put(line.as_slice()),
        Err(_) => Err(writer.give_up()),
    }
}

/// A sum over the bytes, which differs where any byte does that stands alone (FNV-1a, 64 bits).
fn fingerprint_of(bytes: &[u8]) -> u64 {
    let mut sum = 0xcbf2_9ce4_8422_2325_u64;
    for byte in bytes {
        sum = (sum ^ u64::from(*byte)).wrapping_mul(0x100_0000_01b3);
    }
    sum
}

/// Writes how many bytes there are, and their fingerprint.
pub(crate) fn write_fingerprint<W: Sink>(writer: &mut W, bytes: &[u8]) -> Result<(), Refusal> {
    let (size, sum) = (bytes.len(), fingerprint_of(bytes));
    write_line(writer, format_args!("fingerprint {size} {sum}"))
}
