//! How a node is brought up to date by a donor: what that writes for it goes through a list of bytes, which may come to harm on its way.

use crate::donor::Donor;
use crate::node::{Bench, Left};
use crate::order::Harm;
use crate::shown::write_fingerprint;
use rep_catchup::{donate, have, join};
use rep_disk::Disk;
use rep_replica::Replica;
use rep_script::{write_line, write_refused};
use rep_streams::{MemorySource, Sink};
use rep_types::Refusal;
use std::alloc::Global;
use uuid::Uuid;

/// Writes what came of a donation.
fn write_donated<W: Sink>(writer: &mut W, donated: Result<u64, Refusal>) -> Result<(), Refusal> {
    match donated {
        Ok(last) => write_line(writer, format_args!("donated {last}")),
        Err(refusal) => write_refused(writer, refusal),
    }
}

/// Has the donor write a transfer for the node, and writes what came of it, and which bytes were written.
pub(crate) fn written_for<D: Disk, E: Disk, W: Sink>(
    node: &Replica<D>,
    donor: &mut Donor<E>,
    writer: &mut W,
) -> Result<(), Refusal> {
    donor.transfer.bytes.clear();
    let donated = donate(&mut donor.node, &have(node), &mut donor.transfer);
    write_donated(writer, donated)?;
    write_fingerprint(writer, &donor.transfer.bytes)
}

/// Lets the transfer come to harm, and writes how many bytes it has then.
pub(crate) fn spoilt<W: Sink>(
    transfer: &mut Vec<u8>,
    harm: Harm,
    writer: &mut W,
) -> Result<(), Refusal> {
    match harm {
        Harm::Shorten(size) => transfer.truncate(size as usize),
        Harm::Change(at, byte) => {
            if let Some(place) = transfer.get_mut(at as usize) {
                *place = byte;
            }
        }
    }
    let size = transfer.len();
    write_line(writer, format_args!("spoilt {size}"))
}

/// Writes what came of a transfer for a node of this cluster.
fn write_joined<W: Sink>(
    writer: &mut W,
    uuid: Uuid,
    joined: Result<u64, Refusal>,
) -> Result<(), Refusal> {
    match joined {
        Ok(last) => write_line(writer, format_args!("joined {uuid}:{last}")),
        Err(refusal) => write_refused(writer, refusal),
    }
}

/// Has the node take the transfer, and writes what came of it.
pub(crate) fn taken<D: Disk, W: Sink>(
    alloc: Global,
    node: Replica<D>,
    transfer: &[u8],
    writer: &mut W,
) -> Left<D> {
    let mut transfer = MemorySource::new(transfer);
    let (node, joined) = join(alloc, node, &mut transfer);
    let written = write_joined(writer, node.uuid(), joined);
    (Bench::Node(node), written)
}
