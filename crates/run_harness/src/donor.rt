//! The donor: a node on a disk of its own, whose snapshot, or what it writes for another node, that is handed.

ghost use Rattle.std.specs.Prelude.{◌≡◌, ◌++◌, Some, IfOk, OnOk};
ghost use Rattle.rep_layout.specs.Windows.{IsWindowAt};

use rep_disk::Disk;
use rep_layout::{WINDOW_BODY, WindowReader};
use rep_replica::Replica;
use rep_script::{write_line, write_refused};
use rep_streams::Sink;
use rep_types::{Entry, Refusal, Window};
use std::alloc::Global;
use std::marker::Model;
use std::mem::replace;
use uuid::Uuid;

/// A transfer that was written: a sink of its own, which fails only for want of memory.
#[derive(Drop)]
pub(crate) struct Written {
    pub(crate) bytes: Vec<u8>,
    failed: bool,
}

impl Sink for Written {
    ghost contents = { λ s. Some s.bytes.items };

    ghost failed = { λ s. s.failed };

    fn put(&mut self, bytes: &[u8]) -> Result<(), Refusal> {
        if self.bytes.extend_from_slice(bytes).is_err() {
            self.failed = true;
            return Err(Refusal::StreamFault);
        }
        Ok(())
    }

    fn give_up(&mut self) -> Refusal {
        self.failed = true;
        Refusal::StreamFault
    }
}

/// A donor, and the transfer that it wrote last. It has no `Drop`, as a `Bench` has none: `into_disk` lets it go.
pub(crate) struct Donor<D: Disk> {
    pub(crate) node: Replica<D>,
    pub(crate) transfer: Written,
}

impl<D: Disk> Donor<D> {
    /// The disk, of a donor that is let go.
    pub(crate) fn into_disk(self) -> D {
        let Donor {
            node,
            transfer: _transfer,
        } = self;
        node.into_disk()
    }
}

/// What a donor tells of its base: the cluster, the position, and the window there.
#[derive(Drop)]
pub(crate) struct Snapshot {
    pub(crate) uuid: Uuid,
    pub(crate) position: u64,
    pub(crate) window: Window,
}

/// Opens the disk as that of a donor, and writes what came of it. The donor, where there is one, comes beside whether that was written.
fn lent<D: Disk + Drop, W: Sink>(
    alloc: Global,
    disk: D,
    writer: &mut W,
) -> (Option<Donor<D>>, Result<(), Refusal>) {
    match Replica::open(alloc, disk) {
        Ok(node) => {
            let (gtid, base) = (node.gtid(), node.base());
            let written = write_line(writer, format_args!("lent {gtid} base {base}"));
            let transfer = Written {
                bytes: Vec::new(alloc),
                failed: false,
            };
            (Some(Donor { node, transfer }), written)
        }
        Err((_, refusal)) => (None, write_refused(writer, refusal)),
    }
}

/// Has the disk be that of the donor from now on, and writes what came of it. The donor before is let go.
pub(crate) fn lend<D: Disk + Drop, W: Sink>(
    alloc: Global,
    disk: D,
    donor: &mut Option<Donor<D>>,
    writer: &mut W,
) -> Result<(), Refusal> {
    let (lent, written) = lent(alloc, disk, writer);
    let_go(replace(donor, lent));
    written
}

/// Lets the donor go, where there is one, and its disk.
pub(crate) fn let_go<D: Disk + Drop>(donor: Option<Donor<D>>) {
    if let Some(donor) = donor {
        drop(donor.into_disk());
    }
}

/// Adds the entries that a window still hands out.
fn push_entries(mut reader: WindowReader<'_>, entries: &mut Vec<Entry>) -> Result<(), Refusal>
    ensures { OnOk result (entries.new.items ≡ entries.old.items ++ reader.entry.kept.entries) }
{
    while let Some(entry) = reader.next_entry() {
        entries.push(entry)?;
    }
    Ok(())
}

/// The window that is read.
fn window_of(alloc: Global, reader: WindowReader<'_>) -> Result<Window, Refusal>
    ensures { IfOk result (λ window. window ≡ reader.entry.kept) }
{
    let (size, floor) = (reader.size(), reader.floor());
    let mut entries = Vec::new(alloc);
    push_entries(reader, &mut entries)?;
    Ok(Window::new(size, floor, entries))
}

/// What the donor tells of its base.
pub(crate) fn snapshot_of<D: Disk>(
    alloc: Global,
    donor: &mut Replica<D>,
) -> Result<Snapshot, Refusal>
    ensures { IfOk result (λ snapshot. IsWindowAt donor.new.engine.checkpoint.base.params snapshot.position snapshot.window) }
{
    let uuid = donor.uuid();
    let mut room = [0; WINDOW_BODY];
    let reader = donor.base_window(&mut room)?;
    let position = reader.position();
    let window = window_of(alloc, reader)?;
    Ok(Snapshot {
        uuid,
        position,
        window,
    })
}
