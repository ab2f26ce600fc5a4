//! How a node is handed the snapshot of a donor, or what the donor writes for it.

ghost use Rattle.std.specs.Prelude.{◌≡◌, ◌<◌, ◌↔◌, ◌⊎◌, true};
ghost use Rattle.rep_forms.specs.Forms.{IsPart};
ghost use Rattle.rep_layout.specs.Supers.{IsNil};
ghost use Rattle.rep_layout.specs.Windows.{IsWindowAt};
ghost use Rattle.rep_engine.specs.Engines.{durable_of};
ghost use Rattle.rep_engine.specs.Installing.{CanBring};
ghost use Rattle.rep_replica.specs.Replicas.{facts_of};
ghost use Rattle.rep_replica.specs.Settling.{is_quiet};

use crate::catchup::{spoilt, taken, written_for};
use crate::donor::{Donor, Snapshot, snapshot_of};
use crate::node::{Bench, Left};
use crate::order::JoinOrder;
use arrayvec::ArrayVec;
use rep_disk::Disk;
use rep_forms::put_bytes;
use rep_pages::PageRows;
use rep_replica::{Installation, Replica};
use rep_script::{write_line, write_refused};
use rep_streams::Sink;
use rep_types::{Gtid, MAX_SEQNO, Params, Refusal};
use std::alloc::Global;
use uuid::Uuid;

/// A UUID has 16 bytes.
fn know_uuid(uuid: &Uuid)
    ensures { IsPart 16 uuid.now }
{
    let mut room: ArrayVec<u8, 16> = ArrayVec::new();
    put_bytes(&mut room, uuid.as_bytes());
}

/// Whether they are the same parameters.
fn are_same(one: &Params, other: &Params) -> bool
    ensures { result ≡ true → one.now ≡ other.now }
{
    one.window() == other.window()
        && one.cells() == other.cells()
        && one.schema().rows() == other.schema().rows()
}

/// Whether it is the UUID of no cluster.
fn is_nil(uuid: &Uuid) -> bool
    ensures { (result ≡ true) ↔ IsNil uuid.now }
{
    uuid.is_nil()
}

/// Whether the snapshot goes on from the node: it is of its cluster and above what is durable, or the node is of no cluster yet.
fn goes_on<D: Disk>(node: &Replica<D>, snapshot: &Snapshot) -> bool
    ensures cluster { result ≡ true → (snapshot.now.uuid ≡ node.now.engine.checkpoint.base.uuid) ⊎ IsNil node.now.engine.checkpoint.base.uuid }
    ensures later { result ≡ true → (durable_of node.now.engine.log < snapshot.now.position) ⊎ IsNil node.now.engine.checkpoint.base.uuid }
{
    let own = node.uuid();
    is_nil(&own) || (own == snapshot.uuid && node.durable() < snapshot.position)
}

/// Whether the snapshot of a donor with these parameters is for the node.
fn is_for<D: Disk>(node: &Replica<D>, params: &Params, snapshot: &Snapshot) -> bool
    requires { IsWindowAt params.now snapshot.now.position snapshot.now.window }
    ensures quiet { result ≡ true → is_quiet (facts_of D.Disk node.now) ≡ true }
    ensures brings { result ≡ true → CanBring node.now.engine.checkpoint.base (durable_of node.now.engine.log) snapshot.now.uuid snapshot.now.position snapshot.now.window }
{
    know_uuid(&snapshot.uuid);
    node.is_quiet()
        && are_same(node.params(), params)
        && !is_nil(&snapshot.uuid)
        && snapshot.position <= MAX_SEQNO
        && goes_on(node, snapshot)
}

/// Begins to install the snapshot, which is for the node, and writes what came of it.
fn begun<D: Disk, W: Sink>(
    alloc: Global,
    node: Replica<D>,
    snapshot: Snapshot,
    writer: &mut W,
) -> Left<D>
    requires quiet { is_quiet (facts_of D.Disk node) ≡ true }
    requires brings { CanBring node.engine.checkpoint.base (durable_of node.engine.log) snapshot.uuid snapshot.position snapshot.window }
{
    let Snapshot {
        uuid,
        position,
        window,
    } = snapshot;
    match node.install(alloc, uuid, position, window) {
        Ok(installation) => {
            let written = write_line(writer, format_args!("installing {position}"));
            (Bench::Coming(installation), written)
        }
        Err((node, refusal)) => (Bench::Node(node), write_refused(writer, refusal)),
    }
}

/// Begins to install the donor's snapshot where it is for the node, and writes what came of it.
fn bring<D: Disk, E: Disk, W: Sink>(
    alloc: Global,
    node: Replica<D>,
    donor: &mut Replica<E>,
    writer: &mut W,
) -> Left<D> {
    match snapshot_of(alloc, donor) {
        Ok(snapshot) if is_for(&node, donor.params(), &snapshot) => {
            begun(alloc, node, snapshot, writer)
        }
        Ok(_) => (Bench::Node(node), write_line(writer, "not for this node")),
        Err(refusal) => (Bench::Node(node), write_refused(writer, refusal)),
    }
}

/// Puts the page, where it can come, and writes what came of it.
fn put_page<D: Disk, W: Sink>(
    installation: &mut Installation<D>,
    page: u32,
    rows: PageRows,
    writer: &mut W,
) -> Result<(), Refusal> {
    if !installation.takes(page, &rows) {
        return write_line(writer, "not a new page");
    }
    match installation.put_page(page, rows) {
        Ok(()) => write_line(writer, "page"),
        Err(refusal) => write_refused(writer, refusal),
    }
}

/// Puts this page of the donor's base, where that has it, and writes what came of it.
fn put_page_of<D: Disk, E: Disk, W: Sink>(
    installation: &mut Installation<D>,
    donor: &mut Replica<E>,
    page: u32,
    writer: &mut W,
) -> Result<(), Refusal> {
    match donor.base_page(page) {
        Ok(Some(found)) => put_page(installation, page, found.rows, writer),
        Ok(None) => write_line(writer, "no page"),
        Err(refusal) => write_refused(writer, refusal),
    }
}

/// Writes what came of a snapshot, behind which the node is at this GTID.
fn write_installed<W: Sink>(
    writer: &mut W,
    gtid: Gtid,
    outcome: Result<(), Refusal>,
) -> Result<(), Refusal> {
    match outcome {
        Ok(()) => write_line(writer, format_args!("installed {gtid}")),
        Err(refusal) => write_refused(writer, refusal),
    }
}

/// Lets the snapshot take its place, and writes what came of it.
fn ended<D: Disk, W: Sink>(installation: Installation<D>, writer: &mut W) -> Left<D> {
    let (node, outcome) = installation.end();
    let written = write_installed(writer, node.gtid(), outcome);
    (Bench::Node(node), written)
}

/// Does this to the snapshot that comes to a node, and writes what came of it.
fn coming<D: Disk, E: Disk, W: Sink>(
    mut installation: Installation<D>,
    donor: &mut Replica<E>,
    order: JoinOrder,
    writer: &mut W,
) -> Left<D> {
    match order {
        JoinOrder::Page(page) => {
            let written = put_page_of(&mut installation, donor, page, writer);
            (Bench::Coming(installation), written)
        }
        JoinOrder::End => ended(installation, writer),
        JoinOrder::GiveUp => (
            Bench::Node(installation.give_up()),
            write_line(writer, "as before"),
        ),
        _ => (Bench::Coming(installation), write_line(writer, "off")),
    }
}

/// Does this with the transfer that comes from the donor, for a node that stays as it is, and writes what came of it.
fn at_transfer<D: Disk, E: Disk, W: Sink>(
    node: &Replica<D>,
    donor: &mut Donor<E>,
    order: JoinOrder,
    writer: &mut W,
) -> Result<(), Refusal> {
    match order {
        JoinOrder::Donate => written_for(node, donor, writer),
        JoinOrder::Spoil(harm) => spoilt(&mut donor.transfer.bytes, harm, writer),
        _ => write_line(writer, "off"),
    }
}

/// Does this with the donor for a node to which no snapshot comes, and writes what came of it.
fn at_joiner<D: Disk, E: Disk, W: Sink>(
    alloc: Global,
    node: Replica<D>,
    donor: &mut Donor<E>,
    order: JoinOrder,
    writer: &mut W,
) -> Left<D> {
    match order {
        JoinOrder::Bring => bring(alloc, node, &mut donor.node, writer),
        JoinOrder::Join => taken(alloc, node, &donor.transfer.bytes, writer),
        order => {
            let written = at_transfer(&node, donor, order, writer);
            (Bench::Node(node), written)
        }
    }
}

/// Does this with the donor: what is done for a node where there is one, and what is done with a snapshot where one comes to it. Writes what
/// came of it.
pub(crate) fn joined<D: Disk, E: Disk, W: Sink>(
    alloc: Global,
    bench: Bench<D>,
    donor: &mut Option<Donor<E>>,
    order: JoinOrder,
    writer: &mut W,
) -> Left<D> {
    match (bench, donor) {
        (Bench::Node(node), Some(donor)) => at_joiner(alloc, node, donor, order, writer),
        (Bench::Coming(installation), Some(donor)) => {
            coming(installation, &mut donor.node, order, writer)
        }
        (bench, _) => (bench, write_line(writer, "off")),
    }
}
