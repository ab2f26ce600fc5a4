//! What a donor writes for a joiner.

ghost use Rattle.std.specs.Prelude.{◌≡◌, ◌≢◌, ◌↔◌, [], ◌∷◌, true, length, Option, None, Err, is_some, IfOk, IfErr, IfSome, OnOk, OnErr};
ghost use Rattle.std.specs.List.{flat_map, AllByRecursion};
ghost use Rattle.std.specs.Io.KnownBytes.{Appends, Keeps};
ghost use Rattle.rep_types.specs.declared.refusal.Refusal.TheVariants.{DiskFault};
ghost use Rattle.rep_types.specs.Settings.{pages_of};
ghost use Rattle.rep_types.specs.declared.refusal.Part.{Part};
ghost use Rattle.rep_types.specs.declared.refusal.Part.TheVariants.{Log as in_log};
ghost use Rattle.rep_disk.specs.Calls.{Rises};
ghost use Rattle.rep_forms.specs.Entries.{EntryFits, entry_bytes};
ghost use Rattle.rep_record.specs.Records.{IsRecord};
ghost use Rattle.rep_record.specs.Blocks.{IsBlock};
ghost use Rattle.rep_layout.specs.declared.format.Format.TheVariants.{Two};
ghost use Rattle.rep_layout.specs.Supers.{IsNil};
ghost use Rattle.rep_steps.specs.Nodes.{Node};
ghost use Rattle.rep_replica.specs.Replicas.{facts_of};
ghost use Rattle.rep_replica.specs.Holding.{Holds};
ghost use Rattle.rep_replica.specs.Asking.{IsAsked};
ghost use Rattle.rep_streams.specs.Streams.{Notes};
ghost use Rattle.rep_transfer.specs.Writing.{Wrote};
ghost use Rattle.rep_catchup.specs.Donating.{IsAskedFor, IsOfCluster, IsFirstRefusal, ComesFirst, EndsEarly, IsRunning, Leaves, IsDonated, NeedsSnapshot, StandsBeside, ArePagesBelow, IsPageFor, IsSnapshotFor, IsBaseFor, AreAllBlocks, window_part, page_part, tail_part, Writes, KnowsWindow, KnowsPage, KnowsPages, KnowsSnapshot, KnowsBase, KnowsBlocks, Donates, WroteTransfer, WroteLess, DonatesAsSpelled, as_seen, held_below, above};
ghost use Rattle.rep_transfer.specs.Pieces.{page_bytes};
ghost use Rattle.rep_transfer.specs.Transfers.{Snapshot, Transfer, snapshot_bytes, snapshot_part, record_part, transfer_bytes};

use rep_disk::Disk;
use rep_layout::{Format, LOG_BODY, WINDOW_BODY, WindowReader, row_places_are_told};
use rep_record::BlockReader;
use rep_replica::{Replica, the_tail_is_told};
use rep_streams::Sink;
use rep_transfer::{
    Have, Header, NumberedPage, Shape, write_count, write_end, write_entry, write_front,
    write_header, write_page, write_record,
};
use rep_types::{Judged, Refusal};

/// Whether the joiner is of the donor's cluster, or of none yet, and has its shape.
fn is_of_cluster<D: Disk>(replica: &Replica<D>, have: &Have) -> bool
    ensures { (result ≡ true) ↔ IsOfCluster (facts_of D.Disk replica.now) have.now }
{
    have.shape.is_of(replica.params()) && (have.uuid.is_nil() || have.uuid == replica.uuid())
}

/// Why nothing is donated to this joiner, the first reason that applies: the donor is stopped; it belongs to no cluster; the joiner is of
/// another cluster, window or schema; or it has more of the order than is durable at the donor.
pub fn donation_refusal<D: Disk>(replica: &Replica<D>, have: &Have) -> Option<Refusal>
    ensures first { IsFirstRefusal (facts_of D.Disk replica.now) have.now result }
    ensures kinds { IfSome result ComesFirst }
    ensures only { (o : Option Refusal) → IsFirstRefusal (facts_of D.Disk replica.now) have.now o → o ≡ result }
{
    if replica.is_stopped() {
        return Some(Refusal::Stopped);
    }
    if replica.uuid().is_nil() {
        return Some(Refusal::Undefined);
    }
    if !is_of_cluster(replica, have) {
        return Some(Refusal::WrongCluster);
    }
    let durable = replica.durable();
    if have.position > durable {
        Some(Refusal::Ahead { position: durable })
    } else {
        None
    }
}

/// Whether the joiner needs a snapshot: it is of no cluster yet, or not even at the donor's base.
fn needs_snapshot<D: Disk>(replica: &Replica<D>, have: &Have) -> bool
    ensures { (result ≡ true) ↔ NeedsSnapshot replica.now.engine.checkpoint.base.position have.now }
{
    have.uuid.is_nil() || have.position < replica.base()
}

/// How many pages the tables take.
fn page_count<D: Disk>(replica: &Replica<D>) -> u16
    ensures { result ≡ pages_of replica.now.engine.checkpoint.base.params.rows }
{
    let schema = replica.params().schema();
    // For its clause: the limits of a schema.
    schema.rows();
    schema.pages() as u16
}

/// How many pages the base has in a slot.
fn count_pages<D: Disk>(replica: &Replica<D>) -> u16
    ensures { result ≡ length (held_below replica.now.engine.checkpoint.base (pages_of replica.now.engine.checkpoint.base.params.rows)) }
{
    let mut count = 0;
    for page in 0..page_count(replica) {
        if replica.has_base_page(u32::from(page)) {
            count += 1;
        }
    }
    count
}

/// Writes the entries that a window still hands out.
fn write_entries<W: Sink>(window: WindowReader<'_>, writer: &mut W) -> Result<(), Refusal>
    ensures written { Wrote (W.contents writer.old) (W.contents writer.new) (flat_map entry_bytes window.entry.kept.entries) result }
    ensures fit { OnOk result (AllByRecursion EntryFits window.entry.kept.entries) }
    ensures notes { Notes (W.failed writer.old) (W.failed writer.new) result }
{
    let mut window = window;
    while let Some(entry) = window.next_entry() {
        write_entry(writer, &entry)?;
    }
    Ok(())
}

/// Writes the position of the base, and its window: size and floor, how many entries it has, and these.
fn write_window<D: Disk, W: Sink>(replica: &mut Replica<D>, writer: &mut W) -> Result<(), Refusal>
    requires { IsRunning replica.old }
    ensures leaves { Leaves D.Disk replica.old replica.new (W.failed writer.old) (W.failed writer.new) result }
    ensures writes { Writes (window_part replica.old.engine.checkpoint.base) (StandsBeside replica.old.engine.checkpoint.base) (λ done. KnowsWindow D.Disk replica.old) (W.contents writer.old) (W.contents writer.new) result }
{
    let mut room = [0; WINDOW_BODY];
    let position = replica.base();
    // For its clause: the limits of the parameters.
    replica.params().window();
    let window = replica.base_window(&mut room)?;
    write_front(writer, position, window.size(), window.floor())?;
    write_count(writer, window.len() as u16)?;
    write_entries(window, writer)
}

/// Writes the page of this number, where the base has it in a slot.
fn write_base_page<D: Disk, W: Sink>(
    replica: &mut Replica<D>,
    number: u16,
    writer: &mut W,
) -> Result<(), Refusal>
    requires { IsRunning replica.old }
    ensures leaves { Leaves D.Disk replica.old replica.new (W.failed writer.old) (W.failed writer.new) result }
    ensures writes { Writes page_part (IsPageFor replica.old.engine.checkpoint.base number) (λ done. KnowsPage D.Disk replica.old number) (W.contents writer.old) (W.contents writer.new) result }
{
    match replica.base_page(u32::from(number))? {
        Some(found) => {
            let page = NumberedPage {
                number,
                rows: found.rows,
            };
            write_page(writer, &page)
        }
        None => Ok(()),
    }
}

/// Writes the pages that the base has in a slot.
fn write_pages<D: Disk, W: Sink>(replica: &mut Replica<D>, writer: &mut W) -> Result<(), Refusal>
    requires { IsRunning replica.old }
    ensures leaves { Leaves D.Disk replica.old replica.new (W.failed writer.old) (W.failed writer.new) result }
    ensures writes { Writes (flat_map page_bytes) (ArePagesBelow replica.old.engine.checkpoint.base (pages_of replica.old.engine.checkpoint.base.params.rows)) (λ done. KnowsPages D.Disk replica.old (pages_of replica.old.engine.checkpoint.base.params.rows)) (W.contents writer.old) (W.contents writer.new) result }
{
    for number in 0..page_count(replica) {
        write_base_page(replica, number, writer)?;
    }
    Ok(())
}

/// Writes a snapshot of the base.
fn write_snapshot<D: Disk, W: Sink>(replica: &mut Replica<D>, writer: &mut W) -> Result<(), Refusal>
    requires { IsRunning replica.old }
    ensures leaves { Leaves D.Disk replica.old replica.new (W.failed writer.old) (W.failed writer.new) result }
    ensures writes { Writes (snapshot_bytes Two) (IsSnapshotFor replica.old.engine.checkpoint.base) (λ done. KnowsSnapshot D.Disk replica.old) (W.contents writer.old) (W.contents writer.new) result }
{
    row_places_are_told();
    write_window(replica, writer)?;
    let count = count_pages(replica);
    write_count(writer, count)?;
    write_pages(replica, writer)
}

/// Writes a snapshot of the base, where the joiner needs one, and answers the position behind which the records come.
fn write_base<D: Disk, W: Sink>(
    replica: &mut Replica<D>,
    have: &Have,
    writer: &mut W,
) -> Result<u64, Refusal>
    requires { IsRunning replica.old }
    ensures leaves { Leaves D.Disk replica.old replica.new (W.failed writer.old) (W.failed writer.new) result }
    ensures asked { (part : Part) → result ≡ Err (Refusal.Corrupt part) → NeedsSnapshot replica.old.engine.checkpoint.base.position have.now }
    ensures writes { Writes (snapshot_part Two) (IsBaseFor replica.old.engine.checkpoint.base have.now) (KnowsBase D.Disk replica.old have.now) (W.contents writer.old) (W.contents writer.new) result }
{
    if !needs_snapshot(replica, have) {
        return Ok(have.position);
    }
    write_snapshot(replica, writer)?;
    Ok(replica.base())
}

/// Writes the record if it is above the position.
fn write_above<W: Sink>(judged: &Judged, position: u64, writer: &mut W) -> Result<(), Refusal>
    requires { IsRecord judged.now }
    ensures written { Wrote (W.contents writer.old) (W.contents writer.new) (flat_map record_part (above position (judged.now ∷ []))) result }
    ensures notes { Notes (W.failed writer.old) (W.failed writer.new) result }
{
    if judged.seqno > position {
        write_record(writer, judged)
    } else {
        Ok(())
    }
}

/// Writes the block's records above the position.
fn write_block<W: Sink>(
    block: BlockReader<'_>,
    position: u64,
    writer: &mut W,
) -> Result<(), Refusal>
    requires { IsBlock block.cell block.records }
    ensures written { Wrote (W.contents writer.old) (W.contents writer.new) (flat_map record_part (above position block.entry.records)) result }
    ensures notes { Notes (W.failed writer.old) (W.failed writer.new) result }
{
    let mut block = block;
    while let Some(judged) = block.next_record() {
        write_above(&judged, position, writer)?;
    }
    Ok(())
}

/// Writes the durable items behind the base that are above the position.
fn write_tail<D: Disk, W: Sink>(
    replica: &mut Replica<D>,
    position: u64,
    writer: &mut W,
) -> Result<(), Refusal>
    requires { IsRunning replica.old }
    ensures leaves { Leaves D.Disk replica.old replica.new (W.failed writer.old) (W.failed writer.new) result }
    ensures asked { (part : Part) → result ≡ Err (Refusal.Corrupt part) → part ≡ in_log }
    ensures writes { Writes (tail_part position) (AreAllBlocks replica.old.engine.log) (λ done. KnowsBlocks D.Disk replica.old) (W.contents writer.old) (W.contents writer.new) result }
{
    the_tail_is_told();
    let mut room = [0; LOG_BODY];
    let mut index = 0;
    while let Some(block) = replica.tail_block(index, &mut room)? {
        write_block(block, position, writer)?;
        index += 1;
    }
    Ok(())
}

/// Tells the proof that there is something to write, whatever the base is.
fn some_base_comes<D: Disk>(replica: &Replica<D>, have: &Have)
    ensures { (s : Option Snapshot) × IsBaseFor replica.now.engine.checkpoint.base have.now s }
{
    // For their clauses: the limits of the position and of the parameters.
    replica.base();
    replica.params().window();
    needs_snapshot(replica, have);
}

/// Writes the transfer of a donor of a cluster that is not stopped, and answers where it ends.
fn write_transfer<D: Disk, W: Sink>(
    replica: &mut Replica<D>,
    have: &Have,
    writer: &mut W,
) -> Result<u64, Refusal>
    requires running { IsRunning replica.old }
    requires defined { IsNil replica.old.engine.checkpoint.base.uuid → ⊥ }
    ensures leaves { Leaves D.Disk replica.old replica.new (W.failed writer.old) (W.failed writer.new) result }
    ensures asked { (part : Part) → result ≡ Err (Refusal.Corrupt part) → IsAskedFor replica.old.engine.checkpoint.base have.now part }
    ensures donates { IfOk result (Donates D.Disk replica.old have.now (W.contents writer.old) (W.contents writer.new)) }
    ensures cut { OnErr result (WroteLess replica.old.engine.checkpoint.base replica.old.engine.log have.now (W.contents writer.old) (W.contents writer.new)) }
{
    let header = Header {
        format: Format::Two,
        uuid: replica.uuid(),
        shape: Shape::of(replica.params()),
    };
    some_base_comes(replica, have);
    let last = replica.durable();
    write_header(writer, &header)?;
    let position = write_base(replica, have, writer)?;
    write_tail(replica, position, writer)?;
    write_end(writer, last)?;
    Ok(last)
}

/// Writes what the joiner lacks, and answers the position that it then has: what is durable at the donor. Where the joiner is of the
/// donor's cluster and at or past the donor's base, that is the durable items above its position; else a snapshot of the base, and all
/// durable items behind it. Nothing changes at the donor. The transfer is of format 2, whichever format its base is of on its disk: a
/// snapshot has the base's window with size and floor.
///
/// Refuses, in this order, with `Stopped`; with `Undefined` where the donor belongs to no cluster; with `WrongCluster` a joiner of
/// another cluster, or of another first window size or schema; and with `Ahead` one that has more of the order than is durable here: so far nothing
/// is written. Then with `StreamFault` where the sink fails; with `DiskFault` where the device fails, and then alone the replica is stopped;
/// and with `Corrupt` where the device shows what is not of its form, which an honest device does only where its bytes are bad. What was
/// written by then is a front of a transfer with all parts, and shorter: so it is no transfer.
pub fn donate<D: Disk, W: Sink>(
    replica: &mut Replica<D>,
    have: &Have,
    writer: &mut W,
) -> Result<u64, Refusal>
    ensures refusal { (o : Option Refusal) → IsFirstRefusal (facts_of D.Disk replica.old) have.now o → IfSome o (λ e. (result ≡ Err e) × (replica.new ≡ replica.old) × Keeps (W.contents writer.old) (W.contents writer.new)) }
    ensures early { IsFirstRefusal (facts_of D.Disk replica.old) have.now None → IfErr result EndsEarly }
    // The device was asked, and nothing else was done: so it is a part of a life.
    ensures reads { IsAsked D.Disk replica.old replica.new }
    ensures holds { (n : Node) → Holds D.Disk n replica.old → result ≢ Err Refusal.DiskFault → Holds D.Disk n replica.new }
    // An honest device of a node shows nothing that is not of its form.
    ensures whole { (n : Node) → Holds D.Disk n replica.old → (part : Part) → result ≢ Err (Refusal.Corrupt part) }
    ensures fault { result ≡ Err Refusal.DiskFault → Rises (D.failures replica.old.engine.disk) (D.failures replica.new.engine.disk) × (is_some replica.new.engine.halted ≡ true) }
    ensures runs { result ≢ Err Refusal.DiskFault → replica.new.engine.halted ≡ replica.old.engine.halted }
    ensures no_fault { result ≢ Err Refusal.DiskFault → D.failures replica.new.engine.disk ≡ D.failures replica.old.engine.disk }
    // On an honest device of a node what is written is what the joiner needs, whole.
    ensures donated { (n : Node) → Holds D.Disk n replica.old → IfOk result (λ last. (t : Transfer) × IsDonated n have.now t × (t.last ≡ last) × Appends (W.contents writer.old) (W.contents writer.new) (transfer_bytes t)) }
    // On any device what is written is a transfer with all parts, or where it is refused a front of one, and shorter: so it is no transfer.
    ensures wrote { IfOk result (WroteTransfer replica.old.engine.checkpoint.base replica.old.engine.log have.now (W.contents writer.old) (W.contents writer.new)) }
    ensures cut { IsFirstRefusal (facts_of D.Disk replica.old) have.now None → OnErr result (WroteLess replica.old.engine.checkpoint.base replica.old.engine.log have.now (W.contents writer.old) (W.contents writer.new)) }
    // A part is told corrupt only where it is asked for.
    ensures asked { (part : Part) → result ≡ Err (Refusal.Corrupt part) → IsAskedFor replica.old.engine.checkpoint.base have.now part }
    // Whatever stands on an honest device: its bytes decide.
    ensures spelled { D.honest replica.old.engine.disk → DonatesAsSpelled (as_seen D.Disk replica.old.engine) replica.old.engine.layout replica.old.engine.checkpoint.base replica.old.engine.log have.now (W.contents writer.old) (W.contents writer.new) result }
    ensures notes { Notes (W.failed writer.old) (W.failed writer.new) result }
{
    if let Some(refusal) = donation_refusal(replica, have) {
        return Err(refusal);
    }
    write_transfer(replica, have, writer)
}
