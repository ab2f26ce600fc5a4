//! How a joiner takes a transfer.

ghost use Rattle.std.specs.Prelude.{◌≡◌, ◌↔◌, ◌||◌, ◌⊎◌, ℕ, ◌<◌, ◌≤◌, List, [], ◌∷◌, true, false, is_some, length, Option, None, Some, Ok, Err, IfOk, IfErr, IfSome, OnOk, OnErr};
ghost use Rattle.std.specs.Io.KnownBytes.{Consumes};
ghost use Rattle.rep_types.specs.declared.refusal.Refusal.TheVariants.{Stopped};
ghost use Rattle.rep_types.specs.declared.limits.TheConstants.{MAX_SEQNO, MAX_AHEAD};
ghost use Rattle.rep_record.specs.Records.{IsRecord};
ghost use Rattle.rep_cert.specs.Holdings.{verdict_of};
ghost use Rattle.rep_layout.specs.Supers.{IsNil};
ghost use Rattle.rep_steps.specs.Standings.{delivered};
ghost use Rattle.rep_steps.specs.Nodes.{Node};
ghost use Rattle.rep_replica.specs.Replicas.{facts_of};
ghost use Rattle.rep_replica.specs.Holding.{Holds};
ghost use Rattle.rep_replica.specs.Settling.{is_quiet, IsRunning, EndsEarly};
ghost use Rattle.rep_streams.specs.Streams.{Notes};
ghost use Rattle.rep_transfer.specs.declared.part.Part.TheVariants.{Snapshot, Record};
ghost use Rattle.rep_transfer.specs.Taking.{counted};
ghost use Rattle.rep_transfer.specs.Haves.{IsHeader};
ghost use Rattle.rep_transfer.specs.Transfers.{PartFits, part_bytes};
ghost use Rattle.rep_catchup.specs.Growing.{Grown, where_ok, EndsRunning, Tells};
ghost use Rattle.rep_catchup.specs.Joining.{JoinsEarly, Lived, Joined, TookTransfer, TakesHeader, RefusesHeader, Follows, Followed, FollowedFrom, IsOut, Cut, TakesAll, CutShort, Ended};

use crate::snapshot::bring;
use rep_disk::Disk;
use rep_replica::{Replica, runs_are_joined};
use rep_steps::{
    Answer, Event, nodes_hold_the_order, nodes_stay_nodes, runs_come_to, steps_follow_the_order,
};
use rep_streams::Source;
use rep_transfer::{Header, Part, TransferReader, next_part};
use rep_types::{Item, Judged, MAX_AHEAD, Refusal, Verdict, history_by_items};
use std::alloc::Global;

/// Takes the header: what cluster the transfer is of, and in which format a snapshot is spelled in it.
///
/// Refuses with `StreamFault` where the source fails, with `Malformed` what is no header, and with `WrongCluster` one of another cluster
/// than the replica's, or of another window or schema.
fn take_header<D: Disk, R: Source>(
    replica: &Replica<D>,
    transfer: &mut TransferReader,
    reader: &mut R,
) -> Result<Header, Refusal>
    ensures taken { IfOk result (λ header. TakesHeader (facts_of D.Disk replica.now) header (R.remaining reader.old) (R.remaining reader.new)) }
    ensures refused { IfErr result (RefusesHeader (facts_of D.Disk replica.now) (R.remaining reader.old)) }
    ensures counted { OnOk result (transfer.new ≡ counted transfer.old 59) }
    ensures notes { Notes (R.failed reader.old) (R.failed reader.new) result }
{
    let Some(header) = transfer.next::<Header, R>(reader)? else {
        return Err(Refusal::Malformed { at: 0 });
    };
    let own = replica.uuid();
    if !header.shape.is_of(replica.params()) || (!own.is_nil() && own != header.uuid) {
        return Err(Refusal::WrongCluster);
    }
    Ok(header)
}

/// Lets the replica do what is due, until all that was delivered is durable.
fn settle<D: Disk>(replica: &mut Replica<D>) -> Result<(), Refusal>
    requires running { IsRunning replica.old }
    ensures grown { Grown D.Disk replica.old replica.new [] }
    ensures ends { EndsRunning result replica.new }
    ensures tells { Tells D.Disk replica.old replica.new result }
    ensures quiet { OnOk result (is_quiet (facts_of D.Disk replica.new) ≡ true) }
    ensures refused { IfErr result EndsEarly }
{
    history_by_items();
    nodes_stay_nodes();
    runs_come_to();
    replica.settle()
}

/// Lets it do so where it would take no further item before.
fn make_room<D: Disk>(replica: &mut Replica<D>) -> Result<(), Refusal>
    requires running { IsRunning replica.old }
    ensures grown { Grown D.Disk replica.old replica.new [] }
    ensures ends { EndsRunning result replica.new }
    ensures tells { Tells D.Disk replica.old replica.new result }
    ensures room { OnOk result (length (facts_of D.Disk replica.new).ahead < MAX_AHEAD) }
    ensures refused { IfErr result EndsEarly }
{
    history_by_items();
    runs_are_joined::<D>();
    if replica.delivered() - replica.durable() >= MAX_AHEAD {
        return settle(replica);
    }
    Ok(())
}

/// Whether the replica judges the item so, were it the next one.
fn judges_so<D: Disk>(replica: &Replica<D>, item: &Item, verdict: Verdict) -> bool
    ensures { (result ≡ true) ↔ (verdict_of replica.now.certifier.current item.now ≡ verdict) }
{
    replica.judge(item) == verdict
}

/// Delivers the item, which stands at `at` of the transfer, where it is the next one and is judged as the transfer says.
fn deliver<D: Disk>(replica: &mut Replica<D>, judged: Judged, at: u64) -> Result<(), Refusal>
    requires running { IsRunning replica.old }
    requires defined { IsNil (facts_of D.Disk replica.old).uuid → ⊥ }
    requires within { judged.seqno ≤ MAX_SEQNO }
    requires room { length (facts_of D.Disk replica.old).ahead < MAX_AHEAD }
    ensures grown { Grown D.Disk replica.old replica.new (where_ok result (judged ∷ [])) }
    ensures ends { EndsRunning result replica.new }
    ensures tells { Tells D.Disk replica.old replica.new result }
    ensures limit { OnOk result (delivered (facts_of D.Disk replica.new) ≤ MAX_SEQNO) }
    ensures refused { IfErr result (IsOut D.Disk replica.new (Record judged) at) }
{
    history_by_items();
    nodes_hold_the_order();
    steps_follow_the_order();
    runs_are_joined::<D>();
    let malformed = Refusal::Malformed { at };
    // Tells the proof what holds of the replica.
    let _durable = replica.durable();
    let Judged {
        seqno,
        item,
        verdict,
    } = judged;
    if seqno != replica.delivered() + 1 || !judges_so(replica, &item, verdict) {
        return Err(malformed);
    }
    match replica.step(Event::delivery(seqno, item)) {
        Answer::Gave(_) => Ok(()),
        Answer::Refused(refusal) => Err(refusal),
        _ => unreachable!(),
    }
}

/// Takes a record, which stands at `at` of the transfer.
fn take_record<D: Disk>(replica: &mut Replica<D>, judged: Judged, at: u64) -> Result<(), Refusal>
    requires running { IsRunning replica.old }
    requires defined { IsNil (facts_of D.Disk replica.old).uuid → ⊥ }
    requires fits { IsRecord judged }
    ensures grown { Grown D.Disk replica.old replica.new (where_ok result (judged ∷ [])) }
    ensures ends { EndsRunning result replica.new }
    ensures tells { Tells D.Disk replica.old replica.new result }
    ensures limit { OnOk result (delivered (facts_of D.Disk replica.new) ≤ MAX_SEQNO) }
    ensures refused { IfErr result (IsOut D.Disk replica.new (Record judged) at) }
{
    history_by_items();
    runs_are_joined::<D>();
    make_room(replica)?;
    deliver(replica, judged, at)
}

/// Takes a part behind a snapshot, which stands at `at` of the transfer: a record, or the end, whose position it then answers.
fn take_part<D: Disk>(replica: &mut Replica<D>, part: Part, at: u64) -> Result<Option<u64>, Refusal>
    requires running { IsRunning replica.old }
    requires defined { IsNil (facts_of D.Disk replica.old).uuid → ⊥ }
    requires fits { PartFits part }
    ensures took { IfOk result (λ ended. Follows D.Disk replica.old replica.new ended (part_bytes part)) }
    ensures more { IfOk result (λ ended. ended ≡ None → (delivered (facts_of D.Disk replica.old) < delivered (facts_of D.Disk replica.new)) × (delivered (facts_of D.Disk replica.new) ≤ MAX_SEQNO)) }
    ensures kept { OnErr result (Grown D.Disk replica.old replica.new []) }
    ensures ends { EndsRunning result replica.new }
    ensures tells { Tells D.Disk replica.old replica.new result }
    ensures refused { IfErr result (IsOut D.Disk replica.new part at) }
{
    history_by_items();
    runs_are_joined::<D>();
    match part {
        Part::Record(judged) => {
            take_record(replica, judged, at)?;
            Ok(None)
        }
        Part::End(last) if last == replica.delivered() => {
            settle(replica)?;
            Ok(Some(last))
        }
        Part::Snapshot(_) | Part::End(_) => Err(Refusal::Malformed { at }),
    }
}

/// Takes the parts behind those that were taken, to the transfer's end, and answers its position.
fn follow<D: Disk, R: Source>(
    replica: &mut Replica<D>,
    transfer: &mut TransferReader,
    reader: &mut R,
) -> Result<u64, Refusal>
    requires running { IsRunning replica.old }
    requires defined { IsNil (facts_of D.Disk replica.old).uuid → ⊥ }
    ensures followed { IfOk result (λ last. Followed D.Disk replica.old replica.new transfer.old transfer.new (R.remaining reader.old) (R.remaining reader.new) (Some last)) }
    ensures ends { EndsRunning result replica.new }
    ensures tells { Tells D.Disk replica.old replica.new result }
    ensures cut { IfErr result (Cut D.Disk replica.old replica.new (R.remaining reader.old) transfer.old) }
    ensures notes { Notes (R.failed reader.old) (R.failed reader.new) result }
{
    history_by_items();
    runs_are_joined::<D>();
    loop {
        let at = transfer.taken();
        let Some(part) = next_part(transfer, reader)? else {
            return Err(Refusal::Malformed { at });
        };
        if let Some(last) = take_part(replica, part, at)? {
            return Ok(last);
        }
    }
}

/// Takes this part, which stands at `at` of the transfer, and those behind it, to the transfer's end, where no snapshot comes: the
/// replica is of a cluster then.
fn follow_from<D: Disk, R: Source>(
    replica: &mut Replica<D>,
    part: Part,
    at: u64,
    transfer: &mut TransferReader,
    reader: &mut R,
) -> Result<u64, Refusal>
    requires running { IsRunning replica.old }
    requires fits { PartFits part }
    requires counted { transfer.old ≡ counted at (length (part_bytes part)) }
    ensures defined { OnOk result (IsNil (facts_of D.Disk replica.old).uuid → ⊥) }
    ensures followed { IfOk result (FollowedFrom D.Disk replica.old replica.new (part_bytes part) (R.remaining reader.old) (R.remaining reader.new)) }
    ensures ends { EndsRunning result replica.new }
    ensures tells { Tells D.Disk replica.old replica.new result }
    ensures cut { (before : Option (List ℕ)) → Consumes before (R.remaining reader.old) (part_bytes part) → IfErr result (Cut D.Disk replica.old replica.new before at) }
    ensures notes { Notes (R.failed reader.old) (R.failed reader.new) result }
{
    history_by_items();
    runs_are_joined::<D>();
    if replica.uuid().is_nil() {
        return Err(Refusal::Malformed { at });
    }
    match take_part(replica, part, at)? {
        Some(last) => Ok(last),
        None => follow(replica, transfer, reader),
    }
}

/// Takes the rest of a snapshot of this position, which stands at `at` of the transfer that begins so, and the parts behind it, to the
/// transfer's end.
fn take_snapshot<D: Disk, R: Source>(
    alloc: Global,
    replica: Replica<D>,
    header: &Header,
    position: u64,
    at: u64,
    transfer: &mut TransferReader,
    reader: &mut R,
) -> (Replica<D>, Result<u64, Refusal>)
    requires running { IsRunning replica }
    requires quiet { is_quiet (facts_of D.Disk replica) ≡ true }
    requires header { IsHeader header.now }
    requires cluster { (header.now.uuid ≡ (facts_of D.Disk replica).uuid) ⊎ IsNil (facts_of D.Disk replica).uuid }
    requires counted { transfer.old ≡ counted at (length (part_bytes (Snapshot position))) }
    ensures taken { IfOk result.1 (λ last. TakesAll D.Disk replica result.0 header.now.format header.now.uuid last (part_bytes (Snapshot position)) (R.remaining reader.old) (R.remaining reader.new)) }
    ensures ends { EndsRunning result.1 result.0 }
    ensures tells { Tells D.Disk replica result.0 result.1 }
    ensures cut { (before : Option (List ℕ)) → Consumes before (R.remaining reader.old) (part_bytes (Snapshot position)) → IfErr result.1 (CutShort D.Disk replica result.0 header.now.format header.now.uuid before at) }
    ensures notes { Notes (R.failed reader.old) (R.failed reader.new) result.1 }
{
    history_by_items();
    let (mut replica, brought) = bring(alloc, replica, header, position, at, transfer, reader);
    match brought {
        Ok(()) => {
            let followed = follow(&mut replica, transfer, reader);
            (replica, followed)
        }
        Err(refusal) => (replica, Err(refusal)),
    }
}

/// Takes the parts behind the header of a transfer of this cluster.
fn take_parts<D: Disk, R: Source>(
    alloc: Global,
    replica: Replica<D>,
    header: &Header,
    transfer: &mut TransferReader,
    reader: &mut R,
) -> (Replica<D>, Result<u64, Refusal>)
    requires running { IsRunning replica }
    requires quiet { is_quiet (facts_of D.Disk replica) ≡ true }
    requires header { IsHeader header.now }
    requires cluster { (header.now.uuid ≡ (facts_of D.Disk replica).uuid) ⊎ IsNil (facts_of D.Disk replica).uuid }
    ensures taken { IfOk result.1 (λ last. TakesAll D.Disk replica result.0 header.now.format header.now.uuid last [] (R.remaining reader.old) (R.remaining reader.new)) }
    ensures ends { EndsRunning result.1 result.0 }
    ensures tells { Tells D.Disk replica result.0 result.1 }
    ensures cut { IfErr result.1 (CutShort D.Disk replica result.0 header.now.format header.now.uuid (R.remaining reader.old) transfer.old) }
    ensures notes { Notes (R.failed reader.old) (R.failed reader.new) result.1 }
{
    history_by_items();
    runs_are_joined::<D>();
    let at = transfer.taken();
    let part = match next_part(transfer, reader) {
        Ok(Some(part)) => part,
        Ok(None) => return (replica, Err(Refusal::Malformed { at })),
        Err(refusal) => return (replica, Err(refusal)),
    };
    if let Part::Snapshot(position) = part {
        return take_snapshot(alloc, replica, header, position, at, transfer, reader);
    }
    let mut replica = replica;
    let followed = follow_from(&mut replica, part, at, transfer, reader);
    (replica, followed)
}

/// Takes a transfer, and answers the position that the replica then has, all of it durable. Each item is judged again. Nothing behind
/// the transfer's end is read, and its length takes no memory.
///
/// The transfer is of either format, as its header says. A snapshot of format 2 brings its window with size and floor; one of format 1
/// tells neither: the size is that of the parameters, and the floor the least seqno that this size spans at the position, 1 or more.
///
/// It settles first and last. Refuses with `Stopped`; and else with the first that the transfer meets: `StreamFault` where the source
/// fails; `Malformed`, `at` being the number of bytes before the part that is not of its form, is cut short, or may not come there: at a
/// replica of a cluster a snapshot that is not above what was delivered; a second snapshot; one whose window is none of its position, or
/// whose pages do not ascend or are none of the schema; an item that is not the next one or is judged otherwise; an end at another
/// position; no snapshot where the replica belongs to no cluster; `WrongCluster` a transfer of another cluster, first window size or
/// schema; and `OutOfMemory`, `DiskFault` and `Corrupt` as settling, installing and delivering do. The items before the refusal stay
/// delivered. After `DiskFault` the replica is stopped; else one that stands for a node goes on to stand for it where a snapshot was not
/// taken whole.
pub fn join<D: Disk, R: Source>(
    alloc: Global,
    replica: Replica<D>,
    reader: &mut R,
) -> (Replica<D>, Result<u64, Refusal>)
    ensures stopped { (replica.stopped || is_some replica.engine.halted) ≡ true → result ≡ (replica, Err Stopped) }
    ensures refused { IfErr result.1 (λ e. (e ≡ Stopped) ⊎ JoinsEarly e) }
    ensures early { (replica.stopped || is_some replica.engine.halted) ≡ false → IfErr result.1 JoinsEarly }
    ensures ends { (replica.stopped || is_some replica.engine.halted) ≡ false → EndsRunning result.1 result.0 }
    // The device's fault is told exactly where there was one, and of no honest device of a node that a page is not of its form.
    ensures tells { Tells D.Disk replica result.0 result.1 }
    ensures quiet { OnOk result.1 (is_quiet (facts_of D.Disk result.0) ≡ true) }
    ensures lived { Lived D.Disk replica result.0 }
    // On any device: where it succeeds, the bytes began with a transfer of the replica's cluster and shape, of its form to its end.
    ensures took { IfSome (R.remaining reader.old) (λ bytes. IfOk result.1 (TookTransfer D.Disk bytes (R.remaining reader.new) replica result.0)) }
    ensures joined { (n : Node) → Holds D.Disk n replica → IfSome (R.remaining reader.old) (λ bytes. IfOk result.1 (Joined D.Disk n bytes (R.remaining reader.new) replica result.0)) }
    ensures ended { (replica.stopped || is_some replica.engine.halted) ≡ false → IfErr result.1 (Ended D.Disk replica result.0 (R.remaining reader.old)) }
    ensures notes { Notes (R.failed reader.old) (R.failed reader.new) result.1 }
{
    history_by_items();
    if replica.is_stopped() {
        return (replica, Err(Refusal::Stopped));
    }
    let mut replica = replica;
    if let Err(refusal) = settle(&mut replica) {
        return (replica, Err(refusal));
    }
    let mut transfer = TransferReader::new();
    match take_header(&replica, &mut transfer, reader) {
        Ok(header) => take_parts(alloc, replica, &header, &mut transfer, reader),
        Err(refusal) => (replica, Err(refusal)),
    }
}
