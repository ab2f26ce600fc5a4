//! What was delivered becomes durable, and is told.

ghost use Rattle.std.specs.Prelude.{◌≡◌, ◌<◌, ◌⊎◌, ◌||◌, true, false, is_some, List, length, Ok, Err, IfErr, OnOk};
ghost use Rattle.rep_streams.specs.Streams.{Notes};
ghost use Rattle.rep_replica.specs.Replicas.{facts_of};
ghost use Rattle.rep_replica.specs.Settling.{outcome_of};
ghost use Rattle.rep_follow.specs.Committing.{IsHeldUp, IsEnough, TellsNext, TellsAll, is_checkpoint_due, Begins, TellsAndBegins, Between, TellsBlocks};

use crate::counts::Counts;
use crate::receipts::write_receipts;
use rep_disk::Disk;
use rep_replica::{Replica, runs_are_joined};
use rep_steps::{Answer, Event};
use rep_streams::Sink;
use rep_types::Refusal;

/// With fewer free cells than this all pages that are left go with the next block.
const FEW_CELLS: u64 = 8;

/// How many pages of the checkpoint under way go with the next block, where so many cells of the log are free, and so many pages are left.
///
/// A block takes a cell. So the checkpoint ends while cells are free, and a full log, which waits for a whole checkpoint, does not come.
pub fn pages_due(free: u64, left: u64) -> u64
    ensures { IsEnough free left result }
{
    if free < FEW_CELLS {
        return left;
    }
    left.div_ceil(free - (FEW_CELLS - 1))
}

/// How many pages go with the replica's next block.
fn pages_of<D: Disk>(replica: &Replica<D>) -> u64 {
    let cells = u64::from(replica.params().cells());
    pages_due(
        cells.saturating_sub(replica.cells_live()),
        replica.pages_left() as u64,
    )
}

/// Makes the next block of what was delivered durable, counts it, and writes its receipts.
///
/// Refuses as `commit` does, but for a stopped replica, and for a checkpoint that does not begin.
fn commit_next<D: Disk, W: Sink>(
    replica: &mut Replica<D>,
    counts: &mut Counts,
    writer: &mut W,
) -> Result<(), Refusal>
    requires running { (replica.old.stopped || is_some replica.old.engine.halted) ≡ false }
    requires some { 0 < length (facts_of D.Disk replica.old).ahead }
    ensures tells { TellsNext D.Disk replica.old replica.new counts.old counts.new (W.contents writer.old) (W.contents writer.new) result }
    ensures running { OnOk result ((replica.new.stopped || is_some replica.new.engine.halted) ≡ false) }
    ensures notes { Notes (W.failed writer.old) (W.failed writer.new) result }
    ensures refused { IfErr result (λ e. (e ≡ Refusal.StreamFault) ⊎ IsHeldUp D.Disk replica.new e) }
{
    let base = replica.base();
    let pages = pages_of(replica);
    match replica.commit_block(pages) {
        Ok(replies) => {
            counts.count_block(replies.as_slice(), base < replica.base());
            write_receipts(writer, replies.as_slice())
        }
        Err(refusal) => {
            counts.count_checkpoint(base < replica.base());
            Err(refusal)
        }
    }
}

/// What came of a step.
pub(crate) fn outcome(answer: Answer) -> Result<(), Refusal>
    ensures { result ≡ outcome_of answer }
{
    match answer {
        Answer::Refused(refusal) => Err(refusal),
        Answer::Gave(_) | Answer::Wrote | Answer::Began(_) | Answer::Synced(_) | Answer::Row(_) =>
            Ok(()),
    }
}

/// Whether a checkpoint is due to begin: none is under way; something that is durable is above the base; and at least half of the log's cells
/// are live.
fn is_checkpoint_due<D: Disk>(replica: &Replica<D>) -> bool
    ensures { result ≡ is_checkpoint_due (facts_of D.Disk replica.now) }
{
    let cells = u64::from(replica.params().cells());
    !replica.has_checkpoint()
        && replica.base() < replica.durable()
        && cells <= 2 * replica.cells_live()
}

/// Begins a checkpoint to what is durable, where one is due: where none is under way, something that is durable is above the base, and at least
/// half of the log's cells are live. Nothing is written for it yet, and where none is due nothing changes. More may wait to become durable.
///
/// Refuses with `Stopped`, and with `OutOfMemory` where there is no room for its pages, and then none has begun.
pub fn begin_if_due<D: Disk>(replica: &mut Replica<D>) -> Result<(), Refusal>
    ensures { Begins D.Disk replica.old replica.new result }
{
    runs_are_joined::<D>();
    if !is_checkpoint_due(replica) {
        return Ok(());
    }
    outcome(replica.step(Event::Check))
}

/// Makes the next block of what was delivered durable, counts it, and writes its receipts; and then begins a checkpoint, where one is due.
///
/// Refuses as `commit` does, but for a stopped replica.
pub(crate) fn commit_and_begin<D: Disk, W: Sink>(
    replica: &mut Replica<D>,
    counts: &mut Counts,
    writer: &mut W,
) -> Result<(), Refusal>
    requires running { (replica.old.stopped || is_some replica.old.engine.halted) ≡ false }
    requires some { 0 < length (facts_of D.Disk replica.old).ahead }
    ensures tells { TellsAndBegins D.Disk replica.old replica.new counts.old counts.new (W.contents writer.old) (W.contents writer.new) result }
    ensures running { OnOk result ((replica.new.stopped || is_some replica.new.engine.halted) ≡ false) }
    ensures notes { Notes (W.failed writer.old) (W.failed writer.new) result }
    ensures refused { IfErr result (λ e. (e ≡ Refusal.StreamFault) ⊎ IsHeldUp D.Disk replica.new e) }
{
    match commit_next(replica, counts, writer) {
        Ok(()) => begin_if_due(replica),
        Err(refusal) => Err(refusal),
    }
}

/// Makes all that was delivered durable, a block at a time, as `commit` does.
///
/// Refuses as `commit` does, but for a stopped replica.
pub(crate) fn commit_all<D: Disk, W: Sink>(
    replica: &mut Replica<D>,
    counts: &mut Counts,
    writer: &mut W,
) -> Result<(), Refusal>
    requires running { (replica.old.stopped || is_some replica.old.engine.halted) ≡ false }
    ensures tells { TellsAll D.Disk replica.old replica.new counts.old counts.new (W.contents writer.old) (W.contents writer.new) result }
    ensures running { OnOk result ((replica.new.stopped || is_some replica.new.engine.halted) ≡ false) }
    ensures notes { Notes (W.failed writer.old) (W.failed writer.new) result }
    ensures refused { IfErr result (λ e. (e ≡ Refusal.StreamFault) ⊎ IsHeldUp D.Disk replica.new e) }
    ensures begins { 0 < length (facts_of D.Disk replica.old).ahead → (between : List (Between D)) × TellsBlocks D.Disk replica.old counts.old (W.contents writer.old) between replica.new counts.new (W.contents writer.new) result }
    // Where nothing waits, nothing is done.
    ensures none { length (facts_of D.Disk replica.old).ahead ≡ 0 → (result ≡ Ok tt) × (replica.new ≡ replica.old) }
{
    counts.limits();
    'ahead: while replica.durable() < replica.delivered() {
        if let Err(refusal) = commit_and_begin(replica, counts, writer) {
            return Err(refusal);
        }
    }
    Ok(())
}

/// Makes all that was delivered durable, a block at a time, and writes the receipts of each block before the next one begins. Pages of the
/// checkpoint under way go with the blocks, as `pages_due` says. After each block a checkpoint begins, where one is due, as
/// `begin_if_due` says. Where nothing waits, nothing is done, so no checkpoint begins before an item was taken.
///
/// Refuses with `Stopped`, `OutOfMemory`, `DiskFault` and `Corrupt` of the pages as `Replica::commit_block` does: what became durable before is
/// told then; with `OutOfMemory` as `begin_if_due` does, when what is durable is told; and with `StreamFault` where the writer fails, which it
/// notes: of the last block a front of the receipts is written then, and all of the blocks before.
pub fn commit<D: Disk, W: Sink>(
    replica: &mut Replica<D>,
    counts: &mut Counts,
    writer: &mut W,
) -> Result<(), Refusal>
    ensures tells { TellsAll D.Disk replica.old replica.new counts.old counts.new (W.contents writer.old) (W.contents writer.new) result }
    ensures notes { Notes (W.failed writer.old) (W.failed writer.new) result }
    ensures refused { IfErr result (λ e. (e ≡ Refusal.StreamFault) ⊎ IsHeldUp D.Disk replica.new e) }
    // Each block of it is told, and after each a checkpoint begins exactly where one is due.
    ensures begins { 0 < length (facts_of D.Disk replica.old).ahead → (between : List (Between D)) × TellsBlocks D.Disk replica.old counts.old (W.contents writer.old) between replica.new counts.new (W.contents writer.new) result }
    // Where nothing waits, nothing is done.
    ensures none { (replica.old.stopped || is_some replica.old.engine.halted) ≡ false → length (facts_of D.Disk replica.old).ahead ≡ 0 → (result ≡ Ok tt) × (replica.new ≡ replica.old) }
    // Where it is stopped, nothing changes.
    ensures stopped { (replica.old.stopped || is_some replica.old.engine.halted) ≡ true → (result ≡ Err Refusal.Stopped) × (replica.new ≡ replica.old) }
{
    counts.limits();
    if replica.is_stopped() {
        return Err(Refusal::Stopped);
    }
    commit_all(replica, counts, writer)
}
