//! What an engine holds, and the steps that write.

ghost use Rattle.std.specs.Prelude.{◌≡◌, ◌≢◌, ◌⊎◌, ◌+◌, ◌-◌, ◌<◌, ◌≤◌, ◌==◌, [], nat_le, if◌then◌else◌, true, length, map, is_some, Some, None, Err, IfErr, OnOk, OnErr};
ghost use Rattle.rep_types.specs.declared.refusal.Refusal.TheVariants.{OutOfMemory, DiskFault, LogFull, Stopped};
ghost use Rattle.rep_types.specs.Replies.{reply_of};
ghost use Rattle.rep_disk.specs.History.{Synced};
ghost use Rattle.rep_disk.specs.Moments.{LeavesOnly};
ghost use Rattle.rep_disk.specs.Devices.{Calls};
ghost use Rattle.rep_cells.specs.Device.{disk_of, layout_of};
ghost use Rattle.rep_steps.specs.declared.event.Event.TheVariants.{Log as to_log, Sync as to_sync};
ghost use Rattle.rep_steps.specs.Standings.{delivered, block_refusal, log_refusal};
ghost use Rattle.rep_steps.specs.Moves.{Moves};
ghost use Rattle.rep_steps.specs.Nodes.{Node, Steps};
ghost use Rattle.rep_steps.specs.Images.{IsFrontAt};
ghost use Rattle.rep_checkpoint.specs.Meanings.{Means};
ghost use Rattle.rep_engine.specs.Engines.{IsEngine, AreReadable, facts_of, durable_of, gtid_of, Halts};
ghost use Rattle.rep_log.specs.Standing.{due_of};
ghost use Rattle.rep_log.specs.Moves.{after_sync, started, fault_of, SyncsLog, StartsLater};
ghost use Rattle.rep_checkpoint.specs.Moves.{after_sync as checkpoint_after, is_opening};
ghost use Rattle.rep_checkpoint.specs.Calls.{SyncsTo};
ghost use Rattle.rep_checkpoint.specs.Standing.{due_in, left_in};
ghost use Rattle.rep_pool.specs.BasePages.{IsPooled};
ghost use Rattle.rep_engine.specs.Writing.{written_in, left_of, told_of, PrunesIf};
ghost use Rattle.rep_engine.specs.Holding.{Holds, wrote, synced};
ghost use Rattle.rep_engine.specs.Reading.{halted_by};

use crate::write::write_next;
use rep_cells::{Cells, images_read_as_allowed};
use rep_checkpoint::{
    Checkpoint, nodes_leave_their_fronts, nodes_settle, the_log_is_apart, the_stage_is_the_facts,
    the_synced_log_is_the_facts,
};
use rep_disk::Disk;
use rep_log::{Log, Phase, Step};
use rep_pool::{Pool, pools_go_on};
use rep_record::BlockBuilder;
use rep_steps::{Replies, judging_goes_on, nodes_stay_nodes};
use rep_types::{Gtid, Params, Refusal};
use rep_versions::{Versions, versions_follow_the_items};
use std::alloc::Global;
use std::marker::Model;
use uuid::Uuid;

/// Lets the versions up to the base go, where it rose.
fn prune_if(versions: &mut Versions, rose: bool, position: u64)
    ensures { PrunesIf rose position versions.old versions.new }
{
    if rose {
        versions.prune(position);
    }
}

/// Where the device stopped the engine, if it failed in the call that came out so.
pub(crate) fn halted_by<T>(phase: Phase, outcome: &Result<T, Refusal>) -> Option<Phase>
    ensures { result ≡ halted_by phase outcome.now }
{
    match outcome {
        Err(Refusal::DiskFault) => Some(phase),
        _ => None,
    }
}

/// The engine of a node on a disk: a base that its superblock names, the log behind it, and the versions
/// of what the log's items wrote.
///
/// It takes judged items from a backlog, writes them into the log a block at a time, makes them durable, and
/// reads rows from the base on. Each call makes at most one write or sync, and one read. Where the
/// device fails, the engine is stopped, and refuses everything.
///
/// The pages of the base that were read last are kept, at most 64, so that the device is not asked for them again.
/// No contract tells whether one is: what a kept page gives is what the device has.
#[derive(Drop)]
pub struct Engine<D: Disk> {
    /// Where a checkpoint and the replies take their memory.
    pub(crate) alloc: Global,
    pub(crate) cells: Cells<D>,
    /// The base's pages that were read last. It agrees with the device while that has not failed.
    pub(crate) pool: Pool,
    pub(crate) checkpoint: Checkpoint,
    pub(crate) log: Log,
    pub(crate) versions: Versions,
    /// The items that were accepted and are not durable.
    pub(crate) block: BlockBuilder,
    /// The replies to their origins.
    pub(crate) replies: Replies,
    /// Where the device failed: how far the next block was before the call that met the failure.
    pub(crate) halted: Option<Phase>,
}

impl<D: Disk> Model for Engine<D> {
    ghost use Rattle.std.specs.Prelude.{◌≡◌, map};
    ghost use Rattle.rep_types.specs.Replies.{reply_of};
    ghost use Rattle.rep_cells.specs.Device.{disk_of, layout_of};
    ghost use Rattle.rep_engine.specs.Engines.{Engine as Contents, IsEngine, PoolAgrees, engine_code};

    ghost Value = { Contents D };

    ghost coded = { engine_code D.code };

    ghost view = { λ e. record { disk = disk_of e.cells; layout = layout_of e.cells; checkpoint = e.checkpoint; log = e.log; kept = e.versions; block = e.block; halted = e.halted } };

    ghost invariant = { λ e. IsEngine (layout_of e.cells) e.checkpoint e.log e.versions e.block × (e.replies ≡ map reply_of e.block) × PoolAgrees D.Disk (layout_of e.cells) e.checkpoint (disk_of e.cells) e.halted e.pool };
}

impl<D: Disk> Engine<D> {
    /// The engine over what an opening found on a device: the checkpoint at its base, the log behind the base,
    /// and the versions of what its items wrote. The pool keeps nothing yet: so it agrees with a device on which no write
    /// has failed since the last sync that succeeded.
    pub fn open(
        alloc: Global,
        cells: Cells<D>,
        pool: Pool,
        checkpoint: Checkpoint,
        log: Log,
        versions: Versions,
    ) -> Engine<D>
        requires engine { IsEngine (layout_of cells) checkpoint log versions [] }
        requires pool { IsPooled D.Disk checkpoint.base.params.rows (layout_of cells) (disk_of cells) pool }
        ensures { result ≡ record { disk = disk_of cells; layout = layout_of cells; checkpoint = checkpoint; log = log; kept = versions; block = []; halted = None } }
    {
        Engine {
            alloc,
            cells,
            pool,
            checkpoint,
            log,
            versions,
            block: BlockBuilder::new(),
            replies: Replies::new(),
            halted: None,
        }
    }

    /// Refuses with `Stopped` where the device has failed before.
    pub(crate) fn running(&self) -> Result<(), Refusal>
        ensures runs { OnOk result (self.now.halted ≡ None) }
        ensures stopped { IfErr result (λ e. (e ≡ Stopped) × (is_some self.now.halted ≡ true)) }
        // An honest device can be read in each place: none of its writes failed.
        ensures readable { OnOk result (D.honest self.now.disk → AreReadable self.now.layout (D.history self.now.disk)) }
        // What holds of every engine.
        ensures engine { IsEngine self.now.layout self.now.checkpoint self.now.log self.now.kept self.now.block }
    {
        if self.halted.is_some() {
            return Err(Refusal::Stopped);
        }
        Ok(())
    }

    /// Why the log's next block does not begin: its cell is live.
    pub(crate) fn live_refusal(&self) -> Option<Refusal>
        requires { self.now.log.phase ≡ Phase.Resting }
        ensures { result ≡ (if nat_le (self.now.log.start + self.now.checkpoint.base.params.cells) self.now.log.next then Some LogFull else None) }
    {
        match self.log.step_due() {
            Step::Full => Some(Refusal::LogFull),
            Step::Recycle | Step::Seal | Step::Gate | Step::Sync => None,
        }
    }

    /// Why the log's next block does not begin: nothing was gathered for it, or its cell is live.
    fn block_refusal(&self) -> Option<Refusal>
        requires { self.now.log.phase ≡ Phase.Resting }
        ensures { result ≡ block_refusal (facts_of D.Disk self.now) }
    {
        if self.block.is_empty() {
            return Some(Refusal::NotDue);
        }
        self.live_refusal()
    }

    /// Why the log writes nothing.
    fn log_refusal(&self) -> Option<Refusal>
        requires { self.now.halted ≡ None }
        ensures { result ≡ log_refusal (facts_of D.Disk self.now) self.now.log.phase }
    {
        match self.log.phase() {
            Phase::Resting => self.block_refusal(),
            Phase::Filled(_) => None,
            Phase::Closing | Phase::Filling(_) | Phase::Opening(_) => Some(Refusal::NotDue),
        }
    }

    /// Writes what the log has to write next, of what was accepted: the closed gate of a stale cell, then the
    /// block, and, once that is stable, its open gate. It takes no memory.
    ///
    /// Refuses with `Stopped` where the device has failed before; with `NotDue` where nothing was gathered
    /// or a write awaits its sync; with `LogFull` where the next cell is live, its block still needed; and with
    /// `DiskFault` where the device failed: the engine is then stopped, and otherwise as it was.
    pub fn log(&mut self) -> Result<(), Refusal>
        ensures call { Calls D.Disk self.old.disk self.new.disk (fault_of result) }
        ensures moves { Moves (facts_of D.Disk self.old) to_log (wrote result) (facts_of D.Disk self.new) }
        ensures steps { (n : Node) → Holds D.Disk n self.old → (m : Node) × Steps n to_log (wrote result) m × Holds D.Disk m self.new }
        // Nothing else changes, and where it is refused by anything but the device, nothing does.
        ensures rest { self.new ≡ record (self.old) { disk = self.new.disk; log = self.new.log; halted = self.new.halted } }
        ensures unchanged { IfErr result (λ e. (e ≡ DiskFault) ⊎ (self.new ≡ self.old)) }
        // Where the device failed, the log stands as it does behind the write, and is stopped before it.
        ensures fault { IfErr result (λ e. e ≡ DiskFault → self.new ≡ record (self.old) { disk = self.new.disk; log = written_in (due_of self.old.log) (length self.old.block) self.old.log; halted = Some self.old.log.phase }) }
        // It takes no memory.
        ensures memory { IfErr result (λ e. e ≢ OutOfMemory) }
        // The log has made the step that was due.
        ensures log { OnOk result (self.new.log ≡ written_in (due_of self.old.log) (length self.old.block) self.old.log) }
        ensures leaves { (n : Node) → Holds D.Disk n self.old → LeavesOnly (D.history self.old.disk) (D.history self.new.disk) (IsFrontAt Means n) }
    {
        self.running()?;
        nodes_stay_nodes();
        nodes_leave_their_fronts();
        the_log_is_apart();
        pools_go_on();
        if let Some(refusal) = self.log_refusal() {
            return Err(refusal);
        }
        let before = self.log.phase();
        let written = write_next(&mut self.log, &mut self.cells, &self.block);
        self.halted = halted_by(before, &written);
        written
    }

    /// Takes the log on by a sync that succeeded, and gives the replies of what it made durable.
    #[tactic(auto, using(crate::proofs::Syncing::engine_synced, crate::proofs::Syncing::none_synced, crate::proofs::Syncing::some_synced))]
    fn settle(&mut self) -> Replies
        ensures after { self.new ≡ record (self.old) { log = after_sync self.old.log; block = left_of self.old.log.phase self.old.block } }
        ensures log { SyncsLog self.old.log self.new.log }
        ensures replies { result ≡ map reply_of (told_of self.old.log.phase self.old.block) }
    {
        if self.log.synced() == 0 {
            return Replies::new();
        }
        self.block = BlockBuilder::new();
        std::mem::replace(&mut self.replies, Replies::new())
    }

    /// Takes the checkpoint on by a sync that succeeded. Where its next base became the base, the versions up to
    /// there go, and so do the log's blocks before its first cell.
    fn raise(&mut self)
        ensures after { self.new ≡ record (self.old) { checkpoint = checkpoint_after self.old.checkpoint; log = started (checkpoint_after self.old.checkpoint).base.start self.old.log; kept = self.new.kept } }
        ensures pruned { PrunesIf (is_opening self.old.checkpoint.stage) (checkpoint_after self.old.checkpoint).base.position self.old.kept self.new.kept }
        // What the states of the places are said to be, for what stood there.
        ensures states { SyncsTo self.old.checkpoint self.new.checkpoint }
        ensures later { StartsLater self.old.log self.new.log }
        ensures uuid { self.new.checkpoint.base.uuid ≡ self.old.checkpoint.base.uuid }
        ensures params { self.new.checkpoint.base.params ≡ self.old.checkpoint.base.params }
    {
        let rose = self.checkpoint.synced();
        let base = self.checkpoint.base();
        prune_if(&mut self.versions, rose, base.position);
        self.log.start_at(base.start);
    }

    /// Makes stable what was written: one sync of the device, also where nothing was. Where a block's gate was
    /// opened, its items are durable then, and their replies are given, in order; where a superblock's was, its
    /// base is the node's, and what lies below it cannot be read any more. It takes no memory.
    ///
    /// Refuses with `Stopped` where the device has failed before, and with `DiskFault` where it failed: the
    /// engine is then stopped, and otherwise as it was.
    pub fn sync(&mut self) -> Result<Replies, Refusal>
        ensures call { Calls D.Disk self.old.disk self.new.disk (fault_of result) }
        // Nothing else changes, and where it is stopped, nothing does.
        ensures rest { self.new ≡ record (self.old) { disk = self.new.disk; checkpoint = self.new.checkpoint; log = self.new.log; kept = self.new.kept; block = self.new.block; halted = self.new.halted } }
        ensures params { self.new.checkpoint.base.params ≡ self.old.checkpoint.base.params }
        ensures unchanged { IfErr result (λ e. (e ≡ DiskFault) ⊎ (self.new ≡ self.old)) }
        ensures fault { IfErr result (λ e. e ≡ DiskFault → Halts self.old self.new) }
        // It is one sync of the device, whether anything was written or not; one that failed makes nothing stable.
        ensures synced { D.honest self.old.disk → OnOk result (D.history self.new.disk ≡ Synced (D.history self.old.disk)) }
        ensures unsynced { D.honest self.old.disk → OnErr result (D.history self.new.disk ≡ D.history self.old.disk) }
        // The log is as a sync leaves it, from the base's first block on.
        ensures log { OnOk result (self.new.log ≡ started self.new.checkpoint.base.start (after_sync self.old.log)) }
        ensures moves { Moves (facts_of D.Disk self.old) to_sync (synced result) (facts_of D.Disk self.new) }
        ensures steps { (n : Node) → Holds D.Disk n self.old → (m : Node) × Steps n to_sync (synced result) m × Holds D.Disk m self.new }
        ensures leaves { (n : Node) → Holds D.Disk n self.old → LeavesOnly (D.history self.old.disk) (D.history self.new.disk) (IsFrontAt Means n) }
    {
        self.running()?;
        nodes_stay_nodes();
        images_read_as_allowed();
        nodes_leave_their_fronts();
        nodes_settle();
        the_stage_is_the_facts();
        the_synced_log_is_the_facts();
        versions_follow_the_items();
        judging_goes_on();
        pools_go_on();
        if self.cells.sync().is_err() {
            self.halted = Some(self.log.phase());
            return Err(Refusal::DiskFault);
        }
        let replies = self.settle();
        self.raise();
        Ok(replies)
    }

    /// What the log's next block waits for: a write, a sync, or that its cell is no longer live.
    pub fn log_step(&self) -> Step
        ensures { result ≡ due_of self.now.log }
    {
        self.log.step_due()
    }

    /// What the checkpoint waits for: to begin, a page's flush, a write, or a sync.
    pub fn checkpoint_step(&self) -> rep_checkpoint::Step
        ensures { result ≡ due_in self.now.checkpoint.stage }
    {
        self.checkpoint.step_due()
    }

    /// How many pages the checkpoint under way has left to flush.
    pub fn pages_left(&self) -> usize
        ensures { result ≡ length (left_in self.now.checkpoint.stage) }
    {
        self.checkpoint.left().len()
    }

    /// How many cells of the log are live: those of the blocks behind the base.
    pub fn cells_live(&self) -> u64
        ensures live { self.now.log.start + result ≡ self.now.log.next }
        ensures within { result ≤ self.now.checkpoint.base.params.cells }
    {
        self.log.next() - self.log.start()
    }

    /// Whether the device has failed: the engine then refuses everything.
    pub fn is_stopped(&self) -> bool
        ensures { result ≡ is_some self.now.halted }
    {
        self.halted.is_some()
    }

    /// The state UUID; nil where the node belongs to no cluster yet.
    pub fn uuid(&self) -> Uuid
        ensures { result ≡ self.now.checkpoint.base.uuid }
    {
        self.checkpoint.base().uuid
    }

    /// The seqno of the last durable item.
    pub fn durable(&self) -> u64
        ensures durable { result ≡ durable_of self.now.log }
        // What holds of every engine.
        ensures engine { IsEngine self.now.layout self.now.checkpoint self.now.log self.now.kept self.now.block }
    {
        self.log.durable()
    }

    /// The seqno of the last item that was accepted, durable or not: the next one that `accept` takes has the
    /// seqno behind it.
    pub fn delivered(&self) -> u64
        ensures { result ≡ delivered (facts_of D.Disk self.now) }
    {
        self.log.durable() + u64::from(self.block.len())
    }

    /// The GTID of what is durable: the state UUID and the seqno of the last durable item; that of a node without
    /// a cluster is undefined, the nil UUID and -1.
    pub fn gtid(&self) -> Gtid
        ensures { result ≡ gtid_of self.now }
    {
        let uuid = self.checkpoint.base().uuid;
        let seqno = if uuid.is_nil() {
            -1
        } else {
            self.log.durable() as i64
        };
        match Gtid::new(uuid, seqno) {
            Some(gtid) => gtid,
            None => unreachable!(),
        }
    }

    /// The position of the base: of the oldest state that can be read.
    pub fn base(&self) -> u64
        ensures { result ≡ self.now.checkpoint.base.position }
    {
        self.checkpoint.base().position
    }

    /// The parameters.
    pub fn params(&self) -> &Params
        ensures { result.now ≡ self.now.checkpoint.base.params }
    {
        &self.checkpoint.base().params
    }

    /// The device.
    pub fn disk(&self) -> &D
        ensures { result.now ≡ self.now.disk }
    {
        self.cells.disk()
    }

    /// Gives the device back.
    pub fn into_disk(self) -> D
        ensures { result ≡ self.disk }
    {
        let Engine { cells, .. } = self;
        cells.into_disk()
    }
}
