//! Where the log stands, and the steps of its next block.

ghost use Rattle.std.specs.Prelude.{◌≡◌, ◌==◌, ◌+◌, ◌-◌, ◌<◌, ◌≤◌, ◌%◌, ◌⊎◌, [], None, Some, Err, length, IfOk, IfErr, IfSome, if◌then◌else◌};
ghost use Rattle.rep_disk.specs.History.{seen, failed};
ghost use Rattle.rep_disk.specs.Devices.{Calls, SameHistory};
ghost use Rattle.rep_record.specs.Blocks.{RefusesRecords, block_bytes};
ghost use Rattle.rep_record.specs.Replaying.{Rejected};
ghost use Rattle.rep_layout.specs.Places.{offset_of, gate_of, log_of};
ghost use Rattle.rep_cells.specs.Device.{disk_of, layout_of};
ghost use Rattle.rep_cells.specs.Readings.{reading_of};
ghost use Rattle.rep_cells.specs.Calls.{gate};
ghost use Rattle.rep_log.specs.Standing.{index_of, due_of};
ghost use Rattle.rep_log.specs.Moves.{step_refusal, seal_refusal, fault_of, recycled, sealed_as, gated, after_sync, durable_by, started, restarted, IsRefused, IsStep, SyncsLog, StartsLater, Restarts};
ghost use Rattle.rep_log.specs.Scanning.{HasCells, Scans, StopsIn, rests_as};

use crate::phase::{Phase, Step};
use crate::scan::{CORRUPT, Scan};
use rep_cells::{Cells, refusal_of};
use rep_disk::Disk;
use rep_layout::{LOG_BODY, Layout, turns_are_taken};
use rep_record::{BlockBuilder, Replays, blocks_are_told};
use rep_types::{MAX_CELLS, MAX_SEQNO, Refusal};
use std::marker::Model;

/// How many cells a log may have.
pub(crate) const CELLS: usize = MAX_CELLS as usize;

/// Where the log of a disk stands: blocks from `start` on up to `next` stand open in its cells and are
/// durable, and the next block is as far as the phase says.
#[derive(Drop)]
pub struct Log {
    start: u64,
    next: u64,
    seqno: u64,
    cells: u32,
    phase: Phase,
    stands: [bool; CELLS],
}

impl Model for Log {
    ghost use Rattle.std.specs.Prelude.{◌≡◌, ◌<◌, ◌≤◌, ◌+◌, length};
    ghost use Rattle.rep_types.specs.declared.limits.TheConstants.{MAX_CELLS, MAX_SEQNO};
    ghost use Rattle.rep_log.specs.Standing.{Standing, IsInLimits};

    ghost Value = { Standing };

    ghost view = { λ log. record { start = log.start; next = log.next; seqno = log.seqno; cells = log.cells; phase = log.phase; stands = log.stands } };

    ghost invariant = { λ log. IsInLimits log.start log.next log.seqno log.cells log.phase × (length log.stands ≡ MAX_CELLS) };
}

impl Log {
    /// Reads all cells in turn: the log of a disk whose superblock has this start and this position. The
    /// records of its blocks are given on as they are read. On an honest device a sync has to stand before
    /// it, so that what is read is stable.
    ///
    /// Refuses with `BadParams` a layout without cells or of more than 1,024. From the start on, blocks
    /// are taken as long as the next cell stands open over the next number, at most one lap. Refuses with
    /// `Corrupt` of the log where such a body is no block, or its seqnos do not follow; where an open cell
    /// holds a number that does not belong there, or one from the start on that was not taken; where
    /// the start is behind the position, or that is over 2^60; and where a record is refused so. Refuses with
    /// `DiskFault` where the device failed, and with `OutOfMemory` where a record is.
    pub fn scan<D: Disk, S: Replays>(
        cells: &mut Cells<D>,
        start: u64,
        position: u64,
        to: &mut S,
    ) -> Result<Log, Refusal>
        ensures call { Calls D.Disk (disk_of cells.old) (disk_of cells.new) (fault_of result) }
        ensures layout { layout_of cells.new ≡ layout_of cells.old }
        ensures same { SameHistory D.Disk (disk_of cells.old) (disk_of cells.new) }
        ensures cells { HasCells (layout_of cells.old) ⊎ (result ≡ Err Refusal.BadParams) }
        // On any device, and on an honest one.
        ensures scans { IfOk result (λ log. Scans S.Replays (D.honest (disk_of cells.old) × (failed (D.history (disk_of cells.old)) ≡ [])) (layout_of cells.old) (seen (D.history (disk_of cells.old))) start (position + 1) log to.old to.new) }
        ensures refused { IfErr result (λ e. (e ≡ Refusal.DiskFault) ⊎ (((e ≡ Refusal.BadParams) × (HasCells (layout_of cells.old) → ⊥)) ⊎ RefusesRecords (D.honest (disk_of cells.old) → failed (D.history (disk_of cells.old)) ≡ [] → StopsIn (Rejected S.Replays to.old) (reading_of (layout_of cells.old) (seen (D.history (disk_of cells.old)))) (layout_of cells.old) start (position + 1)) e)) }
    {
        turns_are_taken();
        blocks_are_told();
        let layout = cells.layout();
        if layout.cells == 0 || layout.cells > MAX_CELLS {
            return Err(Refusal::BadParams);
        }
        if start > position || position > MAX_SEQNO {
            return Err(CORRUPT);
        }
        let mut room = [0; LOG_BODY];
        let mut scan = Scan::new(start, position);
        for k in 0..layout.cells {
            scan.read_on(cells, start + u64::from(k), &mut room, to)?;
        }
        Ok(Log::at_rest(scan, layout))
    }

    /// The log that a scan found.
    fn at_rest(scan: Scan, layout: Layout) -> Log
        requires { HasCells layout }
        ensures log { result ≡ rests_as layout scan }
        ensures later { result.start ≤ result.next }
        ensures limit { result.seqno ≤ MAX_SEQNO + 1 }
    {
        let stands = scan.stands;
        Log {
            start: scan.from,
            next: scan.next,
            seqno: scan.seqno,
            cells: layout.cells,
            phase: Phase::Resting,
            stands,
        }
    }

    /// The number of the first block that is still needed.
    pub fn start(&self) -> u64
        ensures { result ≡ self.now.start }
    {
        self.start
    }

    /// The number of the next block: one more than that of the last durable one.
    pub fn next(&self) -> u64
        ensures next { result ≡ self.now.next }
        // Each block before it had a record.
        ensures below { result < self.now.seqno }
    {
        self.next
    }

    /// The seqno of the last durable record, or of the one before the log's first.
    pub fn durable(&self) -> u64
        ensures { result + 1 ≡ self.now.seqno }
    {
        self.seqno - 1
    }

    /// How far the next block is.
    pub fn phase(&self) -> Phase
        ensures { result ≡ self.now.phase }
    {
        let Log { phase, .. } = self;
        *phase
    }

    /// The index of the next block's cell.
    fn index(&self) -> usize
        ensures index { result ≡ index_of self.now }
        ensures there { result < self.now.cells }
    {
        (self.next % u64::from(self.cells)) as usize
    }

    /// What the next block needs.
    pub fn step_due(&self) -> Step
        ensures { result ≡ due_of self.now }
    {
        match self.phase {
            Phase::Resting => {
                if self.start + u64::from(self.cells) <= self.next {
                    Step::Full
                } else if self.stands[self.index()] {
                    Step::Recycle
                } else {
                    Step::Seal
                }
            }
            Phase::Closing | Phase::Filling(_) | Phase::Opening(_) => Step::Sync,
            Phase::Filled(_) => Step::Gate,
        }
    }

    /// The step that is due on a device with these places, none where they are not the log's.
    fn step_on(&self, layout: Layout) -> Option<Step>
        ensures { result ≡ (if layout.cells == self.now.cells then Some (due_of self.now) else None) }
    {
        if layout.cells == self.cells {
            Some(self.step_due())
        } else {
            None
        }
    }

    /// What a call whose step this is refuses on a device with these places.
    fn step_refusal(&self, step: Step, layout: Layout) -> Option<Refusal>
        ensures { result ≡ step_refusal step layout self.now }
    {
        match (step, self.step_on(layout)) {
            (Step::Recycle, Some(Step::Recycle))
            | (Step::Seal, Some(Step::Seal))
            | (Step::Gate, Some(Step::Gate)) => None,
            (Step::Seal, Some(Step::Full)) => Some(Refusal::LogFull),
            _ => Some(Refusal::NotDue),
        }
    }

    /// What `seal` refuses on a device with these places.
    fn seal_refusal(&self, layout: Layout, block: &BlockBuilder) -> Option<Refusal>
        ensures { result ≡ seal_refusal layout self.now block.now }
    {
        if block.first() == self.seqno {
            self.step_refusal(Step::Seal, layout)
        } else {
            Some(Refusal::NotDue)
        }
    }

    /// Closes the gate of the next block's cell, in which an earlier block stands open: one write.
    ///
    /// Refuses with `NotDue` where that is not due, and on cells of another log; with `DiskFault` where
    /// the device failed, and then the log stands as if it had not: whoever calls stops.
    pub fn recycle<D: Disk>(&mut self, cells: &mut Cells<D>) -> Result<(), Refusal>
        ensures call { Calls D.Disk (disk_of cells.old) (disk_of cells.new) (fault_of result) }
        ensures layout { layout_of cells.new ≡ layout_of cells.old }
        ensures refused { IfSome (step_refusal Step.Recycle (layout_of cells.old) self.old) (λ e. IsRefused e self.old self.new (disk_of cells.old) (disk_of cells.new) result) }
        ensures step { step_refusal Step.Recycle (layout_of cells.old) self.old ≡ None → IsStep D.Disk (layout_of cells.old) self.old self.new (recycled self.old) (λ sealed. sealed) (gate_of (layout_of cells.old) (log_of (layout_of cells.old) self.old.next)) (gate 0) (disk_of cells.old) (disk_of cells.new) result }
    {
        turns_are_taken();
        let layout = cells.layout();
        if let Some(refusal) = self.step_refusal(Step::Recycle, layout) {
            return Err(refusal);
        }
        self.phase = Phase::Closing;
        refusal_of(cells.close_gate(layout.log_of(self.next)))
    }

    /// Writes the body of the next block, with the records that were gathered, into its cell: one write.
    ///
    /// Refuses with `NotDue` where that is not due, on cells of another log, and for a block that is
    /// empty or of other seqnos than those that come next, also where the log is full; then with `LogFull`
    /// where the cell is live, its block still needed; and with `DiskFault` where the device failed, and
    /// then the log stands as if it had not: whoever calls stops.
    pub fn seal<D: Disk>(
        &mut self,
        cells: &mut Cells<D>,
        block: &BlockBuilder,
    ) -> Result<(), Refusal>
        ensures call { Calls D.Disk (disk_of cells.old) (disk_of cells.new) (fault_of result) }
        ensures layout { layout_of cells.new ≡ layout_of cells.old }
        ensures refused { IfSome (seal_refusal (layout_of cells.old) self.old block.now) (λ e. IsRefused e self.old self.new (disk_of cells.old) (disk_of cells.new) result) }
        ensures step { seal_refusal (layout_of cells.old) self.old block.now ≡ None → IsStep D.Disk (layout_of cells.old) self.old self.new (sealed_as (length block.now) self.old) (λ sealed. block.now) (offset_of (layout_of cells.old) (log_of (layout_of cells.old) self.old.next)) (block_bytes self.old.next block.now) (disk_of cells.old) (disk_of cells.new) result }
    {
        turns_are_taken();
        let layout = cells.layout();
        if let Some(refusal) = self.seal_refusal(layout, block) {
            return Err(refusal);
        }
        let Some(body) = block.write_body(self.next) else {
            return Err(Refusal::NotDue);
        };
        self.phase = Phase::Filling(block.len());
        refusal_of(cells.fill(layout.log_of(self.next), body.as_slice()))
    }

    /// Opens the gate of the next block, whose body is stable: one write.
    ///
    /// Refuses with `NotDue` where that is not due, and on cells of another log; with `DiskFault` where
    /// the device failed, and then the log stands as if it had not: whoever calls stops.
    pub fn gate<D: Disk>(&mut self, cells: &mut Cells<D>) -> Result<(), Refusal>
        ensures call { Calls D.Disk (disk_of cells.old) (disk_of cells.new) (fault_of result) }
        ensures layout { layout_of cells.new ≡ layout_of cells.old }
        ensures refused { IfSome (step_refusal Step.Gate (layout_of cells.old) self.old) (λ e. IsRefused e self.old self.new (disk_of cells.old) (disk_of cells.new) result) }
        ensures step { step_refusal Step.Gate (layout_of cells.old) self.old ≡ None → IsStep D.Disk (layout_of cells.old) self.old self.new (gated self.old) (λ sealed. sealed) (gate_of (layout_of cells.old) (log_of (layout_of cells.old) self.old.next)) (gate 0xA5) (disk_of cells.old) (disk_of cells.new) result }
    {
        turns_are_taken();
        let layout = cells.layout();
        if let Some(refusal) = self.step_refusal(Step::Gate, layout) {
            return Err(refusal);
        }
        let Phase::Filled(count) = self.phase else {
            return Err(Refusal::NotDue);
        };
        self.phase = Phase::Opening(count);
        refusal_of(cells.open_gate(layout.log_of(self.next)))
    }

    /// Takes note of a sync that succeeded, and says how many records it made durable: those of the
    /// next block where its gate was opened, and none else. Called where no sync succeeded, it says so
    /// all the same: nothing is then durable.
    pub fn synced(&mut self) -> u16
        ensures durable { result ≡ durable_by self.old.phase }
        ensures after { self.new ≡ after_sync self.old }
        ensures log { SyncsLog self.old self.new }
    {
        let index = self.index();
        match self.phase {
            Phase::Resting | Phase::Filled(_) => 0,
            Phase::Closing => {
                self.stands[index] = false;
                self.phase = Phase::Resting;
                0
            }
            Phase::Filling(count) => {
                self.phase = Phase::Filled(count);
                0
            }
            Phase::Opening(count) => {
                self.stands[index] = true;
                self.next += 1;
                self.seqno += u64::from(count);
                self.phase = Phase::Resting;
                count
            }
        }
    }

    /// Lets the blocks before this number go: their cells may be used again. A number behind the next
    /// block's lets all go, and one before the start none.
    pub fn start_at(&mut self, start: u64)
        ensures after { self.new ≡ started start self.old }
        ensures log { StartsLater self.old self.new }
    {
        self.start = self.start.max(start.min(self.next));
    }

    /// Lets all blocks go and goes on behind a state that came from elsewhere: the next block keeps its number and
    /// its cell, and its first record is to have this seqno.
    #[tactic(auto, using(crate::proofs::Synced::log_restarted))]
    pub fn restart(&mut self, seqno: u64)
        requires resting { self.old.phase ≡ Phase.Resting }
        requires later { self.old.next < seqno }
        requires limit { seqno ≤ MAX_SEQNO + 1 }
        ensures after { self.new ≡ restarted seqno self.old }
        ensures log { Restarts seqno self.old self.new }
    {
        let Log {
            start,
            next,
            seqno: following,
            ..
        } = self;
        *start = *next;
        *following = seqno;
    }
}
