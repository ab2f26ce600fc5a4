//! What the cells hold after a stop, one by one.

ghost use Rattle.std.specs.Prelude.{◌≡◌, ◌+◌, ◌<◌, ◌≤◌, ◌%◌, List, length, OnOk, IfErr, IfSome, option_map, ◌⊎◌, []};
ghost use Rattle.rep_types.specs.declared.judged.Judged.{Judged};
ghost use Rattle.rep_record.specs.declared.limits.TheConstants.{BLOCK};
ghost use Rattle.rep_record.specs.Blocks.{IsNextBlock, RefusesRecords};
ghost use Rattle.rep_record.specs.Replaying.{Replayed, Rejected};
ghost use Rattle.rep_disk.specs.History.{seen, failed};
ghost use Rattle.rep_disk.specs.Devices.{Calls, SameHistory};
ghost use Rattle.rep_layout.specs.Places.{log_of};
ghost use Rattle.rep_cells.specs.Readings.{reading_of};
ghost use Rattle.rep_cells.specs.Device.{disk_of, layout_of};
ghost use Rattle.rep_log.specs.Tail.{cell_in};
ghost use Rattle.rep_log.specs.Moves.{fault_of};
ghost use Rattle.rep_types.specs.declared.limits.TheConstants.{MAX_CELLS, MAX_SEQNO};
ghost use Rattle.rep_log.specs.Scanning.{HasCells, IsBegun, taken_with, Visits, ReadsOn, IsNoCell};

use crate::ring::CELLS;
use rep_cells::Cells;
use rep_disk::Disk;
use rep_forms::read_u64;
use rep_layout::{Layout, turns_are_taken};
use rep_record::{Replays, replay_block};
use rep_types::{Part, Refusal};
use std::marker::Model;

/// What is answered where the cells hold no log.
pub(crate) const CORRUPT: Refusal = Refusal::Corrupt { part: Part::Log };

/// The number that a cell's body begins with.
#[tactic(auto, unfolding(rep_forms::specs::Forms::part))]
fn number_of(body: &[u8]) -> u64
    requires { length body.now ≡ BLOCK }
    ensures { result ≡ cell_in body.now }
{
    match read_u64(body) {
        Some((number, _)) => number,
        None => unreachable!(),
    }
}

/// How far a scan has come.
#[derive(Drop)]
pub(crate) struct Scan {
    /// The number of the block that it began with.
    pub(crate) from: u64,
    /// The number behind the last block that was taken.
    pub(crate) next: u64,
    /// The seqno behind its last record.
    pub(crate) seqno: u64,
    /// Which cells stand open.
    pub(crate) stands: [bool; CELLS],
}

impl Model for Scan {
    ghost use Rattle.std.specs.Prelude.{◌≡◌, ◌+◌, ◌<◌, ◌≤◌, length};
    ghost use Rattle.rep_types.specs.declared.limits.TheConstants.{MAX_CELLS, MAX_SEQNO};
    ghost use Rattle.rep_log.specs.Scanning.{Found};

    ghost Value = { Found };

    ghost view = { λ scan. record { from = scan.from; next = scan.next; seqno = scan.seqno; stands = scan.stands } };

    ghost invariant = { λ scan. (scan.from ≤ scan.next) × (scan.next < scan.seqno) × (scan.seqno ≤ MAX_SEQNO + 1) × (length scan.stands ≡ MAX_CELLS) };
}

impl Scan {
    /// A scan from the block of this number on, whose records come behind this position.
    pub(crate) fn new(start: u64, position: u64) -> Scan
        requires { (start ≤ position) × (position ≤ MAX_SEQNO) }
        ensures begun { IsBegun result start (position + 1) }
        ensures stands { length result.stands ≡ MAX_CELLS }
    {
        Scan {
            from: start,
            next: start,
            seqno: position + 1,
            stands: [false; CELLS],
        }
    }

    /// Takes the block of the next number, and gives its records on.
    fn take<S: Replays>(&mut self, body: &[u8], to: &mut S) -> Result<(), Refusal>
        ensures stands { OnOk result (length self.new.stands ≡ MAX_CELLS) }
        ensures taken { OnOk result ((records : List Judged) × IsNextBlock self.old.next self.old.seqno body.now records × (self.new ≡ taken_with records self.old) × Replayed S.Replays to.old records to.new) }
        ensures refused { IfErr result (RefusesRecords ((records : List Judged) → IsNextBlock self.old.next self.old.seqno body.now records → Rejected S.Replays to.old records)) }
    {
        let count = replay_block(body, self.next, self.seqno, to)?;
        self.next += 1;
        self.seqno += u64::from(count);
        Ok(())
    }

    /// Goes on by the cell of the block of this number, which reads as `found`.
    pub(crate) fn visit<S: Replays>(
        &mut self,
        found: Option<&[u8]>,
        number: u64,
        layout: Layout,
        to: &mut S,
    ) -> Result<(), Refusal>
        requires cells { HasCells layout }
        requires size { IfSome found (λ body. length body.now ≡ BLOCK) }
        ensures stands { OnOk result (length self.new.stands ≡ MAX_CELLS) }
        ensures visited { OnOk result ((records : List Judged) × Visits layout number (option_map (λ body. body.now) found.entry) self.old self.new records × Replayed S.Replays to.old records to.new) }
        ensures refused { IfErr result (RefusesRecords (IsNoCell (Rejected S.Replays to.old) layout number (option_map (λ body. body.now) found.entry) self.old)) }
    {
        let cells = u64::from(layout.cells);
        self.stands[(number % cells) as usize] = found.is_some();
        let Some(body) = found else {
            return Ok(());
        };
        let held = number_of(body);
        if held == number && number == self.next {
            return self.take(body, to);
        }
        if held % cells != number % cells || held >= self.from {
            return Err(CORRUPT);
        }
        Ok(())
    }

    /// Reads the cell of the block of this number, in the room that the caller lends, and goes on by it.
    pub(crate) fn read_on<D: Disk, S: Replays>(
        &mut self,
        cells: &mut Cells<D>,
        number: u64,
        room: &mut [u8],
        to: &mut S,
    ) -> Result<(), Refusal>
        requires cells { HasCells (layout_of cells.old) }
        requires room { length room.old ≡ BLOCK }
        ensures room { length room.new ≡ BLOCK }
        ensures call { Calls D.Disk (disk_of cells.old) (disk_of cells.new) (fault_of result) }
        ensures layout { layout_of cells.new ≡ layout_of cells.old }
        ensures same { SameHistory D.Disk (disk_of cells.old) (disk_of cells.new) }
        ensures from { OnOk result (self.new.from ≡ self.old.from) }
        ensures stands { OnOk result (length self.new.stands ≡ MAX_CELLS) }
        ensures visited { OnOk result (ReadsOn S.Replays (λ cell. D.honest (disk_of cells.old) → failed (D.history (disk_of cells.old)) ≡ [] → cell ≡ reading_of (layout_of cells.old) (seen (D.history (disk_of cells.old))) (log_of (layout_of cells.old) number)) (layout_of cells.old) number self.old self.new to.old to.new) }
        ensures refused { IfErr result (λ e. (e ≡ Refusal.DiskFault) ⊎ RefusesRecords (D.honest (disk_of cells.old) → failed (D.history (disk_of cells.old)) ≡ [] → IsNoCell (Rejected S.Replays to.old) (layout_of cells.old) number (reading_of (layout_of cells.old) (seen (D.history (disk_of cells.old))) (log_of (layout_of cells.old) number)) self.old) e) }
    {
        turns_are_taken();
        let layout = cells.layout();
        let Ok(found) = cells.read_cell(layout.log_of(number), room) else {
            return Err(Refusal::DiskFault);
        };
        self.visit(found, number, layout, to)
    }
}
