//! A client of the log, proved from its contracts alone: a block is appended, so that a stop at any
//! moment leaves the log that was or the log with it, and what a stop leaves is found again.

ghost use Rattle.std.specs.Prelude.{◌≡◌, ◌+◌, ℕ, None, List, IfOk, IfErr};
ghost use Rattle.rep_types.specs.declared.judged.Judged.{Judged};
ghost use Rattle.rep_types.specs.declared.refusal.Refusal.TheVariants.{Corrupt};
ghost use Rattle.rep_types.specs.declared.refusal.Part.TheVariants.{Log as in_log};
ghost use Rattle.rep_disk.specs.History.{seen};
ghost use Rattle.rep_cells.specs.States.{States};
ghost use Rattle.rep_cells.specs.Readings.{reading_of};
ghost use Rattle.rep_cells.specs.Device.{disk_of, layout_of};
ghost use Rattle.rep_cells.specs.Known.{Assigns, found};
ghost use Rattle.rep_log.specs.Tail.{IsOfForm};
ghost use Rattle.rep_log.specs.Standing.{LogIs};
ghost use Rattle.rep_log.specs.Moves.{after_sync, seal_refusal};
ghost use Rattle.rep_log.specs.Scanning.{Finds};
ghost use Rattle.uses_log.specs.Appending.{Settles, Appends, WhatAStopLeavesIsFound};

use rep_cells::{Cells, images_read_as_allowed};
use rep_disk::Disk;
use rep_log::{Log, the_log_in_every_image, the_log_is_told};
use rep_record::BlockBuilder;
use rep_types::{Judged, Refusal};
use std::alloc::Global;

/// Makes stable what was written of the log.
pub fn settle<D: Disk>(log: &mut Log, cells: &mut Cells<D>) -> Result<(), Refusal>
    ensures layout { layout_of cells.new ≡ layout_of cells.old }
    ensures honest { D.honest (disk_of cells.old) → D.honest (disk_of cells.new) }
    ensures after { IfOk result (λ x. log.new ≡ after_sync log.old) }
    ensures settled { D.honest (disk_of cells.old) → (s : States) (first : ℕ) (blocks : List (List Judged)) (sealed : List Judged) → Assigns (layout_of cells.old) (D.history (disk_of cells.old)) s → LogIs (layout_of cells.old) log.old first blocks sealed s
        → Settles (layout_of cells.old) (D.history (disk_of cells.old)) (D.history (disk_of cells.new)) s log.old log.new first blocks sealed result }
{
    if cells.sync().is_err() {
        return Err(Refusal::DiskFault);
    }
    log.synced();
    Ok(())
}

/// Appends a block to a log whose next cell is closed: writes it, makes it stable, opens the gate and
/// makes that stable.
pub fn append<D: Disk>(
    log: &mut Log,
    cells: &mut Cells<D>,
    block: &BlockBuilder,
) -> Result<(), Refusal>
    ensures appended { D.honest (disk_of cells.old) → seal_refusal (layout_of cells.old) log.old block.now ≡ None → (s : States) (first : ℕ) (blocks : List (List Judged)) (sealed : List Judged) → Assigns (layout_of cells.old) (D.history (disk_of cells.old)) s → LogIs (layout_of cells.old) log.old first blocks sealed s
        → Appends (layout_of cells.old) (D.history (disk_of cells.old)) (D.history (disk_of cells.new)) log.old.start log.new first blocks block.now result }
{
    the_log_in_every_image();
    log.seal(cells, block)?;
    settle(log, cells)?;
    log.gate(cells)?;
    settle(log, cells)
}

/// Finds the log on a device of unknown past, whose superblock has this start and this position:
/// syncs first, and reads all cells.
pub fn find<D: Disk>(
    alloc: Global,
    cells: &mut Cells<D>,
    start: u64,
    position: u64,
) -> Result<(Log, Vec<Judged>), Refusal>
    ensures found { D.honest (disk_of cells.old) → IfOk result (λ x. Finds (layout_of cells.old) (seen (D.history (disk_of cells.old))) start (position + 1) x.0 x.1.items × Assigns (layout_of cells.old) (D.history (disk_of cells.new)) (found (layout_of cells.old) (seen (D.history (disk_of cells.old))))) }
    ensures corrupt { D.honest (disk_of cells.old) → IfErr result (λ e. e ≡ Corrupt in_log → IsOfForm (reading_of (layout_of cells.old) (seen (D.history (disk_of cells.old)))) (layout_of cells.old) start (position + 1) → ⊥) }
{
    if cells.sync().is_err() {
        return Err(Refusal::DiskFault);
    }
    let mut items = Vec::new(alloc);
    let log = Log::scan(cells, start, position, &mut items)?;
    Ok((log, items))
}

/// What is found after a stop, at any moment: the durable blocks from the start on, with or without
/// the one whose gate was opening.
pub fn what_a_stop_leaves_is_found()
    ensures { WhatAStopLeavesIsFound }
{
    images_read_as_allowed();
    the_log_in_every_image();
    the_log_is_told();
}
