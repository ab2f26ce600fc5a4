//! The log's next write, and what is read of the base: work on the engine's parts.

ghost use Rattle.std.specs.Prelude.{◌≡◌, ◌⊎◌, IfErr};
ghost use Rattle.rep_types.specs.declared.refusal.Refusal.TheVariants.{DiskFault, Corrupt};
ghost use Rattle.rep_types.specs.declared.refusal.Part.TheVariants.{Pages};
ghost use Rattle.rep_record.specs.Blocks.{first_seqno};
ghost use Rattle.rep_disk.specs.Devices.{Calls, SameHistory};
ghost use Rattle.rep_layout.specs.Places.{layout_of as places_of, log_of};
ghost use Rattle.rep_layout.specs.Supers.{IsSuper};
ghost use Rattle.rep_cells.specs.Device.{disk_of, layout_of};
ghost use Rattle.rep_cells.specs.Calls.{WritesIn};
ghost use Rattle.rep_log.specs.Standing.{due_of};
ghost use Rattle.rep_log.specs.Moves.{fault_of};
ghost use Rattle.rep_log.specs.declared.phase.Step.TheVariants.{Seal};
ghost use Rattle.rep_pool.specs.BasePages.{IsPooled, GoesOn};
ghost use Rattle.rep_engine.specs.Writing.{IsWrite, WritesNext, ReadsBase, ReadsAsSpelled};

use rep_cells::Cells;
use rep_checkpoint::stable_bases_are_read;
use rep_disk::Disk;
use rep_layout::{SuperBody, page_of};
use rep_log::{Log, Step};
use rep_pool::Pool;
use rep_record::BlockBuilder;
use rep_types::{Key, Refusal, Value};

/// Writes what the log has to write next: the closed gate of a stale cell, the block, or its open gate.
#[tactic(auto, using(crate::proofs::Due::recycle_due, crate::proofs::Due::seal_due, crate::proofs::Due::gate_due))]
pub(crate) fn write_next<D: Disk>(
    log: &mut Log,
    cells: &mut Cells<D>,
    block: &BlockBuilder,
) -> Result<(), Refusal>
    requires cells { (layout_of cells.old).cells ≡ log.old.cells }
    requires block { first_seqno block.now ≡ log.old.seqno }
    requires due { IsWrite (due_of log.old) }
    ensures call { Calls D.Disk (disk_of cells.old) (disk_of cells.new) (fault_of result) }
    ensures layout { layout_of cells.new ≡ layout_of cells.old }
    ensures inside { WritesIn D.Disk (layout_of cells.old) (log_of (layout_of cells.old) log.old.next) (disk_of cells.old) (disk_of cells.new) result }
    ensures written { WritesNext D.Disk (layout_of cells.old) (due_of log.old) block.now log.old log.new (disk_of cells.old) (disk_of cells.new) result }
{
    match log.step_due() {
        Step::Recycle => log.recycle(cells),
        Step::Seal => log.seal(cells, block),
        Step::Gate => log.gate(cells),
        Step::Sync | Step::Full => Ok(()),
    }
}

/// What the row is at the base: what its page has, in the slot in which it stands.
pub(crate) fn base_row<D: Disk>(
    cells: &mut Cells<D>,
    pool: &mut Pool,
    superblock: &SuperBody,
    key: Key,
) -> Result<Option<Value>, Refusal>
    requires super_body { IsSuper superblock.now }
    requires layout { layout_of cells.old ≡ places_of superblock.now.params }
    ensures call { Calls D.Disk (disk_of cells.old) (disk_of cells.new) (fault_of result) }
    ensures layout { layout_of cells.new ≡ layout_of cells.old }
    ensures same { SameHistory D.Disk (disk_of cells.old) (disk_of cells.new) }
    ensures read { IsPooled D.Disk superblock.now.params.rows (layout_of cells.old) (disk_of cells.old) pool.old → ReadsBase D.Disk (layout_of cells.old) superblock.now key (disk_of cells.old) result }
    ensures spelled { IsPooled D.Disk superblock.now.params.rows (layout_of cells.old) (disk_of cells.old) pool.old → ReadsAsSpelled D.Disk (layout_of cells.old) superblock.now key (disk_of cells.old) result }
    ensures agrees { GoesOn D.Disk superblock.now.params.rows (layout_of cells.old) (disk_of cells.old) (disk_of cells.new) pool.old pool.new }
    ensures refused { IfErr result (λ e. (e ≡ DiskFault) ⊎ (e ≡ Corrupt Pages)) }
{
    stable_bases_are_read();
    let Some(place) = page_of(superblock.params.schema(), key) else {
        return Ok(None);
    };
    pool.row(cells, superblock, place)
}
