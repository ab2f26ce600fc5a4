//! The log behind a superblock.

ghost use Rattle.std.specs.Prelude.{◌≡◌, ◌+◌, List, [], IfOk, IfErr};
ghost use Rattle.rep_types.specs.declared.judged.Judged.{Judged};
ghost use Rattle.rep_types.specs.declared.refusal.Part.TheVariants.{Log as in_log};
ghost use Rattle.rep_record.specs.Replaying.{Rejected};
ghost use Rattle.rep_disk.specs.History.{seen, failed};
ghost use Rattle.rep_layout.specs.Places.{layout_of as layout_with};
ghost use Rattle.rep_layout.specs.Supers.{IsNil, IsSuper};
ghost use Rattle.rep_cells.specs.Device.{disk_of, layout_of};
ghost use Rattle.rep_cells.specs.Readings.{reading_of};
ghost use Rattle.rep_log.specs.Tail.{records_of};
ghost use Rattle.rep_log.specs.Scanning.{Scans};
ghost use Rattle.rep_recover.specs.Looking.{Looks, RefusesGrowing, HasBlocks};

use crate::judge::{CORRUPT, Judging};
use rep_cells::Cells;
use rep_disk::Disk;
use rep_layout::SuperBody;
use rep_log::{Log, the_log_is_told};
use rep_record::Replays;
use rep_types::Refusal;

/// The log behind the superblock, whose items are judged again as they are read.
///
/// Refuses with `Corrupt` of the log cells that hold none, as `Log::scan` says, an item that judging does not
/// give again, and a cell that is taken where the node belongs to no cluster; with `OutOfMemory`; and with
/// `DiskFault` where the device failed.
pub(crate) fn find_log<D: Disk>(
    cells: &mut Cells<D>,
    superblock: &SuperBody,
    judging: &mut Judging,
) -> Result<Log, Refusal>
    requires form { IsSuper superblock.now }
    requires layout { layout_of cells.old ≡ layout_with superblock.now.params }
    ensures layout { layout_of cells.new ≡ layout_of cells.old }
    ensures looks { Looks D.Disk (disk_of cells.old) (disk_of cells.new) result }
    ensures scans { IfOk result (λ log. Scans ⟦<Judging as Replays>⟧ (D.honest (disk_of cells.old) × (failed (D.history (disk_of cells.old)) ≡ [])) (layout_of cells.old) (seen (D.history (disk_of cells.old))) superblock.now.start (superblock.now.position + 1) log judging.old judging.new) }
    ensures undefined { IfOk result (λ log. IsNil superblock.now.uuid → log.seqno ≡ superblock.now.position + 1) }
    ensures refused { IfErr result (RefusesGrowing in_log (D.honest (disk_of cells.old) → failed (D.history (disk_of cells.old)) ≡ [] → (blocks : List (List Judged)) → HasBlocks (reading_of (layout_of cells.old) (seen (D.history (disk_of cells.old)))) superblock.now blocks → Rejected ⟦<Judging as Replays>⟧ judging.old (records_of blocks))) }
{
    the_log_is_told();
    let log = Log::scan(cells, superblock.start, superblock.position, judging)?;
    if superblock.uuid.is_nil() && log.durable() != superblock.position {
        return Err(CORRUPT);
    }
    Ok(log)
}
