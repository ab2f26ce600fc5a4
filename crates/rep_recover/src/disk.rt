//! A device opened for a node: the engine on it, and the certifier beside.

ghost use Rattle.std.specs.Prelude.{◌≡◌, ◌<◌, [], Ok, Err, IfOk, IfErr, MatchResult};
ghost use Rattle.rep_disk.specs.History.{seen};
ghost use Rattle.rep_disk.specs.Devices.{Calls};
ghost use Rattle.rep_layout.specs.Places.{need_of};
ghost use Rattle.rep_cells.specs.Device.{disk_of, layout_of};
ghost use Rattle.rep_engine.specs.BasePages.{IsPooled};
ghost use Rattle.rep_engine.specs.CheckpointMoves.{found_at};
ghost use Rattle.rep_engine.specs.Engines.{IsEngine};
ghost use Rattle.rep_recover.specs.Starting.{engine_of, IsStart, OpensNode};
ghost use Rattle.rep_recover.specs.Opening.{without_log, RefusesToOpen, IsUnwritten};
ghost use Rattle.rep_recover.specs.Looking.{fault_in};

use crate::open::{Opened, read_disk};
use rep_cells::images_read_as_allowed;
use rep_cert::Certifier;
use rep_disk::Disk;
use rep_engine::{
    Checkpoint, Engine, Pool, nodes_leave_their_fronts, pools_go_on, the_base_is_found,
};
use rep_steps::openings_open_the_order;
use rep_types::Refusal;
use std::alloc::Global;

impl<D: Disk> Opened<D> {
    /// The engine on what was found, with the checkpoint at the base, and the certifier beside it.
    fn start(self, alloc: Global, pool: Pool) -> (Engine<D>, Certifier)
        requires pool { IsPooled D.Disk self.superblock.params.rows (layout_of self.cells) (disk_of self.cells) pool }
        requires engine { IsEngine (layout_of self.cells) (found_at self.superblock self.both) self.log self.versions [] }
        ensures engine { result.0 ≡ engine_of (disk_of self.cells) (layout_of self.cells) self.superblock self.both self.log self.versions }
        ensures certifier { result.1 ≡ self.certifier }
    {
        let Opened {
            cells,
            superblock,
            both,
            log,
            certifier,
            versions,
        } = self;
        let checkpoint = Checkpoint::open(superblock, both);
        let engine = Engine::open(alloc, cells, pool, checkpoint, log, versions);
        (engine, certifier)
    }

    /// Gives the device back.
    fn into_disk(self) -> D
        ensures { result ≡ disk_of self.cells }
    {
        let Opened { cells, .. } = self;
        cells.into_disk()
    }
}

/// Opens a device for a node: the engine on it, behind the last item that is durable there, and a certifier to
/// which the items behind the base were delivered. On an honest device the engine goes on as what the bytes
/// mean: as a node of each order that they stand for, whose windows the certifier has.
///
/// It begins with a sync and writes nothing, so that a stop within it changes nothing that the device means,
/// and the device can be opened again.
///
/// The device comes back with a refusal. Each comes where `read_disk` answers it: `NotFormatted` where the
/// device has fewer than 54,272 bytes, which is found before the sync, or where no superblock stands open;
/// `Corrupt` of the first of superblock, window, log and pages that is not of the form; `OutOfMemory`; and
/// `DiskFault` where the device failed.
pub fn open_disk<D: Disk>(alloc: Global, disk: D) -> Result<(Engine<D>, Certifier), (D, Refusal)>
    ensures call { MatchResult result (λ x. Calls {T = Unit {0}} D.Disk disk x.0.disk (Ok tt)) (λ x. Calls D.Disk disk x.0 (fault_in x.1)) }
    ensures small { D.size disk < need_of without_log → result ≡ Err (disk, Refusal.NotFormatted) }
    ensures unwritten { D.honest disk → IfErr result (λ x. IsUnwritten (D.history disk) (D.history x.0)) }
    ensures opened { IfOk result (λ x. IsStart (D.size disk) x.0 x.1.current) }
    ensures recovers { D.honest disk → IfOk result (λ x. OpensNode D.Disk (D.history disk) x.0 x.1.current) }
    ensures refused { IfErr result (λ x. RefusesToOpen (D.honest disk) (seen (D.history disk)) x.1) }
{
    images_read_as_allowed();
    the_base_is_found();
    nodes_leave_their_fronts();
    openings_open_the_order();
    pools_go_on();
    let opened = read_disk(alloc, disk)?;
    match Pool::new(alloc) {
        Ok(pool) => Ok(opened.start(alloc, pool)),
        Err(refusal) => Err((opened.into_disk(), refusal)),
    }
}
