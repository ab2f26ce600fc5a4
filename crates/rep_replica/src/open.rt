//! A device opened for a replica.

ghost use Rattle.std.specs.Prelude.{◌≡◌, ◌<◌, Ok, Err, IfOk, IfErr, MatchResult};
ghost use Rattle.rep_disk.specs.History.{seen};
ghost use Rattle.rep_disk.specs.Devices.{Calls};
ghost use Rattle.rep_layout.specs.Places.{need_of};
ghost use Rattle.rep_recover.specs.Looking.{fault_in};
ghost use Rattle.rep_recover.specs.Opening.{without_log, RefusesToOpen, IsUnwritten};
ghost use Rattle.rep_replica.specs.Opening.{Begins, Opens};

use crate::replica::Replica;
use rep_backlog::Backlog;
use rep_disk::Disk;
use rep_recover::open_disk;
use rep_types::Refusal;
use std::alloc::Global;

impl<D: Disk> Replica<D> {
    /// Opens a device: the replica goes on behind the last item that is durable there. On an honest device it stands
    /// for what the bytes mean, and, where they stand for an order, for a node of that order.
    ///
    /// It begins with a sync and writes nothing, so that a stop within it changes nothing that the device means,
    /// and the device can be opened again.
    ///
    /// The device comes back with a refusal. Refuses with `NotFormatted` where the device has fewer than 54,272
    /// bytes, which is found before the sync, or where no superblock stands open; with `Corrupt` of the first of
    /// superblock, window, log and pages that is not of the form; with `OutOfMemory`; and with `DiskFault` where
    /// the device failed.
    pub fn open(alloc: Global, disk: D) -> Result<Replica<D>, (D, Refusal)>
        ensures call { MatchResult result (λ r. Calls {T = Unit {0}} D.Disk disk r.engine.disk (Ok tt)) (λ x. Calls D.Disk disk x.0 (fault_in x.1)) }
        ensures small { D.size disk < need_of without_log → result ≡ Err (disk, Refusal.NotFormatted) }
        ensures unwritten { D.honest disk → IfErr result (λ x. IsUnwritten (D.history disk) (D.history x.0)) }
        ensures begins { IfOk result (λ r. Begins (D.size disk) r) }
        ensures opens { D.honest disk → IfOk result (λ r. Opens D.Disk (D.history disk) r) }
        ensures refused { IfErr result (λ x. RefusesToOpen (D.honest disk) (seen (D.history disk)) x.1) }
    {
        let (engine, certifier) = open_disk(alloc, disk)?;
        // Tells the proof what holds of the engine.
        let _durable = engine.durable();
        match Backlog::new(alloc) {
            Ok(backlog) => Ok(Replica {
                engine,
                backlog,
                certifier,
                stopped: false,
            }),
            Err(refusal) => Err((engine.into_disk(), refusal)),
        }
    }
}
