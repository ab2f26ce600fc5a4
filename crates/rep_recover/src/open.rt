//! What a device holds, read once at the opening.

ghost use Rattle.std.specs.Prelude.{◌≡◌, ◌≤◌, ◌<◌, List, [], Ok, Err, OnOk, IfOk, IfErr, MatchResult};
ghost use Rattle.rep_types.specs.declared.judged.Judged.{Judged};
ghost use Rattle.rep_disk.specs.History.{Synced, seen, failed};
ghost use Rattle.rep_disk.specs.Devices.{Calls};
ghost use Rattle.rep_layout.specs.Places.{side_of, layout_of as layout_with, need_of};
ghost use Rattle.rep_layout.specs.Supers.{IsSuper};
ghost use Rattle.rep_cells.specs.Device.{disk_of, layout_of};
ghost use Rattle.rep_cells.specs.Readings.{reading_of};
ghost use Rattle.rep_log.specs.Moves.{fault_of};
ghost use Rattle.rep_engine.specs.Bases.{IsSuperAt};
ghost use Rattle.rep_recover.specs.Looking.{Looks, fault_in, Counts, HasNoSuper, HasBadSuper, RefusesSupers};
ghost use Rattle.rep_recover.specs.Opening.{without_log, FailsBehind, IsBehind, StandsBehind, RefusesBehind, IsOpened, Recovers, RefusesToOpen, IsUnwritten};

use crate::judge::Judging;
use crate::logs::find_log;
use crate::pages::read_pages;
use crate::supers::find_super;
use crate::windows::read_window;
use rep_cells::{Cells, found_states_stand};
use rep_cert::Certifier;
use rep_disk::{Disk, images_of_a_moment};
use rep_layout::{Layout, SuperBody};
use rep_log::Log;
use rep_pages::pages_are_told;
use rep_types::Refusal;
use rep_versions::{Versions, versions_follow_the_items};
use std::alloc::Global;

/// What stands behind a superblock.
#[derive(Drop)]
struct Behind {
    log: Log,
    judging: Judging,
}

/// What stands behind the superblock: its window and the log, whose items are judged again as they are read, and
/// each page that it has in a slot, of which only the form is looked at.
fn read_behind<D: Disk>(
    alloc: Global,
    cells: &mut Cells<D>,
    superblock: &SuperBody,
) -> Result<Behind, Refusal>
    requires form { IsSuper superblock.now }
    requires layout { layout_of cells.old ≡ layout_with superblock.now.params }
    ensures layout { layout_of cells.new ≡ layout_of cells.old }
    ensures looks { Looks D.Disk (disk_of cells.old) (disk_of cells.new) result }
    ensures found { IfOk result (λ x. (items : List Judged) × IsBehind superblock.now x.log items x.judging.certifier.current x.judging.versions
        × (D.honest (disk_of cells.old) → failed (D.history (disk_of cells.old)) ≡ [] → StandsBehind (seen (D.history (disk_of cells.old))) superblock.now x.log items x.judging.certifier.current x.judging.versions)) }
    ensures refused { IfErr result (RefusesBehind (λ part. D.honest (disk_of cells.old) → failed (D.history (disk_of cells.old)) ≡ [] → FailsBehind part (reading_of (layout_with superblock.now.params) (seen (D.history (disk_of cells.old)))) superblock.now)) }
{
    versions_follow_the_items();
    let position = superblock.position;
    let beside = read_window(alloc, cells, superblock)?;
    let mut judging = Judging::new(alloc, superblock.params.copied(), position, beside)?;
    let log = find_log(cells, superblock, &mut judging)?;
    read_pages(cells, superblock)?;
    Ok(Behind { log, judging })
}

/// What a device holds, as a node goes on with it.
#[derive(Drop)]
pub struct Opened<D: Disk> {
    /// The device, seen as the places of the superblock's parameters.
    pub cells: Cells<D>,
    /// The superblock that counts.
    pub superblock: SuperBody,
    /// Whether the other superblock stands open too: a stop came before it was closed.
    pub both: bool,
    /// The log, at rest behind its last block. Its items stand behind the superblock's position.
    pub log: Log,
    /// A certifier to which they were delivered.
    pub certifier: Certifier,
    /// What those of them that commit wrote.
    pub versions: Versions,
}

/// Makes stable what the device holds, and finds the superblock that counts, and whether the other one stands
/// open too.
fn find_synced<D: Disk>(cells: &mut Cells<D>) -> Result<(SuperBody, bool), Refusal>
    ensures layout { layout_of cells.new ≡ layout_of cells.old }
    ensures call { Calls D.Disk (disk_of cells.old) (disk_of cells.new) (fault_of result) }
    ensures synced { D.honest (disk_of cells.old) → OnOk result (D.history (disk_of cells.new) ≡ Synced (D.history (disk_of cells.old))) }
    ensures unwritten { D.honest (disk_of cells.old) → IsUnwritten (D.history (disk_of cells.old)) (D.history (disk_of cells.new)) }
    ensures form { IfOk result (λ x. IsSuperAt (D.size (disk_of cells.old)) (side_of x.0.number) x.0) }
    ensures found { D.honest (disk_of cells.old) → IfOk result (λ x. Counts (D.size (disk_of cells.old)) (reading_of (layout_of cells.old) (seen (D.history (disk_of cells.old)))) x.0 x.1) }
    ensures refused { IfErr result (RefusesSupers (D.honest (disk_of cells.old) → HasNoSuper (reading_of (layout_of cells.old) (seen (D.history (disk_of cells.old))))) (D.honest (disk_of cells.old) → HasBadSuper (D.size (disk_of cells.old)) (reading_of (layout_of cells.old) (seen (D.history (disk_of cells.old)))))) }
{
    if cells.sync().is_err() {
        return Err(Refusal::DiskFault);
    }
    find_super(cells)
}

/// The same device, seen as the places of another layout.
fn relaid<D: Disk>(cells: Cells<D>, layout: Layout) -> Cells<D>
    requires { need_of layout ≤ D.size (disk_of cells) }
    ensures disk { disk_of result ≡ disk_of cells }
    ensures layout { layout_of result ≡ layout }
{
    match Cells::new(cells.into_disk(), layout) {
        Ok(cells) => cells,
        Err(_) => unreachable!(),
    }
}

/// Opens a device: makes stable what it holds, finds the superblock that counts, its window, its log and its
/// pages, and judges each item of the log again. It writes nothing, so that a stop within it changes nothing
/// that the device means.
///
/// The device comes back with a refusal. Refuses with `NotFormatted` where the device has fewer than 54,272
/// bytes, which is found before the sync, or where no superblock stands open; and with `Corrupt` of the first of
/// superblock, window, log and pages that is not of the form:
///
/// - a superblock that stands open is no superblock of its side, or has places that the device has no room for,
///   also beside one that counts, which is the one of the greater number;
/// - the window beside that one is not of the form, or of another format, number or position;
/// - the log has cells of no log, as `Log::scan` says, an item that has another seqno or another verdict than
///   judging it gives, or an item at all where the node belongs to no cluster;
/// - a page in a slot that the superblock names is not of the form, of another number, or of a position above
///   the superblock's.
///
/// Refuses with `OutOfMemory`, and with `DiskFault` where the device failed.
pub fn read_disk<D: Disk>(alloc: Global, disk: D) -> Result<Opened<D>, (D, Refusal)>
    ensures call { MatchResult result (λ o. Calls {T = Unit {0}} D.Disk disk (disk_of o.cells) (Ok tt)) (λ x. Calls D.Disk disk x.0 (fault_in x.1)) }
    ensures small { D.size disk < need_of without_log → result ≡ Err (disk, Refusal.NotFormatted) }
    ensures unwritten { D.honest disk → IfErr result (λ x. IsUnwritten (D.history disk) (D.history x.0)) }
    // On any device, and on an honest one.
    ensures opened { IfOk result (λ o. (items : List Judged) × IsOpened (D.size disk) o.superblock (layout_of o.cells) o.log items o.certifier.current o.versions
        × (D.honest disk → Recovers (D.history disk) (D.history (disk_of o.cells)) o.superblock o.both o.log items o.certifier.current o.versions)) }
    ensures refused { IfErr result (λ x. RefusesToOpen (D.honest disk) (seen (D.history disk)) x.1) }
{
    images_of_a_moment();
    found_states_stand();
    pages_are_told();
    let bare = Layout { cells: 0, pages: 0 };
    let mut cells = match Cells::new(disk, bare) {
        Ok(cells) => cells,
        Err(disk) => return Err((disk, Refusal::NotFormatted)),
    };
    let (superblock, both) = match find_synced(&mut cells) {
        Ok(found) => found,
        Err(refusal) => return Err((cells.into_disk(), refusal)),
    };
    let layout = Layout::new(&superblock.params);
    let mut cells = relaid(cells, layout);
    match read_behind(alloc, &mut cells, &superblock) {
        Ok(behind) => Ok(behind.opened(cells, superblock, both)),
        Err(refusal) => Err((cells.into_disk(), refusal)),
    }
}

impl Behind {
    /// What stands behind the superblock, with it.
    fn opened<D: Disk>(self, cells: Cells<D>, superblock: SuperBody, both: bool) -> Opened<D>
        ensures { result ≡ record { cells = cells; superblock = superblock; both = both; log = self.log; certifier = self.judging.certifier; versions = self.judging.versions } }
    {
        let Behind { log, judging } = self;
        let Judging {
            certifier,
            versions,
        } = judging;
        Opened {
            cells,
            superblock,
            both,
            log,
            certifier,
            versions,
        }
    }
}
