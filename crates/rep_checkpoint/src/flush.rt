//! How the pages of a checkpoint are flushed.

ghost use Rattle.std.specs.Prelude.{◌≡◌, ◌⊎◌, None, IfErr, IfSome, OnErr};
ghost use Rattle.rep_types.specs.declared.key.Key.{Key};
ghost use Rattle.rep_types.specs.declared.refusal.Refusal.TheVariants.{DiskFault, Corrupt};
ghost use Rattle.rep_types.specs.declared.refusal.Part.TheVariants.{Pages};
ghost use Rattle.rep_disk.specs.Devices.{Calls};
ghost use Rattle.rep_layout.specs.Places.{layout_of as places_of};
ghost use Rattle.rep_layout.specs.Supers.{IsSuper};
ghost use Rattle.rep_cells.specs.Device.{disk_of, layout_of};
ghost use Rattle.rep_log.specs.Moves.{fault_of};
ghost use Rattle.rep_pages.specs.Pages.{IsFirstRow, IsPage};
ghost use Rattle.rep_pages.specs.Slots.{state_of_page, spare_slot};
ghost use Rattle.rep_checkpoint.specs.Moves.{flush_refusal, flushed, position_in};
ghost use Rattle.rep_pool.specs.Pools.{without_page};
ghost use Rattle.rep_pool.specs.BasePages.{IsPooled, GoesOnIf};
ghost use Rattle.rep_checkpoint.specs.Calls.{IsRefused, Flushes};
ghost use Rattle.rep_checkpoint.specs.Pages.{PutsPage, MovesPage};

use crate::checkpoint::Checkpoint;
use crate::going::is_here;
use crate::laws::stable_bases_are_read;
use crate::stage::{Part, Stage, is_in};
use rep_cells::{Cells, images_read_as_allowed, refusal_of};
use rep_disk::Disk;
use rep_layout::{Layout, Place, SuperBody, row_places_are_told};
use rep_pages::{Page, spare_of};
use rep_pool::{Pool, pools_go_on};
use rep_types::Refusal;
use rep_versions::Versions;

/// Writes a page into the slot in which the base does not have it.
pub(crate) fn put_page<D: Disk>(
    cells: &mut Cells<D>,
    base: &SuperBody,
    page: &Page,
) -> Result<(), Refusal>
    requires layout { layout_of cells.old ≡ places_of base.now.params }
    requires page { (first : Key) × IsPage base.now.params.rows first page.now }
    ensures call { Calls D.Disk (disk_of cells.old) (disk_of cells.new) (fault_of result) }
    ensures layout { layout_of cells.new ≡ layout_of cells.old }
    ensures puts { PutsPage D.Disk (layout_of cells.old) base.now page.now (spare_slot (state_of_page base.now page.now.number)) (disk_of cells.old) (disk_of cells.new) (fault_of result) }
    ensures refused { IfErr result (λ e. e ≡ DiskFault) }
{
    row_places_are_told();
    let slot = spare_of(base, page.number);
    let Some(body) = page.write_body(base.params.schema()) else {
        unreachable!();
    };
    refusal_of(cells.write_area(Place::Page(page.number, slot), body.as_slice()))
}

/// Writes the base's page of this number, as it is at the position, into the slot in which the base does not
/// have it. The pool keeps nothing of the page from then on.
fn move_page<D: Disk>(
    cells: &mut Cells<D>,
    pool: &mut Pool,
    base: &SuperBody,
    versions: &Versions,
    position: u64,
    number: u32,
) -> Result<(), Refusal>
    requires super_body { IsSuper base.now }
    requires layout { layout_of cells.old ≡ places_of base.now.params }
    requires page { (first : Key) × IsFirstRow base.now.params.rows number first }
    ensures call { Calls D.Disk (disk_of cells.old) (disk_of cells.new) (fault_of result) }
    ensures layout { layout_of cells.new ≡ layout_of cells.old }
    ensures moves { IsPooled D.Disk base.now.params.rows (layout_of cells.old) (disk_of cells.old) pool.old → MovesPage D.Disk (layout_of cells.old) base.now versions.now position number (disk_of cells.old) (disk_of cells.new) result }
    ensures agrees { GoesOnIf D.Disk base.now.params.rows (layout_of cells.old) (disk_of cells.old) (disk_of cells.new) pool.old pool.new result }
    ensures without { pool.new ≡ without_page number pool.old }
    ensures refused { IfErr result (λ e. (e ≡ DiskFault) ⊎ (e ≡ Corrupt Pages)) }
{
    images_read_as_allowed();
    stable_bases_are_read();
    pools_go_on();
    let old = match pool.take_page(cells, base, number) {
        Ok(page) => page,
        Err(refusal) => return Err(refusal),
    };
    let page = old.image(base.params.schema(), versions, position);
    put_page(cells, base, &page)
}

impl Checkpoint {
    /// Why a page is not flushed on a device with these places.
    fn flush_refusal(&self, layout: Layout, page: u32) -> Option<Refusal>
        ensures { result ≡ flush_refusal layout self.now page }
    {
        if !is_here(layout, &self.base) {
            return Some(Refusal::NotDue);
        }
        match &self.stage {
            Stage::Toward(next, Part::Flushing) => {
                if is_in(&next.left, page) {
                    None
                } else {
                    Some(Refusal::NotDue)
                }
            }
            Stage::Toward(_, _) | Stage::Off | Stage::Retiring(_) => Some(Refusal::NotDue),
        }
    }

    /// The position that the next base is to be at.
    fn next_position(&self) -> u64
        ensures { result ≡ position_in self.now.stage }
    {
        match &self.stage {
            Stage::Toward(next, _) => next.superblock.position,
            Stage::Off | Stage::Retiring(_) => 0,
        }
    }

    /// Takes note of a page that was flushed.
    fn flushed(&mut self, page: u32)
        ensures { self.new ≡ flushed page self.old }
    {
        if let Stage::Toward(next, _) = &mut self.stage {
            next.flushed(page);
        }
    }

    /// Flushes a page that is left: writes its rows as the versions make them of the base's, at the next base's
    /// position and not later, into the slot in which the base does not have it. One read of the device where the
    /// base has the page in a slot and the pool does not keep it, one write, and no memory. The pool keeps nothing of
    /// the page from then on.
    ///
    /// Refuses with `NotDue` where the page is not left, and on the places of other parameters; with `Corrupt`
    /// of the pages exactly where the base's page is not of the form, of its number, and of a position not above
    /// the base's: an honest device shows no such page of a base that stands; and with `DiskFault` where the
    /// device failed. The checkpoint then stands as it did, and on a device that failed nothing more is known of
    /// what it wrote: whoever calls stops.
    pub fn flush<D: Disk>(
        &mut self,
        cells: &mut Cells<D>,
        pool: &mut Pool,
        versions: &Versions,
        page: u32,
    ) -> Result<(), Refusal>
        ensures call { Calls D.Disk (disk_of cells.old) (disk_of cells.new) (fault_of result) }
        ensures layout { layout_of cells.new ≡ layout_of cells.old }
        ensures refused { IfSome (flush_refusal (layout_of cells.old) self.old page) (λ e. IsRefused e self.old self.new (disk_of cells.old) (disk_of cells.new) result) }
        // A refusal, also the device's fault, leaves the checkpoint as it was.
        ensures unchanged { OnErr result (self.new ≡ self.old) }
        // The base stays.
        ensures base { self.new.base ≡ self.old.base }
        ensures flushes { flush_refusal (layout_of cells.old) self.old page ≡ None → IsPooled D.Disk self.old.base.params.rows (layout_of cells.old) (disk_of cells.old) pool.old → Flushes D.Disk (layout_of cells.old) versions.now page self.old self.new (disk_of cells.old) (disk_of cells.new) result }
        // Refused so it leaves the pool as it was; else the pool keeps nothing of the page, and it agrees with the device as before.
        ensures kept { IfSome (flush_refusal (layout_of cells.old) self.old page) (λ _. pool.new ≡ pool.old) }
        ensures without { flush_refusal (layout_of cells.old) self.old page ≡ None → pool.new ≡ without_page page pool.old }
        ensures agrees { GoesOnIf D.Disk self.old.base.params.rows (layout_of cells.old) (disk_of cells.old) (disk_of cells.new) pool.old pool.new result }
    {
        if let Some(refusal) = self.flush_refusal(cells.layout(), page) {
            return Err(refusal);
        }
        let position = self.next_position();
        match move_page(cells, pool, &self.base, versions, position, page) {
            Ok(()) => {
                self.flushed(page);
                Ok(())
            }
            Err(refusal) => Err(refusal),
        }
    }
}
