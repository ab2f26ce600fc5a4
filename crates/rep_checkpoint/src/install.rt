//! How a snapshot that comes from another node is installed: it is made the next base beside the one that stands.

ghost use Rattle.std.specs.Prelude.{◌≡◌, ◌↔◌, ◌≤◌, ◌<◌, true, length, replicate, IfErr};
ghost use Rattle.rep_disk.specs.Devices.{Calls};
ghost use Rattle.rep_layout.specs.declared.page_state.PageState.TheVariants.{Nowhere};
ghost use Rattle.rep_layout.specs.Places.{layout_of as places_of};
ghost use Rattle.rep_layout.specs.Supers.{IsSuper};
ghost use Rattle.rep_cells.specs.Device.{disk_of, layout_of};
ghost use Rattle.rep_cells.specs.Calls.{WritesOnly, WritesIn, StepsAt};
ghost use Rattle.rep_log.specs.Moves.{fault_of};
ghost use Rattle.rep_pool.specs.Pools.{without_page};
ghost use Rattle.rep_pool.specs.BasePages.{GoesOnIf};
ghost use Rattle.rep_checkpoint.specs.declared.stage.Part.TheVariants.{Flushing};
ghost use Rattle.rep_checkpoint.specs.declared.stage.Stage.TheVariants.{Toward};
ghost use Rattle.rep_checkpoint.specs.Moves.{found_at};
ghost use Rattle.rep_checkpoint.specs.Calls.{next_place, next_step, next_offset, next_bytes};
ghost use Rattle.rep_checkpoint.specs.Coming.{Coming, CanInstall, IsComing, IsDue, IsNewPage, coming, coming_super, gone, placed, settled};
ghost use Rattle.rep_checkpoint.specs.Installing.{BeginsToInstall, InstallsNext, InstallsPage};

use crate::checkpoint::{Checkpoint, PAGES, spare_side};
use crate::flush::put_page;
use crate::going::{put_super, put_window};
use crate::stage::{NextBase, Part};
use arrayvec::ArrayVec;
use rep_cells::{Cells, refusal_of};
use rep_disk::{Disk, DiskFault};
use rep_layout::{Format, PageState, Place, RowPlace, SuperBody, row_at, row_places_are_told};
use rep_pages::{Page, PageRows, slot_of, spare_of};
use rep_pool::{Pool, pools_go_on};
use rep_types::{Refusal, Window};
use std::alloc::Global;
use std::marker::Model;
use uuid::Uuid;

/// A snapshot on its way: pages, then window, superblock and open gate are written beside the base that stands, so that a stop
/// at any moment leaves that base or the snapshot, whole.
///
/// No checkpoint is under way beside it. Until the superblock is written, dropping this value is all that it takes to be as before.
#[derive(Drop)]
pub struct Installation {
    next: NextBase,
    part: Part,
}

impl Model for Installation {
    ghost use Rattle.rep_checkpoint.specs.Coming.{Coming};

    ghost Value = { Coming };

    ghost view = { λ i. record { next = i.next; part = i.part } };
}

/// As many pages, none of them in a slot.
fn no_pages(count: usize) -> ArrayVec<PageState, PAGES>
    requires { count ≤ 4096 }
    ensures { result ≡ record { items = replicate count Nowhere } }
{
    let mut pages = ArrayVec::from([PageState::Nowhere; PAGES]);
    pages.truncate(count);
    pages
}

/// The superblock behind this one, of this cluster and position, with no page in a slot.
fn coming_super(base: &SuperBody, uuid: Uuid, position: u64, start: u64) -> SuperBody
    requires { IsSuper base.now }
    ensures { result ≡ coming_super base.now uuid position start }
{
    SuperBody {
        format: Format::Two,
        number: base.number + 1,
        uuid,
        params: base.params.copied(),
        position,
        start,
        pages: no_pages(base.pages.len()),
    }
}

impl Checkpoint {
    /// Begins to install the snapshot of a cluster at this position, with this window there, behind which the log goes on in the cell
    /// of the number `start`. No device is touched.
    pub fn install(
        &self,
        alloc: Global,
        uuid: Uuid,
        position: u64,
        start: u64,
        window: Window,
    ) -> Installation
        requires { CanInstall self.now uuid position start window }
        ensures coming { result ≡ coming self.now.base uuid position start window }
        ensures is { IsComing self.now.base result.next }
        ensures begins { BeginsToInstall self.now result }
    {
        let superblock = coming_super(self.base(), uuid, position, start);
        Installation {
            next: NextBase {
                superblock,
                window,
                left: Vec::new(alloc),
            },
            part: Part::Flushing,
        }
    }
}

impl Installation {
    /// The position that the snapshot is at.
    pub fn position(&self) -> u64
        ensures { result ≡ self.now.next.super.position }
    {
        self.next.superblock.position
    }

    /// Whether this page can come: the schema has it, it has no row past the end of its table, and it did not come yet.
    pub fn takes(&self, base: &SuperBody, page: u32, rows: &PageRows) -> bool
        ensures { (result ≡ true) ↔ IsNewPage base.now self.now.next page rows.now }
    {
        // For its clause: what holds of every page's rows.
        rows.row(0);
        let schema = base.params.schema();
        row_at(schema, RowPlace { page, index: 0 }).is_some()
            && rows.end_with_the_table(schema, page)
            && matches!(slot_of(&self.next.superblock, page), PageState::Nowhere)
    }

    /// Takes note of a page that came.
    fn place(&mut self, base: &SuperBody, page: u32)
        requires { page < length self.old.next.super.pages.items }
        ensures { self.new ≡ placed base.now page self.old }
    {
        let slot = spare_of(base, page);
        self.next.superblock.pages[page as usize] = PageState::In(slot);
    }

    /// Writes a page of the snapshot into the slot that the base does not use: one write, of a page that was written for the snapshot's
    /// position. The pool keeps nothing of the page from then on. Pages come once each, in any order; one that does not come has no row.
    ///
    /// Refuses with `DiskFault` where the device failed: the snapshot is then as far as it was, and whoever calls stops.
    pub fn put_page<D: Disk>(
        &mut self,
        cells: &mut Cells<D>,
        pool: &mut Pool,
        base: &SuperBody,
        page: u32,
        rows: PageRows,
    ) -> Result<(), Refusal>
        requires super_body { IsSuper base.now }
        requires layout { layout_of cells.old ≡ places_of base.now.params }
        requires coming { IsComing base.now self.old.next }
        requires due { self.old.part ≡ Flushing }
        requires page { IsNewPage base.now self.old.next page rows }
        ensures call { Calls D.Disk (disk_of cells.old) (disk_of cells.new) (fault_of result) }
        ensures layout { layout_of cells.new ≡ layout_of cells.old }
        ensures puts { InstallsPage D.Disk (layout_of cells.old) base.now page rows self.old self.new (disk_of cells.old) (disk_of cells.new) result }
        ensures coming { IsComing base.now self.new.next }
        ensures without { pool.new ≡ without_page page pool.old }
        ensures agrees { GoesOnIf D.Disk base.now.params.rows (layout_of cells.old) (disk_of cells.old) (disk_of cells.new) pool.old pool.new result }
        ensures refused { IfErr result (λ e. e ≡ Refusal.DiskFault) }
    {
        row_places_are_told();
        pools_go_on();
        pool.wrote(page);
        let page = Page {
            number: page,
            position: self.next.superblock.position,
            rows,
        };
        match put_page(cells, base, &page) {
            Ok(()) => {
                self.place(base, page.number);
                Ok(())
            }
            Err(refusal) => Err(refusal),
        }
    }

    /// Writes what comes next.
    fn write_next<D: Disk>(&self, cells: &mut Cells<D>, base: &SuperBody) -> Result<(), DiskFault>
        requires coming { IsComing base.now self.now.next }
        requires due { IsDue self.now.part }
        ensures call { Calls D.Disk (disk_of cells.old) (disk_of cells.new) result }
        ensures layout { layout_of cells.new ≡ layout_of cells.old }
        ensures written { WritesOnly D.Disk (next_offset (layout_of cells.old) base.now (Toward self.now.next self.now.part)) (next_bytes (Toward self.now.next self.now.part)) (disk_of cells.old) (disk_of cells.new) result }
        ensures inside { WritesIn D.Disk (layout_of cells.old) (next_place base.now (Toward self.now.next self.now.part)) (disk_of cells.old) (disk_of cells.new) result }
        ensures states { StepsAt D.Disk (layout_of cells.old) (next_place base.now (Toward self.now.next self.now.part)) (next_step (Toward self.now.next self.now.part)) (disk_of cells.old) (disk_of cells.new) result }
    {
        let side = spare_side(base);
        match self.part {
            Part::Flushing => put_window(cells, side, &self.next),
            Part::Ready => put_super(cells, side, &self.next),
            Part::SuperFilled => cells.open_gate(Place::Super(side)),
            Part::Saving | Part::SuperFilling | Part::SuperOpening => Ok(()),
        }
    }

    /// Takes note of it.
    fn go_on(&mut self)
        ensures { self.new ≡ gone self.old }
    {
        match &mut self.part {
            Part::Flushing => self.part = Part::Saving,
            Part::Ready => self.part = Part::SuperFilling,
            Part::SuperFilled => self.part = Part::SuperOpening,
            Part::Saving | Part::SuperFilling | Part::SuperOpening => {}
        }
    }

    /// Writes what comes next, one thing a call: behind the last page the window, then, once that is stable, the superblock, and then
    /// its open gate. It takes no memory.
    ///
    /// Refuses with `DiskFault` where the device failed: the snapshot is then as far as it was, and whoever calls stops.
    pub fn next<D: Disk>(&mut self, cells: &mut Cells<D>, base: &SuperBody) -> Result<(), Refusal>
        requires layout { layout_of cells.old ≡ places_of base.now.params }
        requires coming { IsComing base.now self.old.next }
        requires due { IsDue self.old.part }
        ensures call { Calls D.Disk (disk_of cells.old) (disk_of cells.new) (fault_of result) }
        ensures layout { layout_of cells.new ≡ layout_of cells.old }
        ensures goes { InstallsNext D.Disk (layout_of cells.old) base.now self.old self.new (disk_of cells.old) (disk_of cells.new) result }
        ensures coming { IsComing base.now self.new.next }
        ensures refused { IfErr result (λ e. e ≡ Refusal.DiskFault) }
    {
        match refusal_of(self.write_next(cells, base)) {
            Ok(()) => {
                self.go_on();
                Ok(())
            }
            Err(refusal) => Err(refusal),
        }
    }

    /// Takes note of a sync that succeeded, where the superblock's gate is not yet open.
    pub fn synced(&mut self)
        ensures { self.new ≡ settled self.old }
    {
        self.part = match self.part {
            Part::Flushing => Part::Flushing,
            Part::Saving | Part::Ready => Part::Ready,
            Part::SuperFilling | Part::SuperFilled => Part::SuperFilled,
            Part::SuperOpening => Part::SuperOpening,
        };
    }

    /// The checkpoint behind a sync that succeeded with the superblock's gate open: the snapshot is the base, and the superblock before
    /// it is to be closed.
    pub fn into_checkpoint(self) -> Checkpoint
        requires { IsSuper self.next.super }
        ensures { result ≡ found_at self.next.super true }
    {
        // In two steps, since a field is not moved out of a field of `self` in one.
        let next = self.next;
        Checkpoint::open(next.superblock, true)
    }
}
