//! How a checkpoint goes on: the writes behind the pages, and syncs.

ghost use Rattle.std.specs.Prelude.{◌≡◌, None, IfSome, OnErr, false, length};
ghost use Rattle.rep_disk.specs.Devices.{Calls};
ghost use Rattle.rep_layout.specs.Places.{offset_of, layout_of as places_of};
ghost use Rattle.rep_layout.specs.Supers.{IsSuper, super_bytes};
ghost use Rattle.rep_layout.specs.Windows.{IsWindowBody, window_bytes};
ghost use Rattle.rep_cells.specs.Device.{disk_of, layout_of};
ghost use Rattle.rep_cells.specs.States.{filling, writing};
ghost use Rattle.rep_cells.specs.Calls.{WritesOnly, WritesIn, StepsAt};
ghost use Rattle.rep_log.specs.Moves.{fault_of};
ghost use Rattle.rep_checkpoint.specs.Next.{window_of};
ghost use Rattle.rep_checkpoint.specs.Standing.{stage_of, IsCheckpoint};
ghost use Rattle.rep_checkpoint.specs.Moves.{is_layout, next_refusal_at, next_refusal, gone_on, after_sync, is_opening};
ghost use Rattle.rep_checkpoint.specs.Calls.{IsRefused, GoesOn, next_place, next_step, next_offset, next_bytes, SyncsTo};

use crate::checkpoint::{Checkpoint, spare_side};
use crate::stage::{NextBase, Part, Stage};
use arrayvec::ArrayVec;
use rep_cells::{Cells, refusal_of};
use rep_disk::{Disk, DiskFault};
use rep_layout::{
    Layout, Place, SUPER_BODY, Side, SuperBody, WINDOW_BODY, WindowBody, turns_are_taken,
};
use rep_types::Refusal;
use std::mem::replace;

/// Whether the places are those of the superblock's parameters.
pub(crate) fn is_here(layout: Layout, superblock: &SuperBody) -> bool
    ensures { result ≡ is_layout layout (places_of superblock.now.params) }
{
    let here = Layout::new(&superblock.params);
    layout.cells == here.cells && layout.pages == here.pages
}

/// The bytes of a superblock that can be written.
fn super_bytes(superblock: &SuperBody) -> ArrayVec<u8, SUPER_BODY>
    requires { IsSuper superblock.now }
    ensures bytes { result.items ≡ super_bytes superblock.now }
    ensures size { length result.items ≡ SUPER_BODY }
{
    match superblock.write_body() {
        Some(bytes) => bytes,
        None => unreachable!(),
    }
}

impl NextBase {
    /// The bytes of the window.
    fn window_bytes(&self) -> ArrayVec<u8, WINDOW_BODY>
        requires { IsWindowBody self.now.super.params (window_of self.now) }
        ensures bytes { result.items ≡ window_bytes (window_of self.now) }
        ensures size { length result.items ≡ WINDOW_BODY }
    {
        let base = &self.superblock;
        let body = WindowBody::of(base.format, base.number, base.position, &self.window);
        match body.write_body(&self.superblock.params) {
            Some(bytes) => bytes,
            None => unreachable!(),
        }
    }
}

/// Writes the window of the next base on this side.
pub(crate) fn put_window<D: Disk>(
    cells: &mut Cells<D>,
    side: Side,
    next: &NextBase,
) -> Result<(), DiskFault>
    requires { IsWindowBody next.now.super.params (window_of next.now) }
    ensures call { Calls D.Disk (disk_of cells.old) (disk_of cells.new) result }
    ensures layout { layout_of cells.new ≡ layout_of cells.old }
    ensures written { WritesOnly D.Disk (offset_of (layout_of cells.old) (Place.Window side)) (window_bytes (window_of next.now)) (disk_of cells.old) (disk_of cells.new) result }
    ensures inside { WritesIn D.Disk (layout_of cells.old) (Place.Window side) (disk_of cells.old) (disk_of cells.new) result }
    ensures states { StepsAt D.Disk (layout_of cells.old) (Place.Window side) (writing (window_bytes (window_of next.now))) (disk_of cells.old) (disk_of cells.new) result }
{
    let body = next.window_bytes();
    cells.write_area(Place::Window(side), body.as_slice())
}

/// Writes the superblock of the next base on this side, behind its closed gate.
pub(crate) fn put_super<D: Disk>(
    cells: &mut Cells<D>,
    side: Side,
    next: &NextBase,
) -> Result<(), DiskFault>
    requires { IsSuper next.now.super }
    ensures call { Calls D.Disk (disk_of cells.old) (disk_of cells.new) result }
    ensures layout { layout_of cells.new ≡ layout_of cells.old }
    ensures written { WritesOnly D.Disk (offset_of (layout_of cells.old) (Place.Super side)) (super_bytes next.now.super) (disk_of cells.old) (disk_of cells.new) result }
    ensures inside { WritesIn D.Disk (layout_of cells.old) (Place.Super side) (disk_of cells.old) (disk_of cells.new) result }
    ensures states { StepsAt D.Disk (layout_of cells.old) (Place.Super side) (filling (super_bytes next.now.super)) (disk_of cells.old) (disk_of cells.new) result }
{
    let body = super_bytes(&next.superblock);
    cells.fill(Place::Super(side), body.as_slice())
}

impl Checkpoint {
    /// Why the write that comes next does not come, on a device with these places.
    fn next_refusal(&self, layout: Layout) -> Option<Refusal>
        ensures { result ≡ next_refusal layout self.now }
    {
        if !is_here(layout, &self.base) {
            return Some(Refusal::NotDue);
        }
        match &self.stage {
            Stage::Toward(next, Part::Flushing) => {
                if next.left.is_empty() {
                    None
                } else {
                    Some(Refusal::NotDue)
                }
            }
            Stage::Toward(_, Part::Ready | Part::SuperFilled) | Stage::Retiring(false) => None,
            Stage::Toward(_, Part::Saving | Part::SuperFilling | Part::SuperOpening)
            | Stage::Retiring(true)
            | Stage::Off => Some(Refusal::NotDue),
        }
    }

    /// Writes what comes next.
    fn write_next<D: Disk>(&self, cells: &mut Cells<D>) -> Result<(), DiskFault>
        requires due { next_refusal_at (stage_of self.now) ≡ None }
        ensures call { Calls D.Disk (disk_of cells.old) (disk_of cells.new) result }
        ensures layout { layout_of cells.new ≡ layout_of cells.old }
        ensures written { WritesOnly D.Disk (next_offset (layout_of cells.old) self.now.base self.now.stage) (next_bytes self.now.stage) (disk_of cells.old) (disk_of cells.new) result }
        ensures inside { WritesIn D.Disk (layout_of cells.old) (next_place self.now.base self.now.stage) (disk_of cells.old) (disk_of cells.new) result }
        ensures states { StepsAt D.Disk (layout_of cells.old) (next_place self.now.base self.now.stage) (next_step self.now.stage) (disk_of cells.old) (disk_of cells.new) result }
    {
        let side = spare_side(&self.base);
        match &self.stage {
            Stage::Toward(next, Part::Flushing) => put_window(cells, side, next),
            Stage::Toward(next, Part::Ready) => put_super(cells, side, next),
            Stage::Toward(_, Part::SuperFilled) => cells.open_gate(Place::Super(side)),
            Stage::Toward(_, Part::Saving | Part::SuperFilling | Part::SuperOpening)
            | Stage::Retiring(_)
            | Stage::Off => cells.close_gate(Place::Super(side)),
        }
    }

    /// Takes note of it.
    fn go_on(&mut self)
        ensures { self.new ≡ gone_on self.old }
    {
        match &mut self.stage {
            Stage::Toward(_, part) => match part {
                Part::Flushing => *part = Part::Saving,
                Part::Ready => *part = Part::SuperFilling,
                Part::SuperFilled => *part = Part::SuperOpening,
                Part::Saving | Part::SuperFilling | Part::SuperOpening => {}
            },
            Stage::Retiring(written) => *written = true,
            Stage::Off => {}
        }
    }

    /// Writes what comes next, one thing a call: behind the last page the window, then, once that is stable, the
    /// superblock, then its open gate, and once the next base is the base, the closed gate of the superblock
    /// before it. It takes no memory.
    ///
    /// Refuses with `NotDue` where pages are left to be flushed, a write awaits its sync or no checkpoint is
    /// under way, and on the places of other parameters; and with `DiskFault` where the device failed. The
    /// checkpoint then stands as it did, and on a device that failed nothing more is known of what it wrote:
    /// whoever calls stops.
    pub fn next<D: Disk>(&mut self, cells: &mut Cells<D>) -> Result<(), Refusal>
        ensures call { Calls D.Disk (disk_of cells.old) (disk_of cells.new) (fault_of result) }
        ensures layout { layout_of cells.new ≡ layout_of cells.old }
        ensures refused { IfSome (next_refusal (layout_of cells.old) self.old) (λ e. IsRefused e self.old self.new (disk_of cells.old) (disk_of cells.new) result) }
        // A refusal, also the device's fault, leaves the checkpoint as it was.
        ensures unchanged { OnErr result (self.new ≡ self.old) }
        // The base stays.
        ensures base { self.new.base ≡ self.old.base }
        ensures goes { next_refusal (layout_of cells.old) self.old ≡ None → GoesOn D.Disk (layout_of cells.old) self.old self.new (disk_of cells.old) (disk_of cells.new) result }
    {
        if let Some(refusal) = self.next_refusal(cells.layout()) {
            return Err(refusal);
        }
        match refusal_of(self.write_next(cells)) {
            Ok(()) => {
                self.go_on();
                Ok(())
            }
            Err(refusal) => Err(refusal),
        }
    }

    /// Whether a sync that succeeds moves it on. Most do not, and then the next base, of some 8 KB, is not moved about.
    fn awaits_sync(&self) -> bool
        ensures stays { result ≡ false → (after_sync self.now ≡ self.now) × (is_opening self.now.stage ≡ false) }
        ensures checkpoint { IsCheckpoint self.now }
    {
        match &self.stage {
            Stage::Toward(_, part) => {
                matches!(part, Part::Saving | Part::SuperFilling | Part::SuperOpening)
            }
            Stage::Retiring(written) => *written,
            Stage::Off => false,
        }
    }

    /// Moves on by a sync that succeeded. It stands apart from `synced`, whose law is of all that this does
    /// together.
    fn settle(&mut self) -> bool
        ensures rose { result ≡ is_opening self.old.stage }
        ensures after { self.new ≡ after_sync self.old }
        ensures checkpoint { IsCheckpoint self.old }
    {
        if !self.awaits_sync() {
            return false;
        }
        self.move_on()
    }

    /// Moves on by a sync that succeeded.
    fn move_on(&mut self) -> bool
        ensures rose { result ≡ is_opening self.old.stage }
        ensures after { self.new ≡ after_sync self.old }
        ensures checkpoint { IsCheckpoint self.old }
    {
        match replace(&mut self.stage, Stage::Off) {
            Stage::Toward(next, Part::Saving) => self.stage = Stage::Toward(next, Part::Ready),
            Stage::Toward(next, Part::SuperFilling) => {
                self.stage = Stage::Toward(next, Part::SuperFilled);
            }
            Stage::Toward(next, Part::SuperOpening) => {
                self.base = next.superblock;
                self.stage = Stage::Retiring(false);
                return true;
            }
            Stage::Retiring(true) => {}
            stage => self.stage = stage,
        }
        false
    }

    /// Takes note of a sync that succeeded, and says whether the next base became the base: it does where its
    /// superblock's gate was opened. Called where no sync succeeded, it says so all the same.
    pub fn synced(&mut self) -> bool
        ensures rose { result ≡ is_opening self.old.stage }
        ensures after { self.new ≡ after_sync self.old }
        // The base stays of the same cluster and parameters.
        ensures uuid { self.new.base.uuid ≡ self.old.base.uuid }
        ensures params { self.new.base.params ≡ self.old.base.params }
        ensures states { SyncsTo self.old self.new }
    {
        turns_are_taken();
        self.settle()
    }
}
