//! A new node's device.

ghost use Rattle.std.specs.Prelude.{◌≡◌, ◌<◌, ◌≤◌, [], Err, IfErr, OnOk, replicate, length, ℕ, List};
ghost use Rattle.rep_forms.specs.Forms.{IsPart};
ghost use Rattle.rep_disk.specs.Devices.{Calls};
ghost use Rattle.rep_layout.specs.Places.{layout_of as layout_with, need_of};
ghost use Rattle.rep_layout.specs.Supers.{IsSuper, super_bytes};
ghost use Rattle.rep_layout.specs.Windows.{IsWindowBody, window_bytes};
ghost use Rattle.rep_cells.specs.Device.{disk_of, layout_of};
ghost use Rattle.rep_cells.specs.States.{Filled, Opened, Stable};
ghost use Rattle.rep_log.specs.Moves.{fault_of};
ghost use Rattle.rep_recover.specs.Going.{Goes, StaysFrom, pages_at};
ghost use Rattle.rep_recover.specs.Formatting.{uuid_of, first_super, first_window, ImagesStandFor, WillClose, AreClosed, HasFirst};

use arrayvec::ArrayVec;
use rep_cells::{Cells, images_read_as_allowed, refusal_of, syncs_narrow};
use rep_disk::{Disk, DiskFault};
use rep_engine::images_mean_what_stands;
use rep_forms::put_bytes;
use rep_layout::{
    Format, Layout, PageState, Place, SUPER_BODY, Side, SuperBody, WINDOW_BODY, WindowBody,
};
use rep_types::{MAX_PAGES, Params, Reach, Refusal};
use uuid::Uuid;

/// The greatest number of pages, as the length of a list.
const PAGES: usize = MAX_PAGES as usize;

/// So many pages, none of them in a slot.
fn no_pages(count: usize) -> ArrayVec<PageState, PAGES>
    requires { count ≤ 4096 }
    ensures { result ≡ record { items = replicate count PageState.Nowhere } }
{
    let mut pages = ArrayVec::from([PageState::Nowhere; PAGES]);
    pages.truncate(count);
    pages
}

/// The superblock of a node to which nothing was delivered.
fn first_super(params: &Params, uuid: Option<Uuid>) -> SuperBody
    ensures is { result ≡ first_super (uuid_of uuid) params.now }
    ensures is_super { IsSuper (first_super (uuid_of uuid) params.now) }
{
    let uuid = uuid.unwrap_or(Uuid::nil());
    know_uuid(&uuid);
    SuperBody {
        format: Format::Two,
        number: 0,
        uuid,
        params: params.copied(),
        position: 0,
        start: 0,
        pages: no_pages(params.schema().pages() as usize),
    }
}

/// Writes a closed gate behind both superblocks.
fn close_supers<D: Disk>(cells: &mut Cells<D>) -> Result<(), DiskFault>
    ensures layout { layout_of cells.new ≡ layout_of cells.old }
    ensures goes { Goes D.Disk (layout_of cells.old) (λ _. Unit {0}) (WillClose 0) (disk_of cells.old) (disk_of cells.new) result }
{
    syncs_narrow();
    cells.close_gate(Place::Super(Side::A))?;
    cells.close_gate(Place::Super(Side::B))
}

/// Writes a closed gate behind each cell of the log.
fn close_log<D: Disk>(cells: &mut Cells<D>) -> Result<(), DiskFault>
    ensures layout { layout_of cells.new ≡ layout_of cells.old }
    ensures goes { Goes D.Disk (layout_of cells.old) (WillClose 0) (WillClose (layout_of cells.old).cells) (disk_of cells.old) (disk_of cells.new) result }
{
    syncs_narrow();
    let layout = cells.layout();
    for cell in 0..layout.cells {
        cells.close_gate(Place::Log(cell))?;
    }
    Ok(())
}

/// Closes every gate.
fn close_all<D: Disk>(cells: &mut Cells<D>) -> Result<(), DiskFault>
    ensures layout { layout_of cells.new ≡ layout_of cells.old }
    ensures goes { Goes D.Disk (layout_of cells.old) (λ _. Unit {0}) (AreClosed (layout_of cells.old).cells) (disk_of cells.old) (disk_of cells.new) result }
{
    close_supers(cells)?;
    close_log(cells)?;
    cells.sync()
}

/// Writes the first superblock's body, behind its closed gate, and the window beside it.
fn put_base<D: Disk>(
    cells: &mut Cells<D>,
    superblock: &[u8],
    window: &[u8],
) -> Result<(), DiskFault>
    requires superblock { length superblock.now ≡ SUPER_BODY }
    requires window { length window.now ≡ WINDOW_BODY }
    ensures layout { layout_of cells.new ≡ layout_of cells.old }
    ensures goes { Goes D.Disk (layout_of cells.old) (AreClosed (layout_of cells.old).cells) (HasFirst (layout_of cells.old).cells (Filled superblock.now) (Stable window.now)) (disk_of cells.old) (disk_of cells.new) result }
{
    cells.fill(Place::Super(Side::A), superblock)?;
    cells.write_area(Place::Window(Side::A), window)?;
    cells.sync()
}

/// Opens the first superblock's gate.
fn open_base<D: Disk>(cells: &mut Cells<D>) -> Result<(), DiskFault>
    ensures layout { layout_of cells.new ≡ layout_of cells.old }
    ensures goes { (superblock window : List ℕ) → Goes D.Disk (layout_of cells.old) (HasFirst (layout_of cells.old).cells (Filled superblock) (Stable window)) (HasFirst (layout_of cells.old).cells (Opened superblock) (Stable window)) (disk_of cells.old) (disk_of cells.new) result }
{
    cells.open_gate(Place::Super(Side::A))?;
    cells.sync()
}

/// Formats the places of a device, step by step, with a sync behind each.
fn format_cells<D: Disk>(
    cells: &mut Cells<D>,
    superblock: &[u8],
    window: &[u8],
) -> Result<(), DiskFault>
    requires superblock { length superblock.now ≡ SUPER_BODY }
    requires window { length window.now ≡ WINDOW_BODY }
    ensures layout { layout_of cells.new ≡ layout_of cells.old }
    ensures goes { Goes D.Disk (layout_of cells.old) (λ _. Unit {0}) (HasFirst (layout_of cells.old).cells (Opened superblock.now) (Stable window.now)) (disk_of cells.old) (disk_of cells.new) result }
{
    close_all(cells)?;
    put_base(cells, superblock, window)?;
    open_base(cells)
}

/// A UUID has 16 bytes.
fn know_uuid(uuid: &Uuid)
    ensures { IsPart 16 uuid.now }
{
    let mut room: ArrayVec<u8, 16> = ArrayVec::new();
    put_bytes(&mut room, uuid.as_bytes());
}

/// The bytes of the first superblock.
fn first_super_body(params: &Params, uuid: Option<Uuid>) -> ArrayVec<u8, SUPER_BODY>
    ensures is_super { IsSuper (first_super (uuid_of uuid) params.now) }
    ensures bytes { result.items ≡ super_bytes (first_super (uuid_of uuid) params.now) }
    ensures size { length result.items ≡ SUPER_BODY }
{
    let superblock = first_super(params, uuid);
    match superblock.write_body() {
        Some(body) => body,
        None => unreachable!(),
    }
}

/// The bytes of the window beside it.
fn first_window_body(params: &Params) -> ArrayVec<u8, WINDOW_BODY>
    ensures is_window { IsWindowBody params.now (first_window params.now) }
    ensures bytes { result.items ≡ window_bytes (first_window params.now) }
    ensures size { length result.items ≡ WINDOW_BODY }
{
    let window = WindowBody {
        format: Format::Two,
        number: 0,
        position: 0,
        reach: Reach::first(params.window_size()),
        entries: &[],
    };
    match window.write_body(params) {
        Some(body) => body,
        None => unreachable!(),
    }
}

/// Makes a new node's device of this one, whatever it held: nothing is delivered, and no row is there. It
/// belongs to the cluster of this state UUID, or to none yet, where it is given none or the nil one. The
/// device comes back beside the answer. It takes no memory.
///
/// All gates are closed first, then the first superblock's body and the window beside it are written, and
/// then its gate is opened, with a sync behind each of the three. No page is touched, nor a byte past those
/// that are needed.
///
/// Refuses with `TooSmall` exactly where the device has fewer bytes than the `need` that it names, and then
/// the device is as before; and with `DiskFault` where the device failed, and then nothing is promised of
/// what it holds: it is to be formatted again.
pub fn format_disk<D: Disk>(
    disk: D,
    params: &Params,
    uuid: Option<Uuid>,
) -> (D, Result<(), Refusal>)
    ensures call { Calls D.Disk disk result.0 (fault_of result.1) }
    ensures small { D.size disk < need_of (layout_with params.now) → (result.1 ≡ Err (Refusal.TooSmall (need_of (layout_with params.now)))) × (result.0 ≡ disk) }
    ensures fault { need_of (layout_with params.now) ≤ D.size disk → IfErr result.1 (λ e. e ≡ Refusal.DiskFault) }
    ensures stays { D.honest disk → StaysFrom (pages_at (layout_with params.now)) (D.history disk) (D.history result.0) }
    ensures formatted { D.honest disk → OnOk result.1 (ImagesStandFor (uuid_of uuid) params.now [] (D.history result.0)) }
{
    images_read_as_allowed();
    images_mean_what_stands();
    let layout = Layout::new(params);
    let mut cells = match Cells::new(disk, layout) {
        Ok(cells) => cells,
        Err(disk) => {
            let need = layout.need();
            return (disk, Err(Refusal::TooSmall { need }));
        }
    };
    let superblock = first_super_body(params, uuid);
    let window = first_window_body(params);
    let answer = format_cells(&mut cells, superblock.as_slice(), window.as_slice());
    (cells.into_disk(), refusal_of(answer))
}
