//! The pages in the slots that a superblock names.

ghost use Rattle.std.specs.Prelude.{◌≡◌, ◌<◌, [], length, OnOk, IfErr};
ghost use Rattle.rep_types.specs.declared.refusal.Part.TheVariants.{Pages};
ghost use Rattle.rep_disk.specs.History.{seen, failed};
ghost use Rattle.rep_layout.specs.declared.place.Slot.{Slot};
ghost use Rattle.rep_layout.specs.declared.page_state.PageState.TheVariants.{In};
ghost use Rattle.rep_layout.specs.declared.place.TheConstants.{PAGE_BODY as PAGE_SIZE};
ghost use Rattle.rep_layout.specs.Places.{layout_of as layout_with};
ghost use Rattle.rep_layout.specs.Supers.{IsSuper};
ghost use Rattle.rep_cells.specs.Device.{disk_of, layout_of};
ghost use Rattle.rep_cells.specs.Readings.{reading_of};
ghost use Rattle.rep_pages.specs.Slots.{state_of_page};
ghost use Rattle.rep_recover.specs.Looking.{Looks, RefusesPart, HasPage, HasPages, HasBadPage};

use rep_cells::Cells;
use rep_disk::Disk;
use rep_layout::{PAGE_BODY, PageState, Place, SuperBody};
use rep_pages::{Page, slot_of};
use rep_types::Refusal;

/// Reads the page of this number, if the superblock has it in a slot, in the room that the caller lends.
fn read_page<D: Disk>(
    cells: &mut Cells<D>,
    superblock: &SuperBody,
    number: u32,
    room: &mut [u8],
) -> Result<(), Refusal>
    requires layout { layout_of cells.old ≡ layout_with superblock.now.params }
    requires number { number < (layout_of cells.old).pages }
    requires room { length room.old ≡ PAGE_SIZE }
    ensures room { length room.new ≡ PAGE_SIZE }
    ensures layout { layout_of cells.new ≡ layout_of cells.old }
    ensures looks { Looks D.Disk (disk_of cells.old) (disk_of cells.new) result }
    ensures found { D.honest (disk_of cells.old) → failed (D.history (disk_of cells.old)) ≡ [] → OnOk result ((slot : Slot) → state_of_page superblock.now number ≡ In slot → HasPage (reading_of (layout_of cells.old) (seen (D.history (disk_of cells.old)))) superblock.now number slot) }
    ensures refused { IfErr result (RefusesPart Pages (D.honest (disk_of cells.old) → failed (D.history (disk_of cells.old)) ≡ [] → HasBadPage (reading_of (layout_of cells.old) (seen (D.history (disk_of cells.old)))) superblock.now)) }
{
    let PageState::In(slot) = slot_of(superblock, number) else {
        return Ok(());
    };
    if cells.read_area(Place::Page(number, slot), room).is_err() {
        return Err(Refusal::DiskFault);
    }
    let schema = superblock.params.schema();
    Page::check_body(schema, number, superblock.position, room)?;
    Ok(())
}

/// Reads each page that the superblock has in a slot, one after another.
///
/// Refuses with `Corrupt` of the pages where one is not of the form, has another number than its place, or is
/// of a position above the superblock's; and with `DiskFault` where the device failed.
pub(crate) fn read_pages<D: Disk>(
    cells: &mut Cells<D>,
    superblock: &SuperBody,
) -> Result<(), Refusal>
    requires form { IsSuper superblock.now }
    requires layout { layout_of cells.old ≡ layout_with superblock.now.params }
    ensures layout { layout_of cells.new ≡ layout_of cells.old }
    ensures looks { Looks D.Disk (disk_of cells.old) (disk_of cells.new) result }
    ensures found { D.honest (disk_of cells.old) → failed (D.history (disk_of cells.old)) ≡ [] → OnOk result (HasPages (reading_of (layout_of cells.old) (seen (D.history (disk_of cells.old)))) superblock.now) }
    ensures refused { IfErr result (RefusesPart Pages (D.honest (disk_of cells.old) → failed (D.history (disk_of cells.old)) ≡ [] → HasBadPage (reading_of (layout_of cells.old) (seen (D.history (disk_of cells.old)))) superblock.now)) }
{
    let mut room = [0; PAGE_BODY];
    let layout = cells.layout();
    for number in 0..layout.pages {
        read_page(cells, superblock, number, &mut room)?;
    }
    Ok(())
}
