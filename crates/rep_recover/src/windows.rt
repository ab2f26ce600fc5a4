//! The window beside a superblock.

ghost use Rattle.std.specs.Prelude.{◌≡◌, ◌⊎◌, ◌++◌, [], OnOk, IfOk, IfErr};
ghost use Rattle.rep_types.specs.declared.refusal.Part.TheVariants.{Window as in_window};
ghost use Rattle.rep_types.specs.Windows.{Window as WindowOf};
ghost use Rattle.rep_disk.specs.History.{seen, failed};
ghost use Rattle.rep_layout.specs.Windows.{IsWindowBody, window_bytes, beside};
ghost use Rattle.rep_cells.specs.Device.{disk_of, layout_of};
ghost use Rattle.rep_cells.specs.Readings.{reading_of};
ghost use Rattle.rep_engine.specs.Bases.{HasWindow};
ghost use Rattle.rep_recover.specs.Looking.{Looks, RefusesGrowing, IsNoWindow};

use rep_cells::Cells;
use rep_disk::Disk;
use rep_layout::{Place, Side, SuperBody, WINDOW_BODY, WindowReader};
use rep_types::{Entry, Refusal, Window};
use std::alloc::Global;
use std::marker::Model;

/// Adds the entries that a window still hands out.
fn push_entries(mut reader: WindowReader<'_>, entries: &mut Vec<Entry>) -> Result<(), Refusal>
    ensures pushed { OnOk result (entries.new.items ≡ entries.old.items ++ reader.entry.kept.entries) }
    ensures refused { IfErr result (λ e. e ≡ Refusal.OutOfMemory) }
{
    while let Some(entry) = reader.next_entry() {
        entries.push(entry)?;
    }
    Ok(())
}

/// The window of this superblock, which all of the bytes are.
fn window_in(alloc: Global, superblock: &SuperBody, bytes: &[u8]) -> Result<Window, Refusal>
    ensures form { IfOk result (λ kept. IsWindowBody superblock.now.params (beside superblock.now kept)) }
    ensures found { IfOk result (λ kept. bytes.now ≡ window_bytes (beside superblock.now kept)) }
    ensures refused { IfErr result (λ e. (e ≡ Refusal.OutOfMemory) ⊎ ((e ≡ Refusal.Corrupt in_window) × IsNoWindow superblock.now bytes.now)) }
{
    let reader = WindowReader::read_beside(superblock, bytes)?;
    let (size, floor) = (reader.size(), reader.floor());
    let mut entries = Vec::new(alloc);
    push_entries(reader, &mut entries)?;
    Ok(Window::new(size, floor, entries))
}

/// The window beside the superblock.
///
/// Refuses with `Corrupt` of the window what is not of the form, or of another format, number or position than the
/// superblock's; with `OutOfMemory`; and with `DiskFault` where the device failed.
pub(crate) fn read_window<D: Disk>(
    alloc: Global,
    cells: &mut Cells<D>,
    superblock: &SuperBody,
) -> Result<Window, Refusal>
    ensures layout { layout_of cells.new ≡ layout_of cells.old }
    ensures looks { Looks D.Disk (disk_of cells.old) (disk_of cells.new) result }
    ensures form { IfOk result (λ kept. IsWindowBody superblock.now.params (beside superblock.now kept)) }
    ensures found { D.honest (disk_of cells.old) → failed (D.history (disk_of cells.old)) ≡ [] → IfOk result (HasWindow (reading_of (layout_of cells.old) (seen (D.history (disk_of cells.old)))) superblock.now) }
    ensures refused { IfErr result (RefusesGrowing in_window (D.honest (disk_of cells.old) → failed (D.history (disk_of cells.old)) ≡ [] → (kept : WindowOf) → HasWindow (reading_of (layout_of cells.old) (seen (D.history (disk_of cells.old)))) superblock.now kept → ⊥)) }
{
    let mut room = [0; WINDOW_BODY];
    let area = Place::Window(Side::of(superblock.number));
    if cells.read_area(area, &mut room).is_err() {
        return Err(Refusal::DiskFault);
    }
    window_in(alloc, superblock, &room)
}
