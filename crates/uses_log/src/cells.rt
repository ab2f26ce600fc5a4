//! A client of the gated cells, proved from their contracts alone: a body is put into a cell so that
//! a stop at any moment leaves nothing or the whole body, and a device of unknown past is taken up.

ghost use Rattle.std.specs.Prelude.{◌≡◌, ◌≤◌, ◌⊎◌, ℕ, List, length, OnOk};
ghost use Rattle.rep_disk.specs.History.{seen};
ghost use Rattle.rep_disk.specs.Devices.{Calls};
ghost use Rattle.rep_layout.specs.declared.place.Layout.{Layout};
ghost use Rattle.rep_layout.specs.Places.{body_len, need_of};
ghost use Rattle.rep_cells.specs.Device.{disk_of, layout_of};
ghost use Rattle.rep_cells.specs.Readings.{IsCell};
ghost use Rattle.rep_cells.specs.States.{States, Closed, Opened};
ghost use Rattle.rep_cells.specs.Known.{Assigns, found};
ghost use Rattle.uses_log.specs.Publishing.{Publishes, IsCleared};

use rep_cells::{Cells, found_states_stand, syncs_narrow};
use rep_disk::{Disk, DiskFault};
use rep_layout::Place;

/// Puts a body into a cell that is closed: writes it, makes it stable, opens the gate and makes that
/// stable. A stop leaves nothing or the whole body.
pub fn publish<D: Disk>(cells: &mut Cells<D>, cell: Place, body: &[u8]) -> Result<(), DiskFault>
    requires cell { IsCell (layout_of cells.old) cell }
    requires size { length body.now ≡ body_len cell }
    ensures layout { layout_of cells.new ≡ layout_of cells.old }
    ensures call { Calls D.Disk (disk_of cells.old) (disk_of cells.new) result }
    ensures published { D.honest (disk_of cells.old) → (s : States) → Assigns (layout_of cells.old) (D.history (disk_of cells.old)) s → s cell ≡ Closed → Publishes (layout_of cells.old) (D.history (disk_of cells.old)) (D.history (disk_of cells.new)) s cell body.now (λ one. one ≡ body.now) result }
{
    cells.fill(cell, body)?;
    cells.sync()?;
    cells.open_gate(cell)?;
    cells.sync()
}

/// Puts a body into a cell in the place of the one that stands there: closes its gate first. A stop
/// leaves nothing, the old body or the new one.
pub fn replace<D: Disk>(cells: &mut Cells<D>, cell: Place, body: &[u8]) -> Result<(), DiskFault>
    requires cell { IsCell (layout_of cells.old) cell }
    requires size { length body.now ≡ body_len cell }
    ensures layout { layout_of cells.new ≡ layout_of cells.old }
    ensures call { Calls D.Disk (disk_of cells.old) (disk_of cells.new) result }
    ensures published { D.honest (disk_of cells.old) → (s : States) → (before : List ℕ) → Assigns (layout_of cells.old) (D.history (disk_of cells.old)) s → s cell ≡ Opened before → Publishes (layout_of cells.old) (D.history (disk_of cells.old)) (D.history (disk_of cells.new)) s cell body.now (λ one. (one ≡ before) ⊎ (one ≡ body.now)) result }
{
    cells.close_gate(cell)?;
    cells.sync()?;
    publish(cells, cell, body)
}

/// Clears a cell, whatever is known of it: closes its gate and makes that stable.
pub fn clear<D: Disk>(cells: &mut Cells<D>, stale: Place) -> Result<(), DiskFault>
    requires { IsCell (layout_of cells.old) stale }
    ensures layout { layout_of cells.new ≡ layout_of cells.old }
    ensures call { Calls D.Disk (disk_of cells.old) (disk_of cells.new) result }
    ensures cleared { D.honest (disk_of cells.old) → (s : States) → Assigns (layout_of cells.old) (D.history (disk_of cells.old)) s → OnOk result (IsCleared (layout_of cells.old) (D.history (disk_of cells.new)) s stale) }
{
    syncs_narrow();
    cells.close_gate(stale)?;
    cells.sync()
}

/// Takes up a device of unknown past: one sync, and each place is in the state that its bytes show, in
/// every layout that the device has room for.
pub fn take_up<D: Disk>(cells: &mut Cells<D>) -> Result<(), DiskFault>
    ensures layout { layout_of cells.new ≡ layout_of cells.old }
    ensures call { Calls D.Disk (disk_of cells.old) (disk_of cells.new) result }
    ensures found { D.honest (disk_of cells.old) → OnOk result ((l : Layout) → need_of l ≤ D.size (disk_of cells.old) → Assigns l (D.history (disk_of cells.new)) (found l (seen (D.history (disk_of cells.old))))) }
{
    cells.sync()?;
    found_states_stand();
    Ok(())
}
