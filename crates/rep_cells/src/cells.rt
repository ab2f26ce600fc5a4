//! The device, its places, and the calls.
ghost use Rattle.std.specs.Prelude.{◌≡◌, ◌↔◌, ◌<◌, ◌≤◌, Some, length, IsErr, IfOk, IfErr, IfSome, OnOk, OnErr, option_map};
ghost use Rattle.rep_disk.specs.History.{Synced, seen};
ghost use Rattle.rep_disk.specs.Devices.{Calls, SameHistory};
ghost use Rattle.rep_layout.specs.Places.{body_len, offset_of, gate_of, need_of};
ghost use Rattle.rep_cells.specs.Readings.{IsPlace, IsCell, IsArea};
ghost use Rattle.rep_cells.specs.States.{Unknown, filling, opening, closing, writing};
ghost use Rattle.rep_cells.specs.Known.{Assigns, found};
ghost use Rattle.rep_cells.specs.Calls.{gate, WritesOnly, WritesIn, StepsAt, Settles, ReadsPlace, ShowsPlace, ReadsBody, ReadsOpened};

use rep_disk::{Disk, DiskFault};
use rep_layout::{GATE, Layout, Place};

/// The first byte of an open gate.
const OPEN: u8 = 0xA5;

/// The first byte of a closed one.
const CLOSED: u8 = 0;

/// A device, seen as the places of a layout.
#[derive(Drop)]
pub struct Cells<D: Disk> {
    disk: D,
    layout: Layout,
    ghost fits: { need_of layout ≤ D.size disk },
}

/// A gate whose first byte is this one.
fn gate_sector(first: u8) -> [u8; GATE]
    ensures { result ≡ gate first }
{
    let mut sector = [0; GATE];
    sector[0] = first;
    sector
}

impl<D: Disk> Cells<D> {
    ghost use Rattle.rep_cells.specs.Device.{disk_of, layout_of};

    /// The places of this layout on the device, or the device back where it is too small for them.
    /// Nothing is known of any place yet.
    pub fn new(disk: D, layout: Layout) -> Result<Cells<D>, D>
        ensures small { IsErr result ↔ (D.size disk < need_of layout) }
        ensures back { IfErr result (λ back. back ≡ disk) }
        ensures disk { IfOk result (λ cells. disk_of cells ≡ disk) }
        ensures layout { IfOk result (λ cells. layout_of cells ≡ layout) }
        ensures unknown { IfOk result (λ cells. D.honest (disk_of cells) → Assigns (layout_of cells) (D.history (disk_of cells)) (λ place. Unknown)) }
    {
        if (disk.size() as u64) < layout.need() {
            return Err(disk);
        }
        Ok(Cells { disk, layout })
    }

    /// The device.
    pub fn disk(&self) -> &D
        ensures { result.now ≡ disk_of self.now }
    {
        &self.disk
    }

    /// Gives the device back.
    pub fn into_disk(self) -> D
        ensures { result ≡ disk_of self }
    {
        let Cells { disk, .. } = self;
        disk
    }

    /// Where the places lie.
    pub fn layout(&self) -> Layout
        ensures { result ≡ layout_of self.now }
    {
        self.layout
    }

    /// Writes a cell's body, behind a gate that has to be closed and stable: the cell reads as
    /// nothing, and is filled from the next successful sync on.
    pub fn fill(&mut self, cell: Place, body: &[u8]) -> Result<(), DiskFault>
        requires cell { IsCell (layout_of self.old) cell }
        requires size { length body.now ≡ body_len cell }
        ensures call { Calls D.Disk (disk_of self.old) (disk_of self.new) result }
        ensures layout { layout_of self.new ≡ layout_of self.old }
        ensures written { WritesOnly D.Disk (offset_of (layout_of self.old) cell) body.now (disk_of self.old) (disk_of self.new) result }
        ensures inside { WritesIn D.Disk (layout_of self.old) cell (disk_of self.old) (disk_of self.new) result }
        ensures states { StepsAt D.Disk (layout_of self.old) cell (filling body.now) (disk_of self.old) (disk_of self.new) result }
    {
        self.disk.write_at(self.layout.offset(cell), body)
    }

    /// Writes a cell's gate, whose first byte is this one.
    fn write_gate(&mut self, cell: Place, first: u8) -> Result<(), DiskFault>
        requires { IsCell (layout_of self.old) cell }
        ensures call { Calls D.Disk (disk_of self.old) (disk_of self.new) result }
        ensures layout { layout_of self.new ≡ layout_of self.old }
        ensures written { WritesOnly D.Disk (gate_of (layout_of self.old) cell) (gate first) (disk_of self.old) (disk_of self.new) result }
        ensures inside { WritesIn D.Disk (layout_of self.old) cell (disk_of self.old) (disk_of self.new) result }
    {
        self.disk
            .write_at(self.layout.gate(cell), &gate_sector(first))
    }

    /// Writes an open gate behind a body that has to be stable: the cell reads as nothing or as
    /// its body, and as its body from the next successful sync on.
    pub fn open_gate(&mut self, cell: Place) -> Result<(), DiskFault>
        requires { IsCell (layout_of self.old) cell }
        ensures call { Calls D.Disk (disk_of self.old) (disk_of self.new) result }
        ensures layout { layout_of self.new ≡ layout_of self.old }
        ensures written { WritesOnly D.Disk (gate_of (layout_of self.old) cell) (gate 0xA5) (disk_of self.old) (disk_of self.new) result }
        ensures inside { WritesIn D.Disk (layout_of self.old) cell (disk_of self.old) (disk_of self.new) result }
        ensures states { StepsAt D.Disk (layout_of self.old) cell opening (disk_of self.old) (disk_of self.new) result }
    {
        self.write_gate(cell, OPEN)
    }

    /// Writes a closed gate: an opened cell reads as nothing or as its body, and as nothing from
    /// the next successful sync on. Closing a cell that is closed destroys what is known of it.
    pub fn close_gate(&mut self, cell: Place) -> Result<(), DiskFault>
        requires { IsCell (layout_of self.old) cell }
        ensures call { Calls D.Disk (disk_of self.old) (disk_of self.new) result }
        ensures layout { layout_of self.new ≡ layout_of self.old }
        ensures written { WritesOnly D.Disk (gate_of (layout_of self.old) cell) (gate 0) (disk_of self.old) (disk_of self.new) result }
        ensures inside { WritesIn D.Disk (layout_of self.old) cell (disk_of self.old) (disk_of self.new) result }
        ensures states { StepsAt D.Disk (layout_of self.old) cell closing (disk_of self.old) (disk_of self.new) result }
    {
        self.write_gate(cell, CLOSED)
    }

    /// Writes an area's body, which stands there from the next successful sync on.
    pub fn write_area(&mut self, area: Place, body: &[u8]) -> Result<(), DiskFault>
        requires area { IsArea (layout_of self.old) area }
        requires size { length body.now ≡ body_len area }
        ensures call { Calls D.Disk (disk_of self.old) (disk_of self.new) result }
        ensures layout { layout_of self.new ≡ layout_of self.old }
        ensures written { WritesOnly D.Disk (offset_of (layout_of self.old) area) body.now (disk_of self.old) (disk_of self.new) result }
        ensures inside { WritesIn D.Disk (layout_of self.old) area (disk_of self.old) (disk_of self.new) result }
        ensures states { StepsAt D.Disk (layout_of self.old) area (writing body.now) (disk_of self.old) (disk_of self.new) result }
    {
        self.disk.write_at(self.layout.offset(area), body)
    }

    /// Makes all that was written stable. The first sync on a device of unknown past leaves each
    /// place in the state that its bytes show.
    pub fn sync(&mut self) -> Result<(), DiskFault>
        ensures call { Calls D.Disk (disk_of self.old) (disk_of self.new) result }
        ensures layout { layout_of self.new ≡ layout_of self.old }
        ensures synced { D.honest (disk_of self.old) → OnOk result (D.history (disk_of self.new) ≡ Synced (D.history (disk_of self.old))) }
        ensures unsynced { D.honest (disk_of self.old) → OnErr result (D.history (disk_of self.new) ≡ D.history (disk_of self.old)) }
        ensures states { Settles D.Disk (layout_of self.old) (disk_of self.old) (disk_of self.new) result }
        ensures found { D.honest (disk_of self.old) → OnOk result (Assigns (layout_of self.old) (D.history (disk_of self.new)) (found (layout_of self.old) (seen (D.history (disk_of self.old))))) }
    {
        self.disk.sync()
    }

    /// Reads a cell: its body where the gate stands open, in the room that the caller lends. The device
    /// is asked for a byte of the gate, and then for the body.
    pub fn read_cell<'a>(
        &mut self,
        cell: Place,
        room: &'a mut [u8],
    ) -> Result<Option<&'a [u8]>, DiskFault>
        requires cell { IsCell (layout_of self.old) cell }
        requires room { length room.old ≡ body_len cell }
        ensures call { Calls D.Disk (disk_of self.old) (disk_of self.new) result }
        ensures layout { layout_of self.new ≡ layout_of self.old }
        ensures same { SameHistory D.Disk (disk_of self.old) (disk_of self.new) }
        ensures size { IfOk result (λ found. IfSome found (λ bytes. length bytes.now ≡ body_len cell)) }
        ensures read { ReadsPlace D.Disk (layout_of self.old) cell (disk_of self.old) result (option_map (λ bytes. bytes.now)) }
        ensures shown { ShowsPlace D.Disk (layout_of self.old) cell (disk_of self.old) result (option_map (λ bytes. bytes.now)) }
    {
        let mut first = [0; 1];
        self.disk.read_at(self.layout.gate(cell), &mut first)?;
        if first[0] != OPEN {
            return Ok(None);
        }
        self.read_body(cell, room)?;
        Ok(Some(room))
    }

    /// Reads a place's body alone, whatever its gate, into the room that the caller lends: for a cell
    /// that the caller knows to stand open. The device is asked once.
    pub fn read_body(&mut self, place: Place, room: &mut [u8]) -> Result<(), DiskFault>
        requires place { IsPlace (layout_of self.old) place }
        requires room { length room.old ≡ body_len place }
        ensures call { Calls D.Disk (disk_of self.old) (disk_of self.new) result }
        ensures layout { layout_of self.new ≡ layout_of self.old }
        ensures same { SameHistory D.Disk (disk_of self.old) (disk_of self.new) }
        ensures read { ReadsBody D.Disk (layout_of self.old) place (disk_of self.old) result room.new }
        ensures opened { ReadsOpened D.Disk (layout_of self.old) place (disk_of self.old) result room.new }
    {
        self.disk.read_at(self.layout.offset(place), room)
    }

    /// Reads an area's body into the room that the caller lends.
    pub fn read_area(&mut self, area: Place, room: &mut [u8]) -> Result<(), DiskFault>
        requires area { IsArea (layout_of self.old) area }
        requires room { length room.old ≡ body_len area }
        ensures call { Calls D.Disk (disk_of self.old) (disk_of self.new) result }
        ensures layout { layout_of self.new ≡ layout_of self.old }
        ensures same { SameHistory D.Disk (disk_of self.old) (disk_of self.new) }
        ensures read { ReadsPlace D.Disk (layout_of self.old) area (disk_of self.old) result (λ _. Some room.new) }
        ensures shown { ShowsPlace D.Disk (layout_of self.old) area (disk_of self.old) result (λ _. Some room.new) }
    {
        self.read_body(area, room)
    }
}
