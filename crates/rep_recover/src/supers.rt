//! The superblocks that stand on a device, and which of them counts.

ghost use Rattle.std.specs.Prelude.{◌≡◌, [], IfOk, IfErr, IfSome, option_map};
ghost use Rattle.rep_types.specs.declared.refusal.Part.TheVariants.{Superblock};
ghost use Rattle.rep_disk.specs.History.{seen, failed};
ghost use Rattle.rep_layout.specs.Places.{side_of};
ghost use Rattle.rep_layout.specs.Supers.{super_bytes};
ghost use Rattle.rep_cells.specs.Device.{disk_of, layout_of};
ghost use Rattle.rep_cells.specs.Readings.{reading_of};
ghost use Rattle.rep_engine.specs.Bases.{IsSuperAt};
ghost use Rattle.rep_recover.specs.Looking.{Looks, RefusesPart, RefusesSupers, IsNoSuper, HasBadSuper, HasNoSuper, Counts, chosen};

use rep_cells::Cells;
use rep_disk::Disk;
use rep_layout::{Place, SUPER_BODY, Side, SuperBody, need};
use rep_types::{Part, Refusal};

/// What is answered where a body is no superblock of its side.
const CORRUPT: Refusal = Refusal::Corrupt {
    part: Part::Superblock,
};

/// The superblock that the bytes are, on this side of a device of this size: one of the side's numbers, whose
/// places the device has room for.
fn superblock_of(bytes: &[u8], side: Side, size: usize) -> Result<SuperBody, Refusal>
    ensures found { IfOk result (λ b. IsSuperAt size side b × (bytes.now ≡ super_bytes b)) }
    ensures refused { IfErr result (λ e. (e ≡ Refusal.Corrupt Superblock) × IsNoSuper size side bytes.now) }
{
    let superblock = SuperBody::read_body(bytes)?;
    if Side::of(superblock.number) != side || need(&superblock.params) > size as u64 {
        return Err(CORRUPT);
    }
    Ok(superblock)
}

/// The superblock of a side, if its gate stands open.
fn read_super<D: Disk>(cells: &mut Cells<D>, side: Side) -> Result<Option<SuperBody>, Refusal>
    ensures layout { layout_of cells.new ≡ layout_of cells.old }
    ensures looks { Looks D.Disk (disk_of cells.old) (disk_of cells.new) result }
    ensures form { IfOk result (λ found. IfSome found (λ b. IsSuperAt (D.size (disk_of cells.old)) side b)) }
    ensures found { D.honest (disk_of cells.old) → failed (D.history (disk_of cells.old)) ≡ [] → IfOk result (λ found. reading_of (layout_of cells.old) (seen (D.history (disk_of cells.old))) (Place.Super side) ≡ option_map super_bytes found) }
    ensures refused { IfErr result (RefusesPart Superblock (D.honest (disk_of cells.old) → failed (D.history (disk_of cells.old)) ≡ [] → HasBadSuper (D.size (disk_of cells.old)) (reading_of (layout_of cells.old) (seen (D.history (disk_of cells.old)))))) }
{
    let size = cells.disk().size();
    let mut room = [0; SUPER_BODY];
    let Ok(found) = cells.read_cell(Place::Super(side), &mut room) else {
        return Err(Refusal::DiskFault);
    };
    let Some(bytes) = found else {
        return Ok(None);
    };
    let superblock = superblock_of(bytes, side, size)?;
    Ok(Some(superblock))
}

/// Of the superblocks that stand open the one of the greater number, and whether there are two.
fn choose(a: Option<SuperBody>, b: Option<SuperBody>) -> Option<(SuperBody, bool)>
    ensures { result ≡ chosen a b }
{
    match (a, b) {
        (None, None) => None,
        (Some(a), None) => Some((a, false)),
        (None, Some(b)) => Some((b, false)),
        (Some(a), Some(b)) => {
            if a.number < b.number {
                Some((b, true))
            } else {
                Some((a, true))
            }
        }
    }
}

/// The superblock that counts, and whether another one stands open too.
///
/// Refuses with `NotFormatted` where none stands open; with `Corrupt` of the superblock where one that stands
/// open is not of the form, is of the other side's numbers, or has places that the device has no room for,
/// also beside one that is of the form; and with `DiskFault` where the device failed.
pub(crate) fn find_super<D: Disk>(cells: &mut Cells<D>) -> Result<(SuperBody, bool), Refusal>
    ensures layout { layout_of cells.new ≡ layout_of cells.old }
    ensures looks { Looks D.Disk (disk_of cells.old) (disk_of cells.new) result }
    ensures form { IfOk result (λ x. IsSuperAt (D.size (disk_of cells.old)) (side_of x.0.number) x.0) }
    ensures found { D.honest (disk_of cells.old) → failed (D.history (disk_of cells.old)) ≡ [] → IfOk result (λ x. Counts (D.size (disk_of cells.old)) (reading_of (layout_of cells.old) (seen (D.history (disk_of cells.old)))) x.0 x.1) }
    ensures refused { IfErr result (RefusesSupers (D.honest (disk_of cells.old) → failed (D.history (disk_of cells.old)) ≡ [] → HasNoSuper (reading_of (layout_of cells.old) (seen (D.history (disk_of cells.old))))) (D.honest (disk_of cells.old) → failed (D.history (disk_of cells.old)) ≡ [] → HasBadSuper (D.size (disk_of cells.old)) (reading_of (layout_of cells.old) (seen (D.history (disk_of cells.old)))))) }
{
    let a = read_super(cells, Side::A)?;
    let b = read_super(cells, Side::B)?;
    choose(a, b).ok_or(Refusal::NotFormatted)
}
