//! The pool, and the pages and rows of a base that are asked for.

ghost use Rattle.std.specs.Prelude.{◌≡◌, ◌⊎◌, ◌≤◌, ℕ, List, [], Option, None, Some, Result, Ok, IfOk, IfErr, IfSome, OnOk, OnErr, nat_eq};
ghost use Rattle.std.specs.List.{IsDistinct};
ghost use Rattle.std.specs.Map.{keys_of};
ghost use Rattle.std.specs.Option.{option_copied};
ghost use Rattle.rep_types.specs.declared.refusal.Refusal.{Refusal as Refused};
ghost use Rattle.rep_types.specs.declared.refusal.Refusal.TheVariants.{DiskFault, Corrupt};
ghost use Rattle.rep_types.specs.declared.refusal.Part.TheVariants.{Pages};
ghost use Rattle.rep_disk.specs.Devices.{Calls, SameHistory};
ghost use Rattle.rep_layout.specs.Places.{layout_of as places_of};
ghost use Rattle.rep_layout.specs.Supers.{IsSuper};
ghost use Rattle.rep_layout.specs.declared.place.Slot.{Slot as SlotOf};
ghost use Rattle.rep_layout.specs.declared.page_state.PageState.TheVariants.{Nowhere, In};
ghost use Rattle.rep_cells.specs.Device.{disk_of, layout_of};
ghost use Rattle.rep_cells.specs.Faults.{fault_of};
ghost use Rattle.rep_pages.specs.declared.page.Page.{Page as PageBody};
ghost use Rattle.rep_pages.specs.Slots.{state_of_page};
ghost use Rattle.rep_pages.specs.Spelled.{SpellRows};
ghost use Rattle.rep_pool.specs.Pools.{found, used, without_page, AreNumbered, IsKept, IsFree};
ghost use Rattle.rep_pool.specs.BasePages.{ReadsPage, page_read, kept_in, GivesPage, GivesRow, GoesOn, IsKeptAnew, IsRowUpTo};

use lru::LruCache;
use rep_cells::{Cells, refusal_of};
use rep_disk::Disk;
use rep_layout::{PAGE_BODY, PageState, Place, RowPlace, Slot, SuperBody};
use rep_pages::{Page, SpelledPage, pages_are_told, row_of_bytes, slot_of};
use rep_types::{Boxed, Part, Refusal, Value};
use std::alloc::Global;
use std::marker::Model;
use std::mem;
use std::num::NonZeroUsize;

/// How many pages a pool keeps: 256 KiB of bytes.
pub const POOL_PAGES: usize = 64;

/// The number of pages that a pool keeps.
pub fn pool_pages_are_64()
    ensures { POOL_PAGES ≡ 64 }
{}

/// What is kept of a page: the slot in which it was read, and what it was there.
#[derive(Drop)]
pub struct Kept {
    pub slot: Slot,
    pub page: SpelledPage,
}

/// Room for the bytes of pages, on the heap. A page that is kept stays where it was read, and other room takes that room's place.
#[derive(Drop)]
struct Rooms {
    /// Where the next page is read.
    next: Boxed<[u8; PAGE_BODY]>,
    /// The room of a page that went.
    spare: Option<Boxed<[u8; PAGE_BODY]>>,
    /// Where more is had.
    alloc: Global,
}

/// The pages of a device that were read last, at most 64, each once and as one of its two slots has it.
///
/// Whoever writes into a slot tells the pool (`wrote`), or takes the page out of it before (`take_page`): then what it gives is what
/// the slot has. It knows no base: what is kept of a slot that the base has left is still what lies there, and is not found, since the
/// base asks for the other one.
#[derive(Drop)]
pub struct Pool {
    rooms: Rooms,
    pages: LruCache<u32, Kept>,
}

impl Model for Pool {
    ghost use Rattle.std.specs.Prelude.{◌≡◌};
    ghost use Rattle.rep_pool.specs.Pools.{Pooled, AreNumbered};
    ghost use Rattle.rep_pool.specs.declared.pool.TheConstants.{POOL_PAGES};

    ghost Value = { Pooled };

    ghost view = { λ pool. pool.pages.entries };

    ghost invariant = { λ pool. (pool.pages.cap ≡ POOL_PAGES) × AreNumbered pool.pages.entries };
}

/// The page as the device has it in the slot in which the base has it.
fn read_page<D: Disk>(
    cells: &mut Cells<D>,
    base: &SuperBody,
    number: u32,
    slot: Slot,
) -> Result<Page, Refusal>
    requires super_body { IsSuper base.now }
    requires layout { layout_of cells.old ≡ places_of base.now.params }
    requires there { state_of_page base.now number ≡ In slot }
    ensures call { Calls D.Disk (disk_of cells.old) (disk_of cells.new) (fault_of result) }
    ensures layout { layout_of cells.new ≡ layout_of cells.old }
    ensures same { SameHistory D.Disk (disk_of cells.old) (disk_of cells.new) }
    ensures number { IfOk result (λ page. page.number ≡ number) }
    ensures reads { ReadsPage D.Disk (layout_of cells.old) base.now number (disk_of cells.old) result }
    ensures refused { IfErr result (λ e. (e ≡ DiskFault) ⊎ (e ≡ Corrupt Pages)) }
{
    let mut body = [0; PAGE_BODY];
    refusal_of(cells.read_area(Place::Page(number, slot), &mut body))?;
    Page::read_body(base.params.schema(), number, base.position, &body)
}

/// Reads the page as the device has it in the slot in which the base has it, into this room: the position that it was written for.
fn read_into<D: Disk>(
    room: &mut Boxed<[u8; PAGE_BODY]>,
    cells: &mut Cells<D>,
    base: &SuperBody,
    number: u32,
    slot: Slot,
) -> Result<u64, Refusal>
    requires super_body { IsSuper base.now }
    requires layout { layout_of cells.old ≡ places_of base.now.params }
    requires there { state_of_page base.now number ≡ In slot }
    ensures call { Calls D.Disk (disk_of cells.old) (disk_of cells.new) (fault_of result) }
    ensures layout { layout_of cells.new ≡ layout_of cells.old }
    ensures same { SameHistory D.Disk (disk_of cells.old) (disk_of cells.new) }
    ensures rows { IfOk result (λ _. SpellRows room.new) }
    ensures reads { ReadsPage D.Disk (layout_of cells.old) base.now number (disk_of cells.old) (page_read number room.new result) }
    ensures refused { IfErr result (λ e. (e ≡ DiskFault) ⊎ (e ≡ Corrupt Pages)) }
{
    refusal_of(cells.read_area(Place::Page(number, slot), room.get_mut()))?;
    Page::position_in(base.params.schema(), number, base.position, room.get())
}

/// Whether a page is of the base: it was not written for a later position.
fn is_earlier(position: u64, base: &SuperBody) -> Result<(), Refusal>
    ensures earlier { IfOk result (λ _. position ≤ base.now.position) }
    ensures only { position ≤ base.now.position → result ≡ Ok tt }
    ensures refused { IfErr result (λ e. e ≡ Corrupt Pages) }
{
    if position > base.position {
        return Err(Refusal::Corrupt { part: Part::Pages });
    }
    Ok(())
}

/// New room. None where there is no memory for it.
fn new_room(alloc: Global) -> Option<Boxed<[u8; PAGE_BODY]>> {
    Boxed::new(alloc, [0; PAGE_BODY]).ok()
}

impl Rooms {
    /// The room that takes the next room's place: what is spare, or else new room. None where there is no memory for it.
    fn other(&mut self) -> Option<Boxed<[u8; PAGE_BODY]>>
        ensures { self.new.next ≡ self.old.next }
    {
        if let Some(room) = self.spare.take() {
            return Some(room);
        }
        new_room(self.alloc)
    }
}

/// Keeps the page that was read into the next room. Where room for it is refused, it is not kept.
fn keep(pages: &mut LruCache<u32, Kept>, rooms: &mut Rooms, number: u32, slot: Slot, position: u64)
    requires rows { SpellRows rooms.old.next }
    requires cap { pages.old.cap ≡ POOL_PAGES }
    ensures kept { IsKept number (kept_in number slot position rooms.old.next) pages.old.entries pages.new.entries }
    ensures cap { pages.new.cap ≡ POOL_PAGES }
{
    if let Some(kept) = pages.get_mut(&number) {
        kept.slot = slot;
        kept.page.replace(number, position, &mut rooms.next);
        return;
    }
    let Some(other) = rooms.other() else {
        return;
    };
    let bytes = mem::replace(&mut rooms.next, other);
    let page = SpelledPage::new(number, position, bytes);
    if let Ok(Some((_, gone))) = pages.push(number, Kept { slot, page }) {
        rooms.spare = Some(gone.page.into_bytes());
    }
}

impl Pool {
    /// A pool that keeps no page yet.
    ///
    /// Refuses with `OutOfMemory` where there is no room for its table, or for the bytes of a page.
    pub fn new(alloc: Global) -> Result<Pool, Refusal>
        ensures empty { IfOk result (λ pool. pool ≡ []) }
        ensures refused { IfErr result (λ e. e ≡ Refusal.OutOfMemory) }
    {
        let Some(room) = NonZeroUsize::new(POOL_PAGES) else {
            unreachable!();
        };
        let Some(next) = new_room(alloc) else {
            return Err(Refusal::OutOfMemory);
        };
        let rooms = Rooms {
            next,
            spare: None,
            alloc,
        };
        Ok(Pool {
            rooms,
            pages: LruCache::new(alloc, room)?,
        })
    }

    /// What is kept of the page as this slot had it.
    fn found(&self, number: u32, slot: Slot) -> Option<&SpelledPage>
        ensures { option_copied result ≡ found number slot self.now }
    {
        let kept = self.pages.peek(&number)?;
        if kept.slot != slot {
            return None;
        }
        Some(&kept.page)
    }

    /// Lets go what is kept of the page, and gives it where it is of this slot.
    fn take(&mut self, number: u32, slot: Slot) -> Option<Page>
        ensures taken { result ≡ found number slot self.old }
        ensures without { self.new ≡ without_page number self.old }
        // Each page was there once, by its number.
        ensures once { IsDistinct nat_eq (keys_of self.old) }
        ensures numbered { AreNumbered self.old }
    {
        self.pages.len();
        let kept = self.pages.pop(&number)?;
        if kept.slot == slot {
            Some(kept.page.page())
        } else {
            None
        }
    }

    /// Takes note that one of the page's slots is written, or may be: what is kept of the page goes.
    pub fn wrote(&mut self, number: u32)
        ensures without { self.new ≡ without_page number self.old }
        ensures gone { (slot : SlotOf) → found number slot self.new ≡ None }
        ensures free { (slot : SlotOf) → IsFree (Place.Page number slot) self.new }
    {
        drop(self.take(number, Slot::First));
    }

    /// The row of a page that is kept, which is then the one that was used last, if the page was not written for a later position
    /// than the base's.
    fn row_of(
        &mut self,
        base: &SuperBody,
        place: RowPlace,
        slot: Slot,
    ) -> Option<Result<Option<Value>, Refusal>>
        ensures found { (page : PageBody) → found place.page slot self.old ≡ Some page → (row : Result (Option (List ℕ)) Refused) × (result ≡ Some row) × IsRowUpTo base.now.position page place.index row × OnOk row (self.new ≡ used place.page self.old) × OnErr row (self.new ≡ self.old) }
        ensures none { found place.page slot self.old ≡ None → (result ≡ None) × (self.new ≡ self.old) }
    {
        let page = self.found(place.page, slot)?;
        if let Err(refusal) = is_earlier(page.position(), base) {
            return Some(Err(refusal));
        }
        let row = page.row(place.index);
        self.pages.promote(&place.page);
        Some(Ok(row))
    }

    /// What stands in the row at this place of the base: of its page, by one read of the device at most, and none where the page is
    /// kept. A page that was read is kept from then on; room that is refused does no harm: the row is given, and the page not kept.
    /// A row of a page that the base has in no slot is absent.
    ///
    /// Refuses with `Corrupt` of the pages exactly where the page is not of the form, of its number, and of a position not above
    /// the base's; and with `DiskFault` where the device failed. The pool is then as it was.
    pub fn row<D: Disk>(
        &mut self,
        cells: &mut Cells<D>,
        base: &SuperBody,
        place: RowPlace,
    ) -> Result<Option<Value>, Refusal>
        requires super_body { IsSuper base.now }
        requires layout { layout_of cells.old ≡ places_of base.now.params }
        ensures call { Calls D.Disk (disk_of cells.old) (disk_of cells.new) (fault_of result) }
        ensures layout { layout_of cells.new ≡ layout_of cells.old }
        ensures same { SameHistory D.Disk (disk_of cells.old) (disk_of cells.new) }
        // Where the device is not asked, and what the pool then keeps.
        ensures nowhere { state_of_page base.now place.page ≡ Nowhere → (disk_of cells.new ≡ disk_of cells.old) × (self.new ≡ self.old) }
        ensures hit { (slot : SlotOf) → state_of_page base.now place.page ≡ In slot → IfSome (found place.page slot self.old) (λ _. (disk_of cells.new ≡ disk_of cells.old) × OnOk result (self.new ≡ used place.page self.old)) }
        ensures read { (slot : SlotOf) → state_of_page base.now place.page ≡ In slot → found place.page slot self.old ≡ None → OnOk result (IsKeptAnew place.page slot self.old self.new) }
        ensures unchanged { OnErr result (self.new ≡ self.old) }
        // The bytes decide: those of the slot, whether they were kept or not.
        ensures row { GivesRow D.Disk (layout_of cells.old) base.now place.page place.index (disk_of cells.old) self.old result }
        ensures agrees { GoesOn D.Disk base.now.params.rows (layout_of cells.old) (disk_of cells.old) (disk_of cells.new) self.old self.new }
        ensures refused { IfErr result (λ e. (e ≡ DiskFault) ⊎ (e ≡ Corrupt Pages)) }
    {
        pages_are_told();
        let PageState::In(slot) = slot_of(base, place.page) else {
            return Ok(None);
        };
        if let Some(row) = self.row_of(base, place, slot) {
            return row;
        }
        let position = read_into(&mut self.rooms.next, cells, base, place.page, slot)?;
        let row = row_of_bytes(self.rooms.next.get(), place.index);
        keep(&mut self.pages, &mut self.rooms, place.page, slot, position);
        Ok(row)
    }

    /// The base's page of this number, for whoever is to write its other slot: by one read of the device at most, and none where the
    /// page is kept. The pool keeps nothing of it afterwards. Where the base has it in no slot, it is a page without rows.
    ///
    /// Refuses with `Corrupt` of the pages exactly where the bytes are not of the form, of that number, and of a position not
    /// above the base's; and with `DiskFault` where the device failed.
    pub fn take_page<D: Disk>(
        &mut self,
        cells: &mut Cells<D>,
        base: &SuperBody,
        number: u32,
    ) -> Result<Page, Refusal>
        requires super_body { IsSuper base.now }
        requires layout { layout_of cells.old ≡ places_of base.now.params }
        ensures call { Calls D.Disk (disk_of cells.old) (disk_of cells.new) (fault_of result) }
        ensures layout { layout_of cells.new ≡ layout_of cells.old }
        ensures same { SameHistory D.Disk (disk_of cells.old) (disk_of cells.new) }
        // Where the device is not asked, and what the pool then keeps.
        ensures nowhere { state_of_page base.now number ≡ Nowhere → disk_of cells.new ≡ disk_of cells.old }
        ensures hit { (slot : SlotOf) → state_of_page base.now number ≡ In slot → IfSome (found number slot self.old) (λ _. disk_of cells.new ≡ disk_of cells.old) }
        ensures without { self.new ≡ without_page number self.old }
        ensures free { (slot : SlotOf) → IsFree (Place.Page number slot) self.new }
        // The bytes decide: those of the slot, whether they were kept or not.
        ensures number { IfOk result (λ page. page.number ≡ number) }
        ensures page { GivesPage D.Disk (layout_of cells.old) base.now number (disk_of cells.old) self.old result }
        ensures agrees { GoesOn D.Disk base.now.params.rows (layout_of cells.old) (disk_of cells.old) (disk_of cells.new) self.old self.new }
        ensures refused { IfErr result (λ e. (e ≡ DiskFault) ⊎ (e ≡ Corrupt Pages)) }
    {
        pages_are_told();
        let PageState::In(slot) = slot_of(base, number) else {
            self.wrote(number);
            return Ok(Page::absent(number));
        };
        match self.take(number, slot) {
            Some(page) => match is_earlier(page.position, base) {
                Ok(()) => Ok(page),
                Err(refusal) => Err(refusal),
            },
            None => read_page(cells, base, number, slot),
        }
    }
}
