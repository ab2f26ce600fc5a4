//! Reads rows of pages, each time of the device or through a pool.

ghost use Rattle.rep_layout.specs.Supers.{IsSuper};

use arrayvec::ArrayVec;
use rep_cells::{Cells, refusal_of};
use rep_disk::Disk;
use rep_layout::{Format, Layout, PAGE_BODY, PageState, Place, RowPlace, Slot, SuperBody};
use rep_pages::Page;
use rep_pool::Pool;
use rep_types::{Item, Key, Params, Refusal, Schema, Value, Write, WriteSet};
use rep_versions::Versions;
use std::alloc::Global;
use uuid::Uuid;

/// How many pages there are: as many as a schema can have.
const PAGES: u32 = 4_096;

/// How many rows a page has.
const ROWS: u32 = 63;

/// How many rows an item writes.
const WRITES: u32 = 16;

/// How many items write all rows of a page.
const ITEMS: u64 = 4;

/// One table that has so many pages, and a log of four cells: 33,640,448 bytes.
pub(crate) fn params() -> Result<Params, Refusal> {
    Params::new(16, 4, &[ROWS * PAGES])
}

/// A base that has each page in its first slot.
fn base(params: Params) -> SuperBody {
    let mut pages = ArrayVec::from([PageState::In(Slot::First); PAGES as usize]);
    pages.truncate(params.schema().pages() as usize);
    SuperBody {
        format: Format::Two,
        number: 1,
        uuid: Uuid::from_bytes([1; 16]),
        params,
        position: ITEMS,
        start: 0,
        pages,
    }
}

/// An item that writes the next sixteen rows.
fn item(number: u64) -> Result<WriteSet, Refusal> {
    let first = (number % ITEMS) as u32 * WRITES;
    let mut writes: ArrayVec<Write, 16> = ArrayVec::new();
    for i in 0..WRITES {
        writes.push(Write {
            key: Key {
                table: 0,
                row: first + i,
            },
            value: Some(Value::new(&number.to_be_bytes())?),
        });
    }
    WriteSet::new(1, 1, 0, &[], &writes)
}

/// The first page, with something in each of its rows.
fn full_page(alloc: Global, schema: &Schema) -> Result<Page, Refusal> {
    let mut versions = Versions::new(alloc);
    for number in 0..ITEMS {
        versions.add(number + 1, &Item::WriteSet(item(number)?))?;
    }
    Ok(Page::absent(0).image(schema, &versions, ITEMS))
}

/// Writes each page of the base.
fn write_pages<D: Disk>(
    alloc: Global,
    cells: &mut Cells<D>,
    schema: &Schema,
) -> Result<(), Refusal> {
    let mut page = full_page(alloc, schema)?;
    for number in 0..PAGES {
        page.number = number;
        let place = Place::Page(number, Slot::First);
        let Some(body) = page.write_body(schema) else {
            return Err(Refusal::NotDue);
        };
        if !cells.layout().has(place) {
            return Err(Refusal::NotDue);
        }
        refusal_of(cells.write_area(place, body.as_slice()))?;
    }
    Ok(())
}

/// The place of the row that a read is of: the pages in turn, as many as are said.
fn place_of(read: u64, pages: u32) -> RowPlace {
    RowPlace {
        page: read.checked_rem(u64::from(pages)).unwrap_or(0) as u32,
        index: (read % u64::from(ROWS)) as u32,
    }
}

/// The row of the page as the device has it.
fn row_of<D: Disk>(
    cells: &mut Cells<D>,
    base: &SuperBody,
    place: RowPlace,
) -> Result<Option<Value>, Refusal> {
    let area = Place::Page(place.page, Slot::First);
    if !cells.layout().has(area) {
        return Err(Refusal::NotDue);
    }
    let mut body = [0; PAGE_BODY];
    refusal_of(cells.read_area(area, &mut body))?;
    let page = Page::read_body(base.params.schema(), place.page, base.position, &body)?;
    match page.rows.row(place.index) {
        Some(value) => Ok(Some(value.copied())),
        None => Ok(None),
    }
}

/// How many of so many reads find a row, each of the device.
fn found<D: Disk>(
    cells: &mut Cells<D>,
    base: &SuperBody,
    pages: u32,
    reads: u64,
) -> Result<u64, Refusal> {
    let mut found = 0u64;
    for read in 0..reads {
        if row_of(cells, base, place_of(read, pages))?.is_some() {
            found = found.saturating_add(1);
        }
    }
    Ok(found)
}

/// The same through a pool.
fn found_in_pool<D: Disk>(
    cells: &mut Cells<D>,
    pool: &mut Pool,
    base: &SuperBody,
    pages: u32,
    reads: u64,
) -> Result<u64, Refusal>
    requires { IsSuper base.now }
{
    let layout = Layout::new(&base.params);
    let mut found = 0u64;
    for read in 0..reads {
        if cells.layout() != layout {
            return Err(Refusal::NotDue);
        }
        if pool.row(cells, base, place_of(read, pages))?.is_some() {
            found = found.saturating_add(1);
        }
    }
    Ok(found)
}

/// How many of so many reads of so many pages in turn find a row, on a device that is written before: through a pool, or not.
pub(crate) fn found_on<D: Disk + Drop>(
    alloc: Global,
    disk: D,
    is_pooled: bool,
    pages: u32,
    reads: u64,
) -> Result<u64, Refusal> {
    let base = base(params()?);
    let Some(_) = base.write_body() else {
        return Err(Refusal::NotDue);
    };
    let Ok(mut cells) = Cells::new(disk, Layout::new(&base.params)) else {
        return Err(Refusal::NotDue);
    };
    write_pages(alloc, &mut cells, base.params.schema())?;
    if !is_pooled {
        return found(&mut cells, &base, pages, reads);
    }
    let mut pool = Pool::new(alloc)?;
    found_in_pool(&mut cells, &mut pool, &base, pages, reads)
}
