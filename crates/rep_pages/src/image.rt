//! What a page is at a later position.

ghost use Rattle.rep_versions.specs.Versions.{IsRowAt};
ghost use Rattle.rep_pages.specs.Rows.{row_at as row_in};
ghost use Rattle.rep_pages.specs.Images.{IsImage};

use crate::page::Page;
use crate::page_rows::PageRows;
use arrayvec::ArrayVec;
use rep_layout::{RowPlace, row_at};
use rep_types::{Key, ROWS_PER_PAGE, Schema, Value};
use rep_versions::{At, Versions, versions_follow_the_items};

/// What the row is at the position, where below all versions it is what these rows have at the place.
fn row_after(
    versions: &Versions,
    key: Key,
    position: u64,
    rows: &PageRows,
    index: u32,
) -> Option<Value>
    ensures { IsRowAt versions.now key position (row_in rows.now index) result }
{
    versions_follow_the_items();
    match versions.at(key, position) {
        At::Found(value) => Some(value.copied()),
        At::Deleted => None,
        At::Below => rows.row(index).map(|value| value.copied()),
    }
}

impl Page {
    /// The page at the position: each of its rows as the newest version up to there made it, and as it
    /// is in this page where there is none. A row that the schema does not have is absent. It costs a
    /// look-up of each row, and no memory.
    pub fn image(&self, schema: &Schema, versions: &Versions, position: u64) -> Page
        ensures { IsImage schema.now versions.now position self.now result }
    {
        let mut rows = ArrayVec::new();
        for index in 0..ROWS_PER_PAGE {
            let place = RowPlace {
                page: self.number,
                index,
            };
            let row = match row_at(schema, place) {
                Some(key) => row_after(versions, key, position, &self.rows, index),
                None => None,
            };
            rows.push(row);
        }
        Page {
            number: self.number,
            position,
            rows: PageRows::of(rows),
        }
    }
}
