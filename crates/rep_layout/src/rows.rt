//! Where a row lies.

ghost use Rattle.std.specs.Prelude.{◌≡◌, ◌+◌, ◌<◌, ◌≤◌, length, slice_index, if◌then◌else◌, Some, None, IfSome, IsSome, IsNone};
ghost use Rattle.rep_types.specs.Settings.{has_row, page_count, pages_of, IsRow};
ghost use Rattle.rep_types.specs.declared.key.Key.{Key};
ghost use Rattle.rep_layout.specs.Rows.{pages_before, row_place, RowPlacesAreTold};

use rep_types::{Key, MAX_PAGES, MAX_TABLES, ROWS_PER_PAGE, Schema};

/// Where a row lies: its page, and its place there, from 0 to 62.
#[derive(Clone, Copy, Debug, PartialEq, Eq)]
pub struct RowPlace {
    /// The page, counted from 0 over all tables.
    pub page: u32,
    /// The row's place in the page.
    pub index: u32,
}

/// How many pages these tables take.
fn pages_taken(rows: &[u32]) -> u64
    requires { length rows.now ≤ MAX_TABLES }
    ensures { result ≡ pages_of rows.now }
{
    rows.iter()
        .map(|count| u64::from(count.div_ceil(ROWS_PER_PAGE)))
        .sum()
}

/// Where the row of this key lies, or None where the schema has no such row. Pages are numbered
/// table by table, each table having its own; the first row of a table's page is 63 rows behind
/// that of the page before.
pub fn page_of(schema: &Schema, key: Key) -> Option<RowPlace>
    ensures { result ≡ (if has_row schema.now key then Some (row_place schema.now key) else None) }
{
    if !schema.contains(key) {
        return None;
    }
    let before = pages_taken(&schema.rows()[..usize::from(key.table)]);
    Some(RowPlace {
        page: before as u32 + key.row / ROWS_PER_PAGE,
        index: key.row % ROWS_PER_PAGE,
    })
}

/// The table that a page is of, and the page's number among the pages of that table.
fn table_of(rows: &[u32], page: u32) -> Option<(usize, u32)>
    ensures found { IfSome result (λ x. (x.1 < page_count (slice_index rows.now x.0)) × (pages_before x.0 rows.now + x.1 ≡ page)) }
    ensures none { IsNone result → pages_of rows.now ≤ page }
{
    let mut left = page;
    for table in 0..rows.len() {
        let pages = rows[table].div_ceil(ROWS_PER_PAGE);
        if left < pages {
            return Some((table, left));
        }
        left -= pages;
    }
    None
}

/// The key of the row that lies at this place, or None where no row of the schema does: where there is
/// no such page, or the place in it is past the table's last row or above 62. It undoes `page_of`.
#[tactic(auto, using(crate::proofs::RowPlaces::row_within))]
pub fn row_at(schema: &Schema, place: RowPlace) -> Option<Key>
    // The row that is found lies there.
    ensures found { IfSome result (λ key. IsRow schema.now key × (row_place schema.now key ≡ place)) }
    // The row that lies there is found.
    ensures only { (key : Key) → IsRow schema.now key → row_place schema.now key ≡ place → result ≡ Some key }
    // A schema has no more pages than this.
    ensures few { IsSome result → place.page < MAX_PAGES }
{
    if place.index >= ROWS_PER_PAGE {
        return None;
    }
    let (table, page) = table_of(schema.rows(), place.page)?;
    let key = Key {
        table: table as u8,
        row: ROWS_PER_PAGE * page + place.index,
    };
    if !schema.contains(key) {
        return None;
    }
    Some(key)
}

/// Rows of the schema lie in its pages, two rows do not lie at one place, and the page of a later row is not
/// below that of an earlier one.
#[tactic(auto, using(crate::proofs::RowPlaces::row_within, crate::proofs::RowPlaces::row_told, crate::proofs::RowPlaces::row_rises))]
pub fn row_places_are_told()
    ensures { RowPlacesAreTold }
{}
