//! Which parameter is outside its limits.

use rep_types::{MAX_CELLS, MAX_PAGES, MAX_TABLES, MAX_WINDOW, MIN_CELLS, ROWS_PER_PAGE};
use std::fmt;

/// A parameter that is outside its limits. It shows itself as words for people.
#[derive(Clone, Copy)]
pub enum Outside {
    /// The window spans so many seqnos.
    Window(u64),
    /// The log has so many cells.
    Cells(u32),
    /// There are no tables, or too many.
    Tables,
    /// This table, from 0, has no rows.
    Table(usize),
    /// The tables take so many pages.
    Pages(u64),
}

/// How many pages the tables take, 63 rows in a page, each table its own.
fn pages_of(rows: &[u32]) -> u64 {
    let mut pages: u64 = 0;
    for count in rows {
        pages = pages.saturating_add(u64::from(count.div_ceil(ROWS_PER_PAGE)));
    }
    pages
}

/// What of the tables' rows is outside the limits, if anything is.
fn outside_of_schema(rows: &[u32]) -> Option<Outside> {
    if rows.is_empty() || rows.len() > MAX_TABLES {
        return Some(Outside::Tables);
    }
    if let Some(table) = rows.iter().position(|count| *count == 0) {
        return Some(Outside::Table(table));
    }
    let pages = pages_of(rows);
    if pages > MAX_PAGES {
        return Some(Outside::Pages(pages));
    }
    None
}

impl Outside {
    /// The first of the parameters, the window, the cells of the log and the rows of each table, that is outside its limits.
    pub fn first_of(window: u32, cells: u32, rows: &[u32]) -> Option<Outside> {
        if !(1..=MAX_WINDOW).contains(&window) {
            return Some(Outside::Window(u64::from(window)));
        }
        if !(MIN_CELLS..=MAX_CELLS).contains(&cells) {
            return Some(Outside::Cells(cells));
        }
        outside_of_schema(rows)
    }
}

impl fmt::Display for Outside {
    fn fmt<W: fmt::Write>(&self, f: &mut fmt::Formatter<W>) -> fmt::Result {
        match self {
            Outside::Window(window) => write!(
                f,
                "the window {window} is outside 1 to {MAX_WINDOW}"
            ),
            Outside::Cells(cells) => {
                write!(f, "{cells} cells are outside {MIN_CELLS} to {MAX_CELLS}")
            }
            Outside::Tables => write!(f, "the number of tables is outside 1 to {MAX_TABLES}"),
            Outside::Table(table) => write!(f, "table {table} has no rows"),
            Outside::Pages(pages) => write!(
                f,
                "the tables take {pages} pages of {ROWS_PER_PAGE} rows, over {MAX_PAGES}"
            ),
        }
    }
}
