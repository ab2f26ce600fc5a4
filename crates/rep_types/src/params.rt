//! A node's parameters.

ghost use Rattle.std.specs.Prelude.{◌≡◌, ◌≤◌, ◌<◌, length, nat_lt, IsTrue, Ok, Err, if◌then◌else◌};
ghost use Rattle.std.specs.List.{list_all};
ghost use Rattle.rep_types.specs.Settings.{pages_of, has_row};

use crate::key::Key;
use crate::limits::{MAX_CELLS, MAX_PAGES, MAX_TABLES, MAX_WINDOW, MIN_CELLS, ROWS_PER_PAGE};
use crate::refusal::Refusal;
use crate::value::Write;
use crate::window::WindowSize;
use crate::write_set::WriteSet;
use arrayvec::ArrayVec;
use std::marker::Model;

/// The tables of a database: 1 to 8, each of a fixed number of rows, from 1 on. A page holds 63
/// rows of one table, and all tables together take at most 4,096 pages.
#[derive(Debug, Drop, PartialEq, Eq)]
pub struct Schema {
    rows: ArrayVec<u32, MAX_TABLES>,
}

impl Model for Schema {
    ghost use Rattle.std.specs.Prelude.{ℕ, List, IsTrue};
    ghost use Rattle.rep_types.specs.Settings.{is_schema};

    ghost Value = { List ℕ };

    ghost view = { λ s. s.rows.items };

    ghost invariant = { λ s. IsTrue (is_schema s.rows.items) };

    ghost inverse = { λ rows. record { rows = record { items = rows } } };
}

/// How many pages the tables take, 63 rows in a page, each table its own.
fn pages_taken(rows: &[u32]) -> u64
    requires { length rows.now ≤ MAX_TABLES }
    ensures { result ≡ pages_of rows.now }
{
    rows.iter()
        .map(|count| u64::from(*count).div_ceil(u64::from(ROWS_PER_PAGE)))
        .sum()
}

fn has_rows(rows: &[u32]) -> bool
    ensures { result ≡ list_all (nat_lt 0) rows.now }
{
    rows.iter().all(|count| 0 < *count)
}

/// Whether the keys are all rows.
fn are_rows(schema: &Schema, keys: &[Key]) -> bool
    ensures { result ≡ list_all (has_row schema.now) keys.now }
{
    keys.iter().all(|key| schema.contains(*key))
}

/// Whether the writes are all of rows.
fn are_writes_of_rows(schema: &Schema, writes: &[Write]) -> bool
    ensures { result ≡ list_all (λ write. has_row schema.now write.key) writes.now }
{
    writes.iter().all(|write| schema.contains(write.key))
}

impl Schema {
    ghost use Rattle.rep_types.specs.Settings.{is_schema};
    ghost use Rattle.rep_types.specs.Transactions.{named};

    /// The schema whose tables have these numbers of rows.
    ///
    /// Refuses with `BadParams` no table or more than 8, a table without rows, and more than 4,096
    /// pages.
    pub fn new(rows: &[u32]) -> Result<Schema, Refusal>
        ensures { result ≡ (if is_schema rows.now then Ok rows.now else Err Refusal.BadParams) }
    {
        let Ok(kept) = ArrayVec::try_from(rows) else {
            return Err(Refusal::BadParams);
        };
        if rows.is_empty() || !has_rows(rows) || pages_taken(rows) > MAX_PAGES {
            return Err(Refusal::BadParams);
        }
        Ok(Schema { rows: kept })
    }

    /// The number of rows of each table.
    pub fn rows(&self) -> &[u32]
        ensures rows { result.now ≡ self.now }
        ensures limits { IsTrue (is_schema self.now) }
    {
        self.rows.as_slice()
    }

    /// The same schema once more.
    pub fn copied(&self) -> Schema
        ensures { result ≡ self.now }
    {
        match Schema::new(self.rows()) {
            Ok(copy) => copy,
            Err(_) => unreachable!(),
        }
    }

    /// How many pages the tables take.
    pub fn pages(&self) -> u64
        ensures { result ≡ pages_of self.now }
    {
        pages_taken(self.rows())
    }

    /// Whether the key names a row.
    pub fn contains(&self, key: Key) -> bool
        ensures { result ≡ has_row self.now key }
    {
        match self.rows.as_slice().get(key.table as usize) {
            Some(rows) => key.row < *rows,
            None => false,
        }
    }

    /// Whether every key that the item reads or writes names a row.
    #[tactic(auto, using(crate::proofs::Tests::tests))]
    pub fn contains_all(&self, item: &WriteSet) -> bool
        ensures { result ≡ list_all (has_row self.now) (named item.now) }
    {
        are_rows(self, item.reads()) && are_writes_of_rows(self, item.writes())
    }
}

/// A node's parameters: the window in seqnos (1 to 256), the number of log cells (4 to 1,024), and
/// the schema.
#[derive(Debug, Drop, PartialEq, Eq)]
pub struct Params {
    window: u32,
    cells: u32,
    schema: Schema,
}

impl Model for Params {
    ghost use Rattle.std.specs.Prelude.{IsTrue};
    ghost use Rattle.rep_types.specs.Settings.{Setting, setting, is_setting};

    ghost Value = { Setting };

    ghost view = { λ p. setting p.window p.cells p.schema };

    ghost invariant = { λ p. IsTrue (is_setting (setting p.window p.cells p.schema)) };

    ghost inverse = { λ p. record { window = p.window; cells = p.cells; schema = p.rows } };
}

impl Params {
    ghost use Rattle.rep_types.specs.Settings.{setting, allowed, is_setting};

    /// The parameters with a window of `w` seqnos, `n` log cells, and tables of these numbers of
    /// rows.
    ///
    /// Refuses with `BadParams` what is outside the limits.
    pub fn new(w: u32, n: u32, rows: &[u32]) -> Result<Params, Refusal>
        ensures { result ≡ allowed (setting w n rows.now) }
    {
        if w < 1 || w > MAX_WINDOW || n < MIN_CELLS || n > MAX_CELLS {
            return Err(Refusal::BadParams);
        }
        let schema = Schema::new(rows)?;
        Ok(Params {
            window: w,
            cells: n,
            schema,
        })
    }

    /// How many seqnos the window spans.
    pub fn window(&self) -> u32
        ensures window { result ≡ self.now.window }
        ensures limits { IsTrue (is_setting self.now) }
    {
        self.window
    }

    /// The size of the window until an item changes it.
    pub fn window_size(&self) -> WindowSize
        ensures { result ≡ self.now.window }
    {
        match WindowSize::new(u64::from(self.window())) {
            Ok(size) => size,
            Err(_) => unreachable!(),
        }
    }

    /// How many cells the log has.
    pub fn cells(&self) -> u32
        ensures cells { result ≡ self.now.cells }
        ensures limits { IsTrue (is_setting self.now) }
    {
        self.cells
    }

    /// The tables.
    pub fn schema(&self) -> &Schema
        ensures { result.now ≡ self.now.rows }
    {
        &self.schema
    }

    /// The same parameters once more.
    pub fn copied(&self) -> Params
        ensures { result ≡ self.now }
    {
        Params {
            window: self.window,
            cells: self.cells,
            schema: self.schema.copied(),
        }
    }
}
