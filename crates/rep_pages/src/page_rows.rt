//! The rows of a page.

ghost use Rattle.std.specs.Prelude.{◌≡◌, length, replicate, None, option_map};
ghost use Rattle.rep_pages.specs.Rows.{row_at, rows_form};

use arrayvec::ArrayVec;
use rep_forms::{Exact, Form, Put, ROW, put_run, read_run, rows_have_one_size, strip_front};
use rep_types::{ROWS_PER_PAGE, Value};
use std::marker::Model;

/// The rows of a page, as the length of a list.
pub(crate) const COUNT: usize = ROWS_PER_PAGE as usize;

/// The number of bytes of the rows of a page.
const ROWS: usize = ROW * COUNT;

/// The 63 rows of a page, by their places: what is stored there, or `None` where the row is absent.
/// They have 4,032 bytes, one row behind another.
#[derive(Debug, Drop, PartialEq, Eq)]
pub struct PageRows {
    rows: ArrayVec<Option<Value>, COUNT>,
}

impl Model for PageRows {
    ghost use Rattle.std.specs.Prelude.{◌≡◌, length};
    ghost use Rattle.rep_pages.specs.Rows.{Rows};

    ghost Value = { Rows };

    ghost view = { λ r. r.rows.items };

    ghost invariant = { λ r. length r.rows.items ≡ 63 };

    ghost inverse = { λ rows. record { rows = record { items = rows } } };
}

impl PageRows {
    /// All rows absent, as they are before anything was written.
    pub fn absent() -> PageRows
        ensures { result ≡ replicate 63 None }
    {
        let mut rows = ArrayVec::new();
        for _ in 0..COUNT {
            rows.push(None);
        }
        PageRows { rows }
    }

    /// The page of these rows.
    pub(crate) fn of(rows: ArrayVec<Option<Value>, COUNT>) -> PageRows
        requires { length rows.items ≡ 63 }
        ensures { result ≡ rows.items }
    {
        PageRows { rows }
    }

    /// The rows by their places, each as `row` gives it.
    pub(crate) fn as_slice(&self) -> &[Option<Value>]
        ensures rows { result.now ≡ self.now }
        ensures size { length result.now ≡ 63 }
    {
        self.rows.as_slice()
    }

    /// What is stored in the row at this place; None where the row is absent, and from 63 on.
    pub fn row(&self, index: u32) -> Option<&Value>
        ensures row { option_map (λ value. value.now) result ≡ row_at self.now index }
        // What holds of every page's rows.
        ensures size { length self.now ≡ 63 }
    {
        match self.rows.get(index as usize) {
            Some(row) => row.as_ref(),
            None => None,
        }
    }
}

impl Form for PageRows {
    ghost use Rattle.rep_pages.specs.RowsLaws.{rows_are_form};

    ghost form = { rows_form };

    ghost most = { 4032 };

    fn read(bytes: &[u8]) -> Option<(PageRows, &[u8])> {
        let (rows, rest) = read_run::<Option<Value>, COUNT>(bytes, COUNT)?;
        Some((PageRows { rows }, rest))
    }

    ghost is_form = { rows_are_form };
}

impl<const N: usize> Put<N> for PageRows {
    fn put(&self, out: &mut ArrayVec<u8, N>) {
        rows_have_one_size();
        put_run(out, self.rows.as_slice());
    }
}

impl Exact for PageRows {
    fn strip<'a>(&self, bytes: &'a [u8]) -> Option<&'a [u8]> {
        let mut spelling: ArrayVec<u8, ROWS> = ArrayVec::new();
        self.put(&mut spelling);
        strip_front(bytes, spelling.as_slice())
    }
}
