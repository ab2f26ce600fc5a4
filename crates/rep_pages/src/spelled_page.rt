//! A page as the bytes that spell it.

ghost use Rattle.std.specs.Prelude.{◌≡◌, ◌≤◌, length, drop};
ghost use Rattle.rep_pages.specs.Rows.{row_at};
ghost use Rattle.rep_pages.specs.Spelled.{SpellRows, rows_in, page_in};

use crate::page::{HEAD, Page};
use crate::page_rows::PageRows;
use arrayvec::ArrayVec;
use rep_forms::{Form, ROW, push_rows};
use rep_layout::PAGE_BODY;
use rep_types::{Boxed, ROWS_PER_PAGE, Value};
use std::marker::Model;
use std::mem;

/// A page that was read, as the bytes that spell it. They stay where the device put them, on the heap, and a row is read
/// when it is asked for. In contracts it is the page.
#[derive(Drop)]
pub struct SpelledPage {
    number: u32,
    position: u64,
    bytes: Boxed<[u8; PAGE_BODY]>,
}

impl Model for SpelledPage {
    ghost use Rattle.rep_pages.specs.declared.page.Page.{Page};
    ghost use Rattle.rep_pages.specs.Spelled.{SpellRows, page_in};

    ghost Value = { Page };

    ghost view = { λ p. page_in p.number p.position p.bytes };

    ghost invariant = { λ p. SpellRows p.bytes };
}

/// The bytes behind so many.
fn behind(bytes: &[u8], count: usize) -> &[u8]
    requires { count ≤ length bytes.now }
    ensures { result.now ≡ drop count bytes.now }
{
    &bytes[count..]
}

/// The row at this place of the page that the bytes spell; None where it is absent, and from 63 on.
pub fn row_of_bytes(bytes: &[u8; PAGE_BODY], index: u32) -> Option<Value>
    requires { SpellRows bytes.now }
    ensures { result ≡ row_at (rows_in bytes.now) index }
{
    if index >= ROWS_PER_PAGE {
        return None;
    }
    let at = HEAD + ROW * index as usize;
    let Some((row, _)) = <Option<Value> as Form>::read(behind(bytes, at)) else {
        unreachable!()
    };
    row
}

impl SpelledPage {
    /// The page of this number, as it was written for this position, whose rows the bytes spell.
    pub fn new(number: u32, position: u64, bytes: Boxed<[u8; PAGE_BODY]>) -> SpelledPage
        requires { SpellRows bytes }
        ensures { result ≡ page_in number position bytes }
    {
        SpelledPage {
            number,
            position,
            bytes,
        }
    }

    /// Takes this page's place. `bytes` are then those of the page that goes: room for another one.
    pub fn replace(&mut self, number: u32, position: u64, bytes: &mut Boxed<[u8; PAGE_BODY]>)
        requires { SpellRows bytes.old }
        ensures { self.new ≡ page_in number position bytes.old }
    {
        self.number = number;
        self.position = position;
        mem::swap(&mut self.bytes, bytes);
    }

    /// Its bytes: room for another page.
    pub fn into_bytes(self) -> Boxed<[u8; PAGE_BODY]>
        ensures { rows_in result ≡ self.rows }
    {
        let SpelledPage { bytes, .. } = self;
        bytes
    }

    /// The position that it was written for.
    pub fn position(&self) -> u64
        ensures { result ≡ self.now.position }
    {
        self.position
    }

    /// What is stored in the row at this place; None where the row is absent, and from 63 on.
    pub fn row(&self, index: u32) -> Option<Value>
        ensures { result ≡ row_at self.now.rows index }
    {
        row_of_bytes(self.bytes.get(), index)
    }

    /// The page, with all its rows read.
    pub fn page(&self) -> Page
        ensures { result ≡ self.now }
    {
        let mut rows = ArrayVec::new();
        if !push_rows(&mut rows, behind(self.bytes.get(), HEAD)) {
            unreachable!()
        }
        Page {
            number: self.number,
            position: self.position,
            rows: PageRows::of(rows),
        }
    }
}
