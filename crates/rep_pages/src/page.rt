//! A page as bytes.

ghost use Rattle.std.specs.Prelude.{◌≡◌, ◌+◌, ◌<◌, ◌≤◌, ◌++◌, ◌^◌, ◌↔◌, ℕ, List, length, replicate, true, IfOk, IfErr, IfSome, IsSome, IsSomeAnd, OnOk, Some, Ok, None};
ghost use Rattle.rep_types.specs.declared.key.Key.{Key};
ghost use Rattle.rep_types.specs.declared.refusal.Part.TheVariants.{Pages};
ghost use Rattle.rep_pages.specs.Pages.{IsFirstRow, IsRowCount, EndWithTheTable, IsPage, IsPageBody, BeginsPage, front_bytes, head_form};
ghost use Rattle.rep_pages.specs.Spelled.{SpellRows, page_in};

use crate::page_rows::{COUNT, PageRows};
use arrayvec::ArrayVec;
use rep_forms::{
    Exact, Form, Put, are_rows, push_rows, put_bytes, put_u8, put_u16, put_u32, put_u64, put_zeros,
    read_front, read_part, read_u8, read_u16, read_u32, read_u64, strip_front,
};
use rep_layout::{PAGE_BODY, RowPlace, row_at};
use rep_types::{Key, MAX_PAGES, Part, ROWS_PER_PAGE, Refusal, Schema, Value};

/// The first eight bytes of the format.
const MARK: &[u8; 8] = b"REPPAGE1";

/// The number of bytes before the rows.
pub(crate) const HEAD: usize = 64;

/// The number of zeros behind the fields of the head.
const HEAD_ZEROS: usize = 40;

/// What a page begins with: its number, its first row, and the position that it was written for.
#[derive(Drop)]
pub(crate) struct Head {
    pub(crate) number: u16,
    pub(crate) first: Key,
    pub(crate) position: u64,
}

impl Form for Head {
    ghost use Rattle.rep_pages.specs.PagesLaws.{head_is_form};

    ghost form = { head_form };

    ghost most = { 64 };

    #[tactic(auto, unfolding(crate::specs::Pages::page_mark))]
    fn read(bytes: &[u8]) -> Option<(Head, &[u8])> {
        let (_, rest) = read_part(bytes, MARK.len())?;
        let (number, rest) = read_u16(rest)?;
        let (table, rest) = read_u8(rest)?;
        let (_, rest) = read_part(rest, 1)?;
        let (row, rest) = read_u32(rest)?;
        let (position, rest) = read_u64(rest)?;
        let (_, rest) = read_part(rest, HEAD_ZEROS)?;
        let head = Head {
            number,
            first: Key { table, row },
            position,
        };
        Some((head, rest))
    }

    ghost is_form = { head_is_form };
}

impl Head {
    /// Puts the mark, the number, the table and a zero: 12 bytes.
    #[tactic(auto, using(rep_forms::specs::FormLaws::sizes, rep_forms::specs::FormLaws::joined), unfolding(crate::specs::Pages::page_mark))]
    fn put_front<const N: usize>(&self, out: &mut ArrayVec<u8, N>)
        requires { length out.old.items + 12 ≤ N }
        ensures bytes { out.new.items ≡ out.old.items ++ front_bytes self.now }
        ensures size { length out.new.items ≡ length out.old.items + 12 }
        ensures number { self.now.number < 2 ^ 16 }
        ensures table { self.now.first.table < 2 ^ 8 }
    {
        put_bytes(out, MARK);
        put_u16(out, self.number);
        put_u8(out, self.first.table);
        put_zeros(out, 1);
    }
}

impl<const N: usize> Put<N> for Head {
    #[tactic(auto, using(rep_forms::specs::FormLaws::sizes, rep_forms::specs::FormLaws::joined))]
    fn put(&self, out: &mut ArrayVec<u8, N>) {
        self.put_front(out);
        put_u32(out, self.first.row);
        put_u64(out, self.position);
        put_zeros(out, HEAD_ZEROS);
    }
}

impl Exact for Head {
    fn strip<'a>(&self, bytes: &'a [u8]) -> Option<&'a [u8]> {
        let mut spelling: ArrayVec<u8, HEAD> = ArrayVec::new();
        self.put(&mut spelling);
        strip_front(bytes, spelling.as_slice())
    }
}

/// A page: 63 rows of a table, as they are at a position.
#[derive(Debug, Drop, PartialEq, Eq)]
pub struct Page {
    /// Its number, counted from 0 over all tables.
    pub number: u32,
    /// The position that it was written for.
    pub position: u64,
    /// Its rows.
    pub rows: PageRows,
}

/// The key of the page's first row, or None where the schema has no such page.
fn first_row(schema: &Schema, page: u32) -> Option<Key>
    ensures found { IfSome result (λ key. IsFirstRow schema.now page key) }
    ensures only { (key : Key) → IsFirstRow schema.now page key → result ≡ Some key }
    ensures few { IsSome result → page < MAX_PAGES }
{
    row_at(schema, RowPlace { page, index: 0 })
}

/// How many rows the schema has in the page of this number, up to 63: they lie at its first places.
fn row_count(schema: &Schema, page: u32) -> u32
    ensures { IsRowCount schema.now page result }
{
    let Some(first) = first_row(schema, page) else {
        return 0;
    };
    match schema.rows().get(usize::from(first.table)) {
        Some(rows) => rows.saturating_sub(first.row).min(ROWS_PER_PAGE),
        None => 0,
    }
}

/// Whether none of these 63 rows is there that the schema does not have in the page of this number.
fn end_with_the_table(schema: &Schema, page: u32, rows: &[Option<Value>]) -> bool
    requires { length rows.now ≡ 63 }
    ensures { (result ≡ true) ↔ EndWithTheTable schema.now page rows.now }
{
    for index in row_count(schema, page) as usize..rows.len() {
        if rows[index].is_some() {
            return false;
        }
    }
    true
}

impl PageRows {
    /// Whether no row is there that the schema does not have in the page of this number.
    pub fn end_with_the_table(&self, schema: &Schema, page: u32) -> bool
        ensures { (result ≡ true) ↔ EndWithTheTable schema.now page self.now }
    {
        end_with_the_table(schema, page, self.as_slice())
    }
}

/// The position that the page of this number was written for, which is not above the latest one, and the bytes of its rows.
fn read_head<'a>(
    schema: &Schema,
    number: u32,
    latest: u64,
    bytes: &'a [u8],
) -> Option<(u64, &'a [u8])>
    ensures found { IfSome result (λ x. (x.0 ≤ latest) × BeginsPage schema.now number x.0 bytes.now x.1.now) }
    ensures only { (position : ℕ) (body : List ℕ) → position ≤ latest → BeginsPage schema.now number position bytes.now body → IsSomeAnd result (λ x. (x.0 ≡ position) × (x.1.now ≡ body)) }
{
    let (head, body) = read_front::<Head>(bytes)?;
    let first = first_row(schema, number)?;
    if u32::from(head.number) != number || head.first != first || head.position > latest {
        return None;
    }
    Some((head.position, body))
}

/// The position that the page of this number was written for, which is not above the latest one, where all of the bytes are the
/// page.
fn position_in(schema: &Schema, number: u32, latest: u64, bytes: &[u8]) -> Option<u64>
    ensures found { IfSome result (λ position. (position ≤ latest) × IsPageBody schema.now (page_in number position bytes.now) bytes.now) }
    ensures only { (page : Page) → IsPageBody schema.now page bytes.now → page.number ≡ number → page.position ≤ latest → (result ≡ Some page.position) × (page_in number page.position bytes.now ≡ page) }
{
    let (position, body) = read_head(schema, number, latest, bytes)?;
    if !are_rows::<COUNT>(body, row_count(schema, number) as usize) {
        return None;
    }
    Some(position)
}

impl Page {
    /// The page of this number before anything was written: all its rows are absent.
    pub fn absent(number: u32) -> Page
        ensures number { result.number ≡ number }
        ensures position { result.position ≡ 0 }
        ensures rows { result.rows ≡ replicate 63 None }
    {
        Page {
            number,
            position: 0,
            rows: PageRows::absent(),
        }
    }

    /// The bytes of the page, 4,096; None where the schema has no page of its number, or a row is there
    /// that its table does not have.
    #[tactic(auto, using(rep_forms::specs::FormLaws::sizes, rep_forms::specs::FormLaws::joined))]
    pub fn write_body(&self, schema: &Schema) -> Option<ArrayVec<u8, PAGE_BODY>>
        ensures some { IsSome result ↔ ((first : Key) × IsPage schema.now first self.now) }
        // What is written is of the form: so it is read again.
        ensures bytes { IfSome result (λ b. IsPageBody schema.now self.now b.items) }
        ensures size { IfSome result (λ b. length b.items ≡ PAGE_BODY) }
    {
        let first = first_row(schema, self.number)?;
        if !self.rows.end_with_the_table(schema, self.number) {
            return None;
        }
        let head = Head {
            number: self.number as u16,
            first,
            position: self.position,
        };
        let mut out = ArrayVec::new();
        head.put(&mut out);
        self.rows.put(&mut out);
        Some(out)
    }

    /// Reads the page of this number, which all of the bytes are, and which was written for a position
    /// that is not above the latest one.
    ///
    /// Refuses with `Corrupt`, the part being the pages, what is not of the form: 4,096 bytes, which are
    /// `REPPAGE1`; the number in 2 bytes; the table in 1; a zero; the table's row that is the first of
    /// the page in 4; the position in 8; zeros up to 64; and 63 rows of 64 bytes, each 1 and the length
    /// of its value in 1 byte each, the value and zeros, or 64 zeros where the row is absent or past the
    /// end of the table. The highest byte of a number stands first.
    pub fn read_body(
        schema: &Schema,
        number: u32,
        latest: u64,
        bytes: &[u8],
    ) -> Result<Page, Refusal>
        // What is read is spelled so.
        ensures found { IfOk result (λ page. IsPageBody schema.now page bytes.now × (page.number ≡ number) × (page.position ≤ latest)) }
        // What is spelled so is read.
        ensures only { (page : Page) → IsPageBody schema.now page bytes.now → page.number ≡ number → page.position ≤ latest → result ≡ Ok page }
        // Anything else is refused.
        ensures refused { IfErr result (λ e. e ≡ Refusal.Corrupt Pages) }
    {
        let corrupt = Refusal::Corrupt { part: Part::Pages };
        let Some((position, body)) = read_head(schema, number, latest, bytes) else {
            return Err(corrupt);
        };
        // The rows are read where they stay: a page has some five kilobytes, which are moved once.
        let mut rows = ArrayVec::new();
        if !push_rows(&mut rows, body) || !end_with_the_table(schema, number, rows.as_slice()) {
            return Err(corrupt);
        }
        Ok(Page {
            number,
            position,
            rows: PageRows::of(rows),
        })
    }

    /// The position that the page in the bytes was written for, for whoever keeps the bytes as they are (`SpelledPage`). It refuses what
    /// `read_body` does, and as that does, in a third of the time.
    pub fn position_in(
        schema: &Schema,
        number: u32,
        latest: u64,
        bytes: &[u8],
    ) -> Result<u64, Refusal>
        // Where it passes, the bytes spell the page that is in them.
        ensures found { IfOk result (λ position. IsPageBody schema.now (page_in number position bytes.now) bytes.now × SpellRows bytes.now × (position ≤ latest)) }
        // Where a page is spelled so, it is that one.
        ensures only { (page : Page) → IsPageBody schema.now page bytes.now → page.number ≡ number → page.position ≤ latest → (result ≡ Ok page.position) × (page_in number page.position bytes.now ≡ page) }
        // Anything else is refused.
        ensures refused { IfErr result (λ e. e ≡ Refusal.Corrupt Pages) }
    {
        match position_in(schema, number, latest, bytes) {
            Some(position) => Ok(position),
            None => Err(Refusal::Corrupt { part: Part::Pages }),
        }
    }

    /// Whether `read_body` reads a page in the bytes, for whoever wants none of its rows, as an opening, which looks at each
    /// page once: it keeps nothing, and takes a third of the time. It refuses what `read_body` does, and as that does.
    pub fn check_body(
        schema: &Schema,
        number: u32,
        latest: u64,
        bytes: &[u8],
    ) -> Result<(), Refusal>
        // Where it passes, a page is spelled so.
        ensures found { OnOk result ((page : Page) × IsPageBody schema.now page bytes.now × (page.number ≡ number) × (page.position ≤ latest)) }
        // Where a page is spelled so, it passes.
        ensures only { (page : Page) → IsPageBody schema.now page bytes.now → page.number ≡ number → page.position ≤ latest → result ≡ Ok tt }
        // Anything else is refused.
        ensures refused { IfErr result (λ e. e ≡ Refusal.Corrupt Pages) }
    {
        if position_in(schema, number, latest, bytes).is_none() {
            return Err(Refusal::Corrupt { part: Part::Pages });
        }
        Ok(())
    }
}
