//! The rows of a page as bytes.

ghost use Rattle.std.specs.Prelude.{◌≡◌, ◌<◌, ◌↔◌, ℕ, List, [], length, true, Option};
ghost use Rattle.rep_forms.specs.Forms.{many, TakesAll};
ghost use Rattle.rep_forms.specs.Rows.{row_form, row_bytes, RowFits, IsSpelledRow, AreRows, PushesRow, RowsHaveOneSize};

use crate::form::{Exact, Form, Put};
use crate::numbers::{
    are_few_blank, put_bytes, put_u8, put_zeros, read_part, read_u8, strip_front,
};
use arrayvec::ArrayVec;
use rep_types::{MAX_VALUE, Value};

/// The number of bytes of a row: 2, and the longest value.
pub const ROW: usize = 64;

/// A row of a page: its value, or `None` where the row is absent. It has 64 bytes: 1 and the length of
/// the value in 1 byte each, the value, and zeros; or 64 zeros. The rows of a page are 63 of them, by
/// `put_run` and `read_run`.
impl Form for Option<Value> {
    ghost use Rattle.rep_forms.specs.RowLaws.{row_is_form};

    ghost form = { row_form };

    ghost most = { 64 };

    fn read(bytes: &[u8]) -> Option<(Option<Value>, &[u8])> {
        let (present, rest) = read_u8(bytes)?;
        let (size, rest) = read_u8(rest)?;
        let size = usize::from(size);
        let (part, rest) = read_part(rest, size)?;
        let (_, rest) = read_part(rest, MAX_VALUE.saturating_sub(size))?;
        if present == 0 {
            return Some((None, rest));
        }
        let value = Value::new(part).ok()?;
        Some((Some(value), rest))
    }

    ghost is_form = { row_is_form };
}

impl<const N: usize> Put<N> for Option<Value> {
    #[tactic(auto, using(crate::specs::FormLaws::sizes, crate::specs::FormLaws::joined))]
    fn put(&self, out: &mut ArrayVec<u8, N>) {
        match self {
            None => put_zeros(out, ROW),
            Some(value) => {
                let bytes = value.as_bytes();
                put_u8(out, 1);
                put_u8(out, bytes.len() as u8);
                put_bytes(out, bytes);
                put_zeros(out, MAX_VALUE - bytes.len());
            }
        }
    }
}

impl Exact for Option<Value> {
    fn strip<'a>(&self, bytes: &'a [u8]) -> Option<&'a [u8]> {
        let mut spelling: ArrayVec<u8, ROW> = ArrayVec::new();
        self.put(&mut spelling);
        strip_front(bytes, spelling.as_slice())
    }
}

/// Reads the row that the bytes are, and puts it behind others; whether they are one. `rows` has room for it.
/// It looks at each byte once: what `read` takes and `strip` compares is one here.
#[inline]
fn push_row<const N: usize>(rows: &mut ArrayVec<Option<Value>, N>, bytes: &[u8; ROW]) -> bool
    requires { length rows.old.items < N }
    ensures found { result ≡ true → PushesRow bytes.now rows.old.items rows.new.items }
    ensures only { (row : Option (List ℕ)) → RowFits row → bytes.now ≡ row_bytes row → result ≡ true }
{
    if bytes[0] == 0 {
        rows.push(None);
        return are_few_blank(bytes);
    }
    let size = usize::from(bytes[1]);
    if bytes[0] != 1 || size > MAX_VALUE {
        return false;
    }
    let (part, zeros) = bytes[2..].split_at(size);
    let Ok(value) = Value::new(part) else {
        unreachable!()
    };
    rows.push(Some(value));
    are_few_blank(zeros)
}

/// Reads the rows that all of the bytes are, `N` of them, one behind another, and puts them where none is yet; whether the bytes
/// are that.
pub fn push_rows<const N: usize>(rows: &mut ArrayVec<Option<Value>, N>, bytes: &[u8]) -> bool
    requires { rows.old.items ≡ [] }
    // What is read is spelled so, and what is spelled so is read.
    ensures { TakesAll (many N N row_form) bytes.now result rows.new.items }
{
    let mut rest = bytes;
    for _ in 0..N {
        let Some((row, behind)) = rest.split_first_chunk::<ROW>() else {
            return false;
        };
        if !push_row(rows, row) {
            return false;
        }
        rest = behind;
    }
    rest.is_empty()
}

/// Whether the bytes are a row, as `push_row` reads it.
#[inline]
fn is_row(bytes: &[u8; ROW]) -> bool
    ensures found { result ≡ true → IsSpelledRow bytes.now }
    ensures only { (row : Option (List ℕ)) → RowFits row → bytes.now ≡ row_bytes row → result ≡ true }
{
    if bytes[0] == 0 {
        return are_few_blank(bytes);
    }
    let size = usize::from(bytes[1]);
    if bytes[0] != 1 || size > MAX_VALUE {
        return false;
    }
    let (_, zeros) = bytes[2..].split_at(size);
    are_few_blank(zeros)
}

/// Whether all of the bytes are rows, `N` of them, one behind another, and each from this place on is absent. It says of bytes what
/// `push_rows` and a look at its rows do, and keeps none.
pub fn are_rows<const N: usize>(bytes: &[u8], present: usize) -> bool
    ensures { (result ≡ true) ↔ AreRows N present bytes.now }
{
    let mut rest = bytes;
    for index in 0..N {
        let Some((row, behind)) = rest.split_first_chunk::<ROW>() else {
            return false;
        };
        if !is_row(row) {
            return false;
        }
        if present <= index && row[0] != 0 {
            return false;
        }
        rest = behind;
    }
    rest.is_empty()
}

/// Each row has 64 bytes, and so have rows one after another.
pub fn rows_have_one_size()
    ensures { RowsHaveOneSize }
{}
