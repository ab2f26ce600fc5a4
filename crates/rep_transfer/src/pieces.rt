//! The pieces that a transfer is read in.

ghost use Rattle.std.specs.Prelude.{◌≡◌, ◌+◌, ◌-◌, ◌<◌, ◌^◌, ℕ, List, length};
ghost use Rattle.rep_forms.specs.Forms.{Form as form_of, byte, number};
ghost use Rattle.rep_forms.specs.Entries.{entry_form};
ghost use Rattle.rep_record.specs.Records.{record_form};
ghost use Rattle.rep_transfer.specs.Haves.{header_form};
ghost use Rattle.rep_transfer.specs.Pieces.{IsPaced, IsWhole, no_more, more_of_entry, more_of_record, page_form};

use crate::header::{HEADER, Header};
use arrayvec::ArrayVec;
use rep_forms::{Exact, Form, Put, put_u16, read_front, read_u16, strip_front};
use rep_pages::PageRows;
use rep_record::read_record;
use rep_types::{Entry, Judged};

/// The number of bytes of the longest piece, a page: its number, and 64 for each of its rows.
pub const PIECE: usize = 4_034;

/// A piece of a transfer: its first bytes, so many of them, tell how many more there are.
pub trait Piece: Sized + Drop {
    /// Its form.
    ghost piece: { form_of Self };

    /// How many bytes tell how many more there are.
    const HEAD: usize;

    ghost HEAD: { ℕ };

    /// And how many more that is.
    ghost more: { List ℕ → ℕ } = { no_more };

    /// How many more there are, where these are the first.
    fn more_size(first: &[u8]) -> usize
        requires { length first.now ≡ HEAD }
        ensures size { result ≡ more first.now }
        ensures small { result < 2 ^ 16 };

    /// The value that all of the bytes spell.
    fn of(bytes: &[u8]) -> Option<Self>
        ensures { IsWhole piece bytes.now result };

    ghost is_paced: { IsPaced piece HEAD more };
}

/// The value that all of the bytes spell.
fn whole<T: Exact>(bytes: &[u8]) -> Option<T>
    ensures { IsWhole T.form bytes.now result }
{
    let (value, rest) = read_front::<T>(bytes)?;
    if rest.is_empty() { Some(value) } else { None }
}

/// A page of a snapshot: its number, counted from 0 over all tables, and its rows.
#[derive(Debug, Drop, PartialEq, Eq)]
pub struct NumberedPage {
    /// Its number.
    pub number: u16,
    /// Its rows.
    pub rows: PageRows,
}

impl Form for NumberedPage {
    ghost use Rattle.rep_transfer.specs.TransferLaws.{page_is_form};

    ghost form = { page_form };

    ghost most = { 4034 };

    fn read(bytes: &[u8]) -> Option<(NumberedPage, &[u8])> {
        let (number, rest) = read_u16(bytes)?;
        let (rows, rest) = PageRows::read(rest)?;
        Some((NumberedPage { number, rows }, rest))
    }

    ghost is_form = { page_is_form };
}

impl<const N: usize> Put<N> for NumberedPage {
    #[tactic(auto, using(rep_forms::specs::FormLaws::sizes, rep_forms::specs::FormLaws::joined))]
    fn put(&self, out: &mut ArrayVec<u8, N>) {
        put_u16(out, self.number);
        self.rows.put(out);
    }
}

impl Exact for NumberedPage {
    fn strip<'a>(&self, bytes: &'a [u8]) -> Option<&'a [u8]> {
        let mut spelling: ArrayVec<u8, PIECE> = ArrayVec::new();
        self.put(&mut spelling);
        strip_front(bytes, spelling.as_slice())
    }
}

/// A letter, which tells what part comes.
impl Piece for u8 {
    ghost use Rattle.rep_transfer.specs.PieceLaws.{letter_is_paced};

    ghost piece = { byte };

    const HEAD: usize = 1;

    ghost HEAD = { 1 };

    fn more_size(_first: &[u8]) -> usize {
        0
    }

    fn of(bytes: &[u8]) -> Option<u8> {
        match bytes {
            [letter] => Some(*letter),
            _ => None,
        }
    }

    ghost is_paced = { letter_is_paced };
}

/// The size of a window, or how many entries or pages come, in 2 bytes.
impl Piece for u16 {
    ghost use Rattle.rep_transfer.specs.PieceLaws.{count_is_paced};

    ghost piece = { number 2 };

    const HEAD: usize = 2;

    ghost HEAD = { 2 };

    fn more_size(_first: &[u8]) -> usize {
        0
    }

    fn of(bytes: &[u8]) -> Option<u16> {
        Some(u16::from_be_bytes(bytes.try_into().ok()?))
    }

    ghost is_paced = { count_is_paced };
}

/// The position of a snapshot or of the end, or the floor of a window, in 8 bytes.
impl Piece for u64 {
    ghost use Rattle.rep_transfer.specs.PieceLaws.{position_is_paced};

    ghost piece = { number 8 };

    const HEAD: usize = 8;

    ghost HEAD = { 8 };

    fn more_size(_first: &[u8]) -> usize {
        0
    }

    fn of(bytes: &[u8]) -> Option<u64> {
        Some(u64::from_be_bytes(bytes.try_into().ok()?))
    }

    ghost is_paced = { position_is_paced };
}

impl Piece for Header {
    ghost use Rattle.rep_transfer.specs.PieceLaws.{header_is_paced};

    ghost piece = { header_form };

    const HEAD: usize = HEADER;

    ghost HEAD = { 59 };

    fn more_size(_first: &[u8]) -> usize {
        0
    }

    fn of(bytes: &[u8]) -> Option<Header> {
        whole::<Header>(bytes)
    }

    ghost is_paced = { header_is_paced };
}

/// An entry of a window: its seqno and the number of its keys tell how long it is.
impl Piece for Entry {
    ghost use Rattle.rep_transfer.specs.PieceLaws.{entry_is_paced};

    ghost piece = { entry_form };

    const HEAD: usize = 9;

    ghost HEAD = { 9 };

    ghost more = { more_of_entry };

    #[tactic(auto, unfolding(crate::specs::Pieces::more_of_entry))]
    fn more_size(first: &[u8]) -> usize {
        5 * usize::from(first[8])
    }

    fn of(bytes: &[u8]) -> Option<Entry> {
        whole::<Entry>(bytes)
    }

    ghost is_paced = { entry_is_paced };
}

impl Piece for NumberedPage {
    ghost use Rattle.rep_transfer.specs.PieceLaws.{page_is_paced};

    ghost piece = { page_form };

    const HEAD: usize = PIECE;

    ghost HEAD = { 4034 };

    fn more_size(_first: &[u8]) -> usize {
        0
    }

    fn of(bytes: &[u8]) -> Option<NumberedPage> {
        whole::<NumberedPage>(bytes)
    }

    ghost is_paced = { page_is_paced };
}

/// A record, as a log has it: its first two bytes say how long it is.
impl Piece for Judged {
    ghost use Rattle.rep_transfer.specs.PieceLaws.{record_is_paced};

    ghost piece = { record_form };

    const HEAD: usize = 2;

    ghost HEAD = { 2 };

    ghost more = { more_of_record };

    #[tactic(auto, unfolding(crate::specs::Pieces::more_of_record, rep_forms::specs::Forms::part))]
    fn more_size(first: &[u8]) -> usize {
        match read_u16(first) {
            Some((size, _)) => usize::from(size).saturating_sub(2),
            None => 0,
        }
    }

    fn of(bytes: &[u8]) -> Option<Judged> {
        match read_record(bytes) {
            Ok((judged, size)) if size == bytes.len() => Some(judged),
            _ => None,
        }
    }

    ghost is_paced = { record_is_paced };
}
