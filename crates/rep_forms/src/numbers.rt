//! Numbers and bytes.

ghost use Rattle.std.specs.Prelude.{◌≡◌, ◌+◌, ◌≤◌, ◌++◌, length, take, option_map, IfSome, ◌*◌};
ghost use Rattle.rep_forms.specs.Forms.{Puts, Strips, number, byte, part, part_of, first_byte, zeros, are_blank};

use crate::form::{Form, Put};
use arrayvec::ArrayVec;
use byteorder::{BigEndian, ByteOrder};

/// So many bytes, and those behind them; None where there are fewer.
#[tactic(auto, unfolding(crate::specs::Forms::part))]
pub fn read_part(bytes: &[u8], size: usize) -> Option<(&[u8], &[u8])>
    ensures part { option_map (λ x. (x.0.now, x.1.now)) result ≡ part size bytes.now }
    ensures size { IfSome result (λ x. length x.0.now ≡ size) }
{
    if bytes.len() < size {
        return None;
    }
    Some(bytes.split_at(size))
}

/// One byte, and those behind it.
#[tactic(auto, unfolding(crate::specs::Forms::first_byte))]
pub fn read_u8(bytes: &[u8]) -> Option<(u8, &[u8])>
    ensures { option_map (λ x. (x.0, x.1.now)) result ≡ byte.read bytes.now }
{
    match bytes {
        [byte, rest @ ..] => Some((*byte, rest)),
        [] => None,
    }
}

/// The number that the first 2 bytes spell, the highest first, and the bytes behind it.
#[tactic(auto, unfolding(crate::specs::Forms::number_in, crate::specs::Forms::part))]
pub fn read_u16(bytes: &[u8]) -> Option<(u16, &[u8])>
    ensures { option_map (λ x. (x.0, x.1.now)) result ≡ (number 2).read bytes.now }
{
    let (part, rest) = read_part(bytes, 2)?;
    Some((BigEndian::read_u16(part), rest))
}

/// The number that the first 4 bytes spell, the highest first, and the bytes behind it.
#[tactic(auto, unfolding(crate::specs::Forms::number_in, crate::specs::Forms::part))]
pub fn read_u32(bytes: &[u8]) -> Option<(u32, &[u8])>
    ensures { option_map (λ x. (x.0, x.1.now)) result ≡ (number 4).read bytes.now }
{
    let (part, rest) = read_part(bytes, 4)?;
    Some((BigEndian::read_u32(part), rest))
}

/// The number that the first 8 bytes spell, the highest first, and the bytes behind it.
#[tactic(auto, unfolding(crate::specs::Forms::number_in, crate::specs::Forms::part))]
pub fn read_u64(bytes: &[u8]) -> Option<(u64, &[u8])>
    ensures { option_map (λ x. (x.0, x.1.now)) result ≡ (number 8).read bytes.now }
{
    let (part, rest) = read_part(bytes, 8)?;
    Some((BigEndian::read_u64(part), rest))
}

/// Whether the first 8 bytes are zero: the number that they spell is.
#[tactic(auto, using(crate::proofs::Blanks::word_blank))]
fn is_word_blank(bytes: &[u8]) -> bool
    requires { 8 ≤ length bytes.now }
    ensures { result ≡ are_blank (take 8 bytes.now) }
{
    BigEndian::read_u64(bytes) == 0
}

/// Whether the first 16 bytes are zero.
#[tactic(auto, using(crate::proofs::Blanks::pair_blank))]
fn is_pair_blank(bytes: &[u8]) -> bool
    requires { 16 ≤ length bytes.now }
    ensures { result ≡ are_blank (take 16 bytes.now) }
{
    is_word_blank(bytes) & is_word_blank(&bytes[8..])
}

/// Whether the first 32 bytes are zero.
#[tactic(auto, using(crate::proofs::Blanks::pair_blank))]
fn is_block_blank(bytes: &[u8]) -> bool
    requires { 32 ≤ length bytes.now }
    ensures { result ≡ are_blank (take 32 bytes.now) }
{
    is_pair_blank(bytes) & is_pair_blank(&bytes[16..])
}

/// Whether all of at most 64 bytes are zero. The words at the front and those at the end, which may overlap, are
/// all of them.
#[tactic(auto, using(crate::proofs::Blanks::ends_blank))]
pub(crate) fn are_few_blank(bytes: &[u8]) -> bool
    requires { length bytes.now ≤ 64 }
    ensures { result ≡ are_blank bytes.now }
{
    let size = bytes.len();
    if size >= 32 {
        return is_block_blank(bytes) & is_block_blank(&bytes[size - 32..]);
    }
    if size >= 16 {
        return is_pair_blank(bytes) & is_pair_blank(&bytes[size - 16..]);
    }
    if size >= 8 {
        return is_word_blank(bytes) & is_word_blank(&bytes[size - 8..]);
    }
    bytes.iter().all(|byte| *byte == 0)
}

/// Whether all of the bytes are zero, as those behind the last field of a form; true of no bytes.
pub fn are_blank(bytes: &[u8]) -> bool
    ensures { result ≡ are_blank bytes.now }
{
    let mut rest = bytes;
    for _ in 0..bytes.len() / BLANK {
        let (block, after) = rest.split_at(BLANK);
        if !are_few_blank(block) {
            return false;
        }
        rest = after;
    }
    are_few_blank(rest)
}

/// Puts the bytes at the end. `out` has room for them: whoever calls keeps within the length that the
/// form has.
pub fn put_bytes<const N: usize>(out: &mut ArrayVec<u8, N>, bytes: &[u8])
    requires { length out.old.items + length bytes.now ≤ N }
    ensures { Puts (part_of (length bytes.now)) bytes.now out.old.items out.new.items }
{
    let fitted = out.try_extend_from_slice(bytes);
    prove!(fitted.is_ok());
    let _ = fitted;
}

/// Puts a byte at the end. `out` has room for it.
pub fn put_u8<const N: usize>(out: &mut ArrayVec<u8, N>, number: u8)
    requires { length out.old.items + 1 ≤ N }
    ensures { Puts byte number out.old.items out.new.items }
{
    out.push(number);
}

/// Puts a number at the end as 2 bytes, the highest first. `out` has room for them.
#[tactic(auto, unfolding(crate::specs::Forms::number_bytes))]
pub fn put_u16<const N: usize>(out: &mut ArrayVec<u8, N>, value: u16)
    requires { length out.old.items + 2 ≤ N }
    ensures { Puts (number 2) value out.old.items out.new.items }
{
    let mut bytes = [0; 2];
    BigEndian::write_u16(&mut bytes, value);
    put_bytes(out, &bytes);
}

/// Puts a number at the end as 4 bytes, the highest first. `out` has room for them.
#[tactic(auto, unfolding(crate::specs::Forms::number_bytes))]
pub fn put_u32<const N: usize>(out: &mut ArrayVec<u8, N>, value: u32)
    requires { length out.old.items + 4 ≤ N }
    ensures { Puts (number 4) value out.old.items out.new.items }
{
    let mut bytes = [0; 4];
    BigEndian::write_u32(&mut bytes, value);
    put_bytes(out, &bytes);
}

/// Puts a number at the end as 8 bytes, the highest first. `out` has room for them.
#[tactic(auto, unfolding(crate::specs::Forms::number_bytes))]
pub fn put_u64<const N: usize>(out: &mut ArrayVec<u8, N>, value: u64)
    requires { length out.old.items + 8 ≤ N }
    ensures { Puts (number 8) value out.old.items out.new.items }
{
    let mut bytes = [0; 8];
    BigEndian::write_u64(&mut bytes, value);
    put_bytes(out, &bytes);
}

/// How many zeros are put at a time, and how many are looked at.
const BLANK: usize = 64;

/// Puts so many times 64 zeros at the end. `out` has room for them.
#[tactic(auto, using(crate::proofs::Putting::blanks_so_far))]
fn put_blanks<const N: usize>(out: &mut ArrayVec<u8, N>, count: usize)
    requires { length out.old.items + 64 * count ≤ N }
    ensures { out.new.items ≡ out.old.items ++ zeros (64 * count) }
{
    for _ in 0..count {
        put_bytes(out, &[0; BLANK]);
    }
}

/// Puts so many zeros at the end. `out` has room for them.
#[tactic(auto, using(crate::proofs::Putting::blanks_and_zeros))]
pub fn put_zeros<const N: usize>(out: &mut ArrayVec<u8, N>, count: usize)
    requires { length out.old.items + count ≤ N }
    ensures { out.new.items ≡ out.old.items ++ zeros count }
{
    put_blanks(out, count / BLANK);
    put_bytes(out, &[0; BLANK][..count % BLANK]);
}

/// What stands behind this front, where the bytes begin with it.
pub fn strip_front<'a>(bytes: &'a [u8], front: &[u8]) -> Option<&'a [u8]>
    ensures { Strips front.now bytes.now (option_map (λ rest. rest.now) result) }
{
    if !bytes.starts_with(front) {
        return None;
    }
    Some(&bytes[front.len()..])
}

/// A number of 4 bytes, as the rows of a table.
impl Form for u32 {
    ghost use Rattle.rep_forms.specs.FormLaws.{number_is_form};

    ghost form = { number 4 };

    ghost most = { 4 };

    fn read(bytes: &[u8]) -> Option<(u32, &[u8])> {
        read_u32(bytes)
    }

    ghost is_form = { number_is_form 4 };
}

impl<const N: usize> Put<N> for u32 {
    #[tactic(auto, using(crate::specs::FormLaws::sizes))]
    fn put(&self, out: &mut ArrayVec<u8, N>) {
        put_u32(out, *self);
    }
}
