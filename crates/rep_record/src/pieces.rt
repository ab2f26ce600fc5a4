//! The pieces of a line, each of which is one word.

ghost use Rattle.std.specs.Prelude.{◌≡◌, ◌^◌, nat_le, nat_lt, length, take};
ghost use Rattle.std.specs.Option.{option_map};
ghost use Rattle.rep_record.specs.Words.{cut};
ghost use Rattle.rep_record.specs.Reading.{given, number_in, key_in, label_in, byte_in, hex_in, put_in, deleted_in, write_in};
ghost use Rattle.rep_record.specs.Drafts.{drafted_write};

use crate::few::keep;
use crate::words::place_of;
use arrayvec::ArrayVec;
use rep_types::{Key, Value, Write, read_number};

/// The number that the digits write, where it is below 2^32.
#[tactic(auto, using(crate::proofs::Values::number_32))]
pub(crate) fn read_u32(word: &[u8]) -> Option<u32>
    ensures { result ≡ number_in (2 ^ 32) word.now }
{
    u32::try_from(read_number(word)?).ok()
}

/// The number that the digits write, where it is below 2^8.
#[tactic(auto, using(crate::proofs::Values::number_8))]
fn read_u8(word: &[u8]) -> Option<u8>
    ensures { result ≡ number_in (2 ^ 8) word.now }
{
    u8::try_from(read_number(word)?).ok()
}

/// What stands before the first byte that is the mark, and what stands behind it.
#[tactic(auto, using(std::proofs::lemmas::List::take_rest), unfolding(crate::specs::Words::cut))]
pub fn cut_at(word: &[u8], mark: u8) -> Option<(&[u8], &[u8])>
    ensures { option_map (λ parts. (parts.0.now, parts.1.now)) result ≡ cut mark word.now }
{
    let at = place_of(mark, word)?;
    Some((&word[..at], &word[at + 1..]))
}

/// The key that the word is: `table/row`, a table from 0 to 255 and a row from 0 to 2^32 - 1.
#[tactic(auto, unfolding(crate::specs::Reading::key_in))]
pub fn read_key(word: &[u8]) -> Option<Key>
    ensures { result ≡ key_in word.now }
{
    let (table, row) = cut_at(word, b'/')?;
    let table = read_u8(table)?;
    let row = read_u32(row)?;
    Some(Key { table, row })
}

/// The labels that the word is: `source:trx`.
#[tactic(auto, unfolding(crate::specs::Reading::label_in))]
pub(crate) fn read_label(word: &[u8]) -> Option<(u64, u64)>
    ensures { result ≡ label_in word.now }
{
    let (source, trx) = cut_at(word, b':')?;
    let source = read_number(source)?;
    let trx = read_number(trx)?;
    Some((source, trx))
}

/// The byte that two hexadecimal digits write.
#[tactic(auto, unfolding(crate::specs::Reading::byte_in))]
fn read_byte(high: u8, low: u8) -> Option<u8>
    ensures { result ≡ byte_in high low }
{
    let high = char::from(high).to_digit(16)?;
    let low = char::from(low).to_digit(16)?;
    Some((16 * high + low) as u8)
}

/// The bytes that hexadecimal digits write, or the first 63 of them.
#[tactic(auto, using(crate::proofs::Kept::hex_kept, crate::proofs::Kept::hex_step, std::proofs::lemmas::List::take_rest))]
fn read_hex(digits: &[u8]) -> Option<ArrayVec<u8, 63>>
    ensures { option_map (λ bytes. bytes.items) result ≡ option_map (take 63) (hex_in digits.now) }
{
    let mut bytes = ArrayVec::new();
    let mut rest = digits;
    while let [high, low, after @ ..] = rest {
        keep(&mut bytes, read_byte(*high, *low)?);
        rest = after;
    }
    if !rest.is_empty() {
        return None;
    }
    Some(bytes)
}

/// The value of these bytes, and whether they are more than 62, so that there is none.
fn short_value(bytes: &[u8]) -> (Option<Value>, bool)
    ensures { result ≡ (given (nat_le (length bytes.now) 62) bytes.now, nat_lt 62 (length bytes.now)) }
{
    let value = Value::new(bytes).ok();
    let is_long = value.is_none();
    (value, is_long)
}

/// The put of the value that the digits write, and whether the value has more than 62 bytes, so that
/// it is left out.
#[tactic(auto, using(crate::proofs::Values::put_kept), unfolding(crate::specs::Reading::put_in))]
fn read_put(key: &[u8], digits: &[u8]) -> Option<(Write, bool)>
    ensures { result ≡ option_map drafted_write (put_in (key.now, digits.now)) }
{
    let key = read_key(key)?;
    let bytes = read_hex(digits)?;
    let (value, is_long) = short_value(bytes.as_slice());
    Some((Write { key, value }, is_long))
}

/// The key of the row that the word deletes: `key-`.
#[tactic(auto, unfolding(crate::specs::Reading::deleted_in))]
fn read_deleted(word: &[u8]) -> Option<Key>
    ensures { result ≡ deleted_in word.now }
{
    let (key, rest) = cut_at(word, b'-')?;
    let key = read_key(key)?;
    if !rest.is_empty() {
        return None;
    }
    Some(key)
}

/// The write that the word is, `key=hex` or `key-`, and whether its value has more than 62 bytes, so
/// that it is left out.
#[tactic(auto, unfolding(crate::specs::Reading::write_in))]
pub(crate) fn read_write(word: &[u8]) -> Option<(Write, bool)>
    ensures { result ≡ option_map drafted_write (write_in word.now) }
{
    match cut_at(word, b'=') {
        Some((key, digits)) => read_put(key, digits),
        None => {
            let key = read_deleted(word)?;
            Some((Write { key, value: None }, false))
        }
    }
}
