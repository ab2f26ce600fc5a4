//! What in a word of a line is not of its form.

use crate::limits::Outside;
use arrayvec::ArrayVec;
use rep_record::{Words, cut_at};
use rep_types::{Gtid, read_number};

/// Whether the word has digits alone.
fn has_only_digits(word: &[u8]) -> bool {
    word.iter().all(|byte| byte.is_ascii_digit())
}

/// What is wrong with a number that is to be at most the limit.
pub(crate) fn wrong_number(word: &[u8], limit: u64) -> Option<&'static str> {
    match read_number(word) {
        Some(number) if number <= limit => None,
        Some(_) => Some("a number too large"),
        None if word.is_empty() || !has_only_digits(word) => Some("no number"),
        None => Some("a number too large"),
    }
}

/// What is wrong with a key.
pub(crate) fn wrong_key(word: &[u8]) -> Option<&'static str> {
    let Some((table, row)) = cut_at(word, b'/') else {
        return Some("no key, which is table/row");
    };
    wrong_number(table, u64::from(u8::MAX)).or(wrong_number(row, u64::from(u32::MAX)))
}

/// What is wrong with the GTID of a position.
pub(crate) fn wrong_gtid(word: &[u8]) -> Option<&'static str> {
    match Gtid::parse(word) {
        Ok(gtid) if gtid.seqno() >= 0 => None,
        Ok(_) => Some("a GTID of no position"),
        Err(_) => Some("no GTID, which is uuid:seqno"),
    }
}

/// What is wrong with labels.
pub(crate) fn wrong_label(word: &[u8]) -> Option<&'static str> {
    let Some((source, trx)) = cut_at(word, b':') else {
        return Some("no labels, which are source:trx");
    };
    wrong_number(source, u64::MAX).or(wrong_number(trx, u64::MAX))
}

/// What is wrong with the digits of a value.
fn wrong_hex(digits: &[u8]) -> Option<&'static str> {
    if !digits.iter().all(|byte| byte.is_ascii_hexdigit()) {
        return Some("no hexadecimal digit");
    }
    if digits.len() % 2 == 1 {
        return Some("an odd number of hexadecimal digits");
    }
    None
}

/// What is wrong with a write.
pub(crate) fn wrong_write(word: &[u8]) -> Option<&'static str> {
    if let Some((key, digits)) = cut_at(word, b'=') {
        return wrong_key(key).or(wrong_hex(digits));
    }
    match cut_at(word, b'-') {
        Some((key, [])) => wrong_key(key),
        _ => Some("no write, which is key=hex or key-"),
    }
}

/// The numbers of a params line of the form: the window, the cells, and the rows of the tables, of which one more than there may be is kept.
fn numbers_of(line: &[u8]) -> Option<(u32, u32, ArrayVec<u32, 9>)> {
    let mut words = Words::new(line);
    words.next_word()?;
    let window = next_u32(&mut words)?;
    let cells = next_u32(&mut words)?;
    let mut rows = ArrayVec::new();
    for _ in 0..rows.capacity() {
        if words.is_empty() {
            break;
        }
        rows.try_push(next_u32(&mut words)?).ok()?;
    }
    Some((window, cells, rows))
}

/// The next word as a number below 2^32.
fn next_u32(words: &mut Words) -> Option<u32> {
    u32::try_from(read_number(words.next_word()?)?).ok()
}

/// The parameter of a params line of the form that is outside its limits.
pub(crate) fn outside_of_line(line: &[u8]) -> Option<Outside> {
    let (window, cells, rows) = numbers_of(line)?;
    Outside::first_of(window, cells, rows.as_slice())
}

/// The size that a change's line of the form says, or its delivery.
pub(crate) fn size_in(line: &[u8]) -> Option<u64> {
    let mut words = Words::new(line);
    if words.skip(b"deliver") {
        words.next_word()?;
    }
    words.next_word()?;
    read_number(words.next_word()?)
}
