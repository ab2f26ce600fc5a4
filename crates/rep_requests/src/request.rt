//! What a line asks of a node that follows an order.

ghost use Rattle.std.specs.Prelude.{◌≡◌, ◌≢◌, ℕ, nat_lt, true, false, if◌then◌else◌, length};
ghost use Rattle.std.specs.Option.{option_map};
ghost use Rattle.rep_record.specs.Words.{words};
ghost use Rattle.rep_record.specs.Reading.{each, some_each, key_in, order_line};
ghost use Rattle.rep_types.specs.declared.refusal.Refusal.TheVariants.{Malformed};
ghost use Rattle.rep_types.specs.declared.item.Item.{Item as AnItem};
ghost use Rattle.rep_requests.specs.Requests.{Published as is_published, Refused as is_refused, published_with, said_of, begins_with_digit, seqno_in, numbered, first_keys, rows_requested, sum_requested, transfer_requested, item_requested, command, requested};

use arrayvec::ArrayVec;
use rep_record::{
    MAX_LINE, Words, cut_at, is_blank, published_item, read_key, read_order_line, renew_published,
};
use rep_types::{Item, Key, Refusal, read_number};

/// The greatest number of keys of a read.
pub const MAX_KEYS: usize = 16;

/// The greatest number of digits of a seqno in front of an item.
const MAX_DIGITS: usize = 20;

/// What a line asks for.
#[derive(Drop)]
pub enum Request<'a> {
    /// Nothing: it has no words.
    Nothing,
    /// The item that has this seqno of the order.
    Published(u64, Item),
    /// The next item of the order.
    Stated(Item),
    /// The rows of these keys, of which there is one or more.
    Read(ArrayVec<Key, MAX_KEYS>),
    /// The sum of the rows at this position, or at what is durable.
    Sum(Option<u64>),
    /// The line of the node's state.
    State,
    /// The line of the limits of its window.
    Limits,
    /// The line of its counters.
    Counters,
    /// A transfer for the joiner that has what the first name names, under the second name.
    Donate(&'a [u8], &'a [u8]),
    /// No line of these: it is refused so, and the node goes on.
    Refused(Refusal),
    /// It begins with a digit, and has no seqno: what stands behind it may be another item than it seems.
    Broken,
}

/// Whether the line's first byte is a digit.
fn begins_with_digit(line: &[u8]) -> bool
    ensures { result ≡ begins_with_digit line.now }
{
    match line {
        [first, ..] => first.is_ascii_digit(),
        [] => false,
    }
}

/// The seqno that the digits write: 1 to 20 of a number below 2^64.
fn read_seqno(digits: &[u8]) -> Option<u64>
    ensures { result ≡ seqno_in digits.now }
{
    if digits.len() > MAX_DIGITS {
        return None;
    }
    read_number(digits)
}

/// The seqno that the line begins with, and the text behind it.
fn parts_of<'a>(line: &'a [u8]) -> Option<(u64, &'a [u8])>
    ensures { numbered line.now ≡ published_with (option_map (λ x. (x.0, x.1.now)) result) }
{
    let (digits, text) = cut_at(line, b' ')?;
    let seqno = read_seqno(digits)?;
    Some((seqno, text))
}

/// What a line asks for that begins with a digit.
fn read_numbered<'a>(line: &'a [u8]) -> Request<'a>
    ensures { said_of result ≡ numbered line.now }
{
    match parts_of(line) {
        Some((seqno, text)) => Request::Published(seqno, published_item(text)),
        None => Request::Broken,
    }
}

/// Whether the line is the item of an order that others write to which has this seqno, whatever the line's number is. If it is, it comes in the
/// item's place, which so is not moved.
pub fn renew_numbered(line: &[u8], seqno: u64, item: &mut Item) -> bool
    ensures some { result ≡ true → (number : ℕ) → requested number line.now ≡ is_published seqno item.new }
    ensures none { result ≡ false → (number : ℕ) (i : AnItem) → requested number line.now ≢ is_published seqno i }
{
    if !begins_with_digit(line) {
        return false;
    }
    let Some((found, text)) = parts_of(line) else {
        return false;
    };
    if found != seqno {
        return false;
    }
    renew_published(text, item);
    true
}

/// The first 16 of the keys that the words are, and whether there are more.
fn read_each(mut words: Words) -> Option<(ArrayVec<Key, MAX_KEYS>, bool)>
    ensures { option_map (λ keys. (keys.0.items, keys.1)) result ≡ option_map first_keys (each key_in words.entry) }
{
    let mut keys = ArrayVec::new();
    let mut has_more = false;
    while let Some(word) = words.next_word() {
        let key = read_key(word)?;
        if keys.is_full() {
            has_more = true;
        } else {
            keys.push(key);
        }
    }
    Some((keys, has_more))
}

/// What `read` asks for with these words behind it, in the line with this number.
fn read_rows<'a>(words: Words<'a>, number: u64) -> Request<'a>
    ensures { said_of result ≡ rows_requested number (some_each key_in words.entry) }
{
    if words.is_empty() {
        return Request::Refused(Refusal::Malformed { at: number });
    }
    match read_each(words) {
        Some((keys, false)) => Request::Read(keys),
        Some((_, true)) => Request::Refused(Refusal::TooManyReads),
        None => Request::Refused(Refusal::Malformed { at: number }),
    }
}

/// What `sum` asks for with these words behind it, in the line with this number.
fn read_sum<'a>(mut words: Words<'a>, number: u64) -> Request<'a>
    ensures { said_of result ≡ sum_requested number words.entry }
{
    let Some(word) = words.next_word() else {
        return Request::Sum(None);
    };
    if let Some(position) = read_number(word)
        && words.is_empty()
    {
        return Request::Sum(Some(position));
    }
    Request::Refused(Refusal::Malformed { at: number })
}

/// What `donate` asks for with these words behind it, in the line with this number.
fn read_donate<'a>(mut words: Words<'a>, number: u64) -> Request<'a>
    ensures { said_of result ≡ transfer_requested number words.entry }
{
    if let Some(have) = words.next_word()
        && let Some(out) = words.next_word()
        && words.is_empty()
    {
        return Request::Donate(have, out);
    }
    Request::Refused(Refusal::Malformed { at: number })
}

/// What a line asks for that is that of an item, with this number.
fn read_stated<'a>(line: &'a [u8], number: u64) -> Request<'a>
    ensures { said_of result ≡ item_requested (order_line number line.now) }
{
    match read_order_line(line, number) {
        Ok(item) => Request::Stated(item),
        Err(refusal) => Request::Refused(refusal),
    }
}

/// A command of one word, where no word is left.
fn alone<'a>(words: &Words, request: Request<'a>, number: u64) -> Request<'a>
    ensures { said_of result ≡ (if nat_lt 0 (length words.now) then is_refused (Malformed number) else said_of request.entry) }
{
    if words.is_empty() {
        return request;
    }
    Request::Refused(Refusal::Malformed { at: number })
}

/// What a line with words asks for, with this number, that begins with no digit.
fn read_command<'a>(line: &'a [u8], number: u64) -> Request<'a>
    ensures { said_of result ≡ command number line.now }
{
    let mut words = Words::new(line);
    if words.is_next(b"item") || words.is_next(b"window") {
        read_stated(line, number)
    } else if words.skip(b"read") {
        read_rows(words, number)
    } else if words.skip(b"sum") {
        read_sum(words, number)
    } else if words.skip(b"state") {
        alone(&words, Request::State, number)
    } else if words.skip(b"limits") {
        alone(&words, Request::Limits, number)
    } else if words.skip(b"counters") {
        alone(&words, Request::Counters, number)
    } else if words.skip(b"donate") {
        read_donate(words, number)
    } else {
        Request::Refused(Refusal::Malformed { at: number })
    }
}

/// What the line with this number asks for, whatever its bytes are.
///
/// A line that begins with a digit is an item of an order that others write to: a number below 2^64 of at most 20 digits, one space, and
/// any text, which is the item that `published_item` says. So no such text is a command. Any other line has at most 4,096 bytes.
pub fn read_request<'a>(line: &'a [u8], number: u64) -> Request<'a>
    ensures { said_of result ≡ requested number line.now }
{
    if begins_with_digit(line) {
        return read_numbered(line);
    }
    if line.len() > MAX_LINE {
        return Request::Refused(Refusal::Malformed { at: number });
    }
    if is_blank(line) {
        return Request::Nothing;
    }
    read_command(line, number)
}
