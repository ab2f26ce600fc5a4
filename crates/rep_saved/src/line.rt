//! A line of a saved state.

ghost use Rattle.std.specs.Prelude.{◌≡◌, ◌==◌, ◌||◌};
ghost use Rattle.rep_saved.specs.Saved.{IsWithin};
ghost use Rattle.rep_saved.specs.Lines.{is_blank, from_first, up_to_last, without_return, said_by, said};

use rep_record::cut_at;
use rep_types::{read_seqno, read_uuid};
use uuid::Uuid;

/// What a line says.
#[derive(Clone, Copy, Debug, PartialEq, Eq)]
pub(crate) enum Said {
    /// Nothing: it is empty, a comment, or under a key that is not one of the three.
    Nothing,
    /// The state UUID.
    Uuid(Uuid),
    /// The seqno.
    Seqno(i64),
    /// Whether the node may be the first one of its group to start.
    Safe(bool),
    /// A value that is not of the form of its key.
    Bad,
}

/// Whether the byte is a space or a tab.
fn is_blank(byte: u8) -> bool
    ensures { result ≡ is_blank byte }
{
    byte == b' ' || byte == b'\t'
}

/// The line without the carriage return at its end, if there is one.
pub(crate) fn without_return(line: &[u8]) -> &[u8]
    ensures { result.now ≡ without_return line.now }
{
    match line {
        [front @ .., b'\r'] => front,
        _ => line,
    }
}

/// The text without the blanks in front.
fn from_first(text: &[u8]) -> &[u8]
    ensures { result.now ≡ from_first text.now }
{
    let mut rest = text;
    while let [byte, after @ ..] = rest {
        if !is_blank(*byte) {
            return rest;
        }
        rest = after;
    }
    rest
}

/// The text without the blanks at the end.
fn up_to_last(text: &[u8]) -> &[u8]
    ensures { result.now ≡ up_to_last text.now }
{
    let mut rest = text;
    while let [before @ .., byte] = rest {
        if !is_blank(*byte) {
            return rest;
        }
        rest = before;
    }
    rest
}

/// What a value says under its key.
fn said_by(key: &[u8], value: &[u8]) -> Said
    ensures value { result ≡ said_by key.now value.now }
    ensures limit { IsWithin result }
{
    if key == b"uuid".as_slice() {
        if value.len() != 36 {
            return Said::Bad;
        }
        return match read_uuid(value) {
            Some(uuid) => Said::Uuid(uuid),
            None => Said::Bad,
        };
    }
    if key == b"seqno".as_slice() {
        return match read_seqno(value) {
            Some(seqno) => Said::Seqno(seqno),
            None => Said::Bad,
        };
    }
    if key == b"safe_to_bootstrap".as_slice() {
        if value == b"0".as_slice() {
            return Said::Safe(false);
        }
        if value == b"1".as_slice() {
            return Said::Safe(true);
        }
        return Said::Bad;
    }
    Said::Nothing
}

/// What a line says, without what ends it.
pub(crate) fn read_line(line: &[u8]) -> Said
    ensures value { result ≡ said line.now }
    ensures limit { IsWithin result }
{
    let text = up_to_last(from_first(line));
    match cut_at(text, b':') {
        Some((key, value)) => said_by(key, from_first(value)),
        None => Said::Nothing,
    }
}
