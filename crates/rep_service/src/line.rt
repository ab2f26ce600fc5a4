//! A line of an answer, which is put together before it is written: so it is written whole, and takes no memory.

ghost use Rattle.std.specs.Prelude.{◌≡◌, ◌+◌, ◌≤◌, ◌∷◌, ◌++◌, length};
ghost use Rattle.std.specs.Option.{option_copied};
ghost use Rattle.std.specs.Fmt.{decimal};
ghost use Rattle.hex.specs.Hex.{encode_lower};
ghost use Rattle.rep_service.specs.Lines.{key_text, row_text, named};

use arrayvec::{ArrayString, ArrayVec};
use rep_record::push_decimal;
use rep_types::{Key, MAX_VALUE, Value};

/// As many bytes as a line of rows may have, the longest of them: that of 16 rows, of at most 167 bytes each.
const ROOM: usize = 2704;

/// A line that is put together.
pub(crate) type Line = ArrayVec<u8, ROOM>;

/// Puts the text behind the line.
pub(crate) fn put_text(line: &mut Line, text: &[u8])
    requires { length line.old.items + length text.now ≤ 2704 }
    ensures text { line.new.items ≡ line.old.items ++ text.now }
    ensures len { length line.new.items ≡ length line.old.items + length text.now }
{
    let fitted = line.try_extend_from_slice(text);
    prove!(fitted.is_ok());
    let _ = fitted;
}

/// Puts the number in decimal behind the line.
#[tactic(auto, using(rep_types::proofs::Lists::decimal_fits))]
pub(crate) fn put_number(line: &mut Line, number: u64)
    requires { length line.old.items + 20 ≤ 2704 }
    ensures text { line.new.items ≡ line.old.items ++ decimal number }
    ensures few { length line.new.items ≤ length line.old.items + 20 }
{
    let mut text = ArrayString::<64>::new();
    push_decimal(&mut text, number);
    put_text(line, text.as_bytes());
}

/// Puts a space and the key, `<table>/<row>`, behind the line.
fn put_key(line: &mut Line, key: Key)
    requires { length line.old.items + 42 ≤ 2704 }
    ensures text { line.new.items ≡ line.old.items ++ 32 ∷ key_text key }
    ensures few { length line.new.items ≤ length line.old.items + 42 }
{
    put_text(line, b" ");
    put_number(line, u64::from(key.table));
    put_text(line, b"/");
    put_number(line, u64::from(key.row));
}

/// Puts the bytes of the value as hexadecimal digits, two for each, behind the line.
#[tactic(auto, using(crate::proofs::Digits::digits_fit))]
fn put_value(line: &mut Line, value: &Value)
    requires { length line.old.items + 124 ≤ 2704 }
    ensures text { line.new.items ≡ line.old.items ++ encode_lower value.now }
    ensures few { length line.new.items ≤ length line.old.items + 124 }
{
    let mut room = [0; 2 * MAX_VALUE];
    let bytes = value.as_bytes();
    let digits = &mut room[..2 * bytes.len()];
    let fitted = hex::encode_to_slice(bytes, digits);
    prove!(fitted.is_ok());
    let _ = fitted;
    put_text(line, digits);
}

/// Puts a space and the row behind the line: its key, and an equals sign and its bytes, or a hyphen where it is absent.
pub(crate) fn put_row(line: &mut Line, key: Key, row: Option<&Value>)
    requires { length line.old.items + 167 ≤ 2704 }
    ensures text { line.new.items ≡ line.old.items ++ 32 ∷ row_text key (option_copied row.entry) }
    ensures few { length line.new.items ≤ length line.old.items + 167 }
{
    put_key(line, key);
    match row {
        Some(value) => {
            put_text(line, b"=");
            put_value(line, value);
        }
        None => put_text(line, b"-"),
    }
}

/// Puts a space, the word, a space and the number behind the line.
pub(crate) fn put_named(line: &mut Line, name: &[u8], number: u64)
    requires { length line.old.items + length name.now + 22 ≤ 2704 }
    ensures text { line.new.items ≡ line.old.items ++ named name.now number }
    ensures few { length line.new.items ≤ length line.old.items + length name.now + 22 }
{
    put_text(line, b" ");
    put_text(line, name);
    put_text(line, b" ");
    put_number(line, number);
}
