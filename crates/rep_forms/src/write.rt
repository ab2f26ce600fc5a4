//! Writes as bytes.

ghost use Rattle.std.specs.Prelude.{◌≡◌, ◌+◌, ◌≤◌, ◌++◌, length, option_map, IfSome};
ghost use Rattle.rep_forms.specs.Forms.{AreBytes};
ghost use Rattle.rep_forms.specs.Writes.{value_bytes, value_fields, write_form};

use crate::form::{Form, Put};
use crate::numbers::{put_bytes, put_u8, read_part, read_u8};
use arrayvec::ArrayVec;
use rep_types::{Key, MAX_VALUE, Value, Write};

/// What is written under a key, and the bytes behind it.
fn read_value(bytes: &[u8]) -> Option<(Option<Value>, &[u8])>
    ensures { option_map (λ x. (x.0, x.1.now)) result ≡ value_fields.read bytes.now }
{
    let (kind, rest) = read_u8(bytes)?;
    let (size, rest) = read_u8(rest)?;
    let (part, rest) = read_part(rest, usize::from(size))?;
    if kind == 0 {
        return Some((None, rest));
    }
    let value = Value::new(part).ok()?;
    Some((Some(value), rest))
}

/// Puts what is written under a key: at most 64 bytes.
#[tactic(auto, using(crate::specs::FormLaws::sizes, crate::specs::FormLaws::joined))]
fn put_value<const N: usize>(out: &mut ArrayVec<u8, N>, value: &Option<Value>)
    requires { length out.old.items + 64 ≤ N }
    ensures bytes { out.new.items ≡ out.old.items ++ value_bytes value.now }
    ensures size { length (value_bytes value.now) ≤ 64 }
    ensures short { IfSome value.now (λ bytes. length bytes ≤ MAX_VALUE) }
    ensures fits { IfSome value.now AreBytes }
{
    match value {
        None => {
            put_u8(out, 0);
            put_u8(out, 0);
        }
        Some(value) => {
            let bytes = value.as_bytes();
            put_u8(out, 1);
            put_u8(out, bytes.len() as u8);
            put_bytes(out, bytes);
        }
    }
}

impl Form for Write {
    ghost use Rattle.rep_forms.specs.WriteLaws.{write_is_form};

    ghost form = { write_form };

    ghost most = { 69 };

    fn read(bytes: &[u8]) -> Option<(Write, &[u8])> {
        let (key, rest) = Key::read(bytes)?;
        let (value, rest) = read_value(rest)?;
        Some((Write { key, value }, rest))
    }

    ghost is_form = { write_is_form };
}

impl<const N: usize> Put<N> for Write {
    #[tactic(auto, using(crate::specs::FormLaws::sizes, crate::specs::FormLaws::joined))]
    fn put(&self, out: &mut ArrayVec<u8, N>) {
        self.key.put(out);
        put_value(out, &self.value);
    }
}
