//! Keys as bytes.

ghost use Rattle.rep_forms.specs.Keys.{key_form};

use crate::form::{Form, Put};
use crate::numbers::{put_u8, put_u32, read_u8, read_u32};
use arrayvec::ArrayVec;
use rep_types::Key;

impl Form for Key {
    ghost use Rattle.rep_forms.specs.KeyLaws.{key_is_form};

    ghost form = { key_form };

    ghost most = { 5 };

    fn read(bytes: &[u8]) -> Option<(Key, &[u8])> {
        let (table, rest) = read_u8(bytes)?;
        let (row, rest) = read_u32(rest)?;
        Some((Key { table, row }, rest))
    }

    ghost is_form = { key_is_form };
}

impl<const N: usize> Put<N> for Key {
    #[tactic(auto, using(crate::specs::FormLaws::sizes, crate::specs::FormLaws::joined))]
    fn put(&self, out: &mut ArrayVec<u8, N>) {
        put_u8(out, self.table);
        put_u32(out, self.row);
    }
}
