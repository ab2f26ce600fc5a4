//! Entries of a window as bytes.

ghost use Rattle.rep_forms.specs.Entries.{entry_form};

use crate::form::{Exact, Form, Put};
use crate::numbers::{put_u8, put_u64, read_u8, read_u64, strip_front};
use crate::run::{put_run, read_run};
use arrayvec::ArrayVec;
use rep_types::{Entry, Key, MAX_WRITES};

/// The greatest number of bytes of an entry: 9, and 5 for each key.
pub const MAX_ENTRY: usize = 9 + 5 * MAX_WRITES;

impl Form for Entry {
    ghost use Rattle.rep_forms.specs.EntryLaws.{entry_is_form};
    ghost use Rattle.rep_forms.specs.declared.entry.TheConstants.{MAX_ENTRY};

    ghost form = { entry_form };

    ghost most = { MAX_ENTRY };

    fn read(bytes: &[u8]) -> Option<(Entry, &[u8])> {
        let (seqno, rest) = read_u64(bytes)?;
        let (count, rest) = read_u8(rest)?;
        let (keys, rest) = read_run::<Key, MAX_WRITES>(rest, usize::from(count))?;
        Some((Entry::new(seqno, keys), rest))
    }

    ghost is_form = { entry_is_form };
}

impl<const N: usize> Put<N> for Entry {
    #[tactic(auto, using(crate::specs::FormLaws::sizes, crate::specs::FormLaws::joined))]
    fn put(&self, out: &mut ArrayVec<u8, N>) {
        put_u64(out, self.seqno());
        put_u8(out, self.keys().len() as u8);
        put_run(out, self.keys());
    }
}

impl Exact for Entry {
    #[tactic(auto, using(crate::proofs::Putting::stripped))]
    fn strip<'a>(&self, bytes: &'a [u8]) -> Option<&'a [u8]> {
        let mut spelling: ArrayVec<u8, MAX_ENTRY> = ArrayVec::new();
        self.put(&mut spelling);
        strip_front(bytes, spelling.as_slice())
    }
}
