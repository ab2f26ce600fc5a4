//! What certification keeps of a committed write set.

ghost use Rattle.std.specs.Prelude.{◌≡◌, ◌≤◌, length, ⊤};

use crate::key::Key;
use crate::limits::MAX_WRITES;
use arrayvec::ArrayVec;
use std::alloc::AllocError;
use std::marker::Model;

/// A committed write set as the window keeps it: its seqno, and the keys that it wrote, at
/// most 16.
#[derive(Debug, Drop, PartialEq, Eq)]
pub struct Entry {
    seqno: u64,
    keys: ArrayVec<Key, MAX_WRITES>,
}

impl Model for Entry {
    ghost use Rattle.std.specs.Prelude.{◌≤◌, length};
    ghost use Rattle.rep_types.specs.Entries.{Entry as View};
    ghost use Rattle.rep_types.specs.declared.limits.TheConstants.{MAX_WRITES};

    ghost Value = { View };

    ghost view = { λ e. record { seqno = e.seqno; keys = e.keys.items } };

    ghost invariant = { λ e. length e.keys.items ≤ MAX_WRITES };

    ghost inverse = { λ e. record { seqno = e.seqno; keys = record { items = e.keys } } };
}

impl Entry {
    /// The entry of the write set with this seqno that wrote these keys.
    pub fn new(seqno: u64, keys: ArrayVec<Key, MAX_WRITES>) -> Entry
        ensures { result ≡ record { seqno = seqno; keys = keys.items } }
    {
        Entry { seqno, keys }
    }

    /// The write set's seqno.
    pub fn seqno(&self) -> u64
        ensures { result ≡ self.now.seqno }
    {
        self.seqno
    }

    /// The keys that the write set wrote.
    pub fn keys(&self) -> &[Key]
        ensures keys { result.now ≡ self.now.keys }
        ensures few { length self.now.keys ≤ MAX_WRITES }
    {
        self.keys.as_slice()
    }

    /// A copy, which takes no memory.
    pub fn copied(&self) -> Entry
        ensures { result ≡ self.now }
    {
        match ArrayVec::try_from(self.keys.as_slice()) {
            Ok(keys) => Entry {
                seqno: self.seqno,
                keys,
            },
            Err(_) => unreachable!(),
        }
    }
}

impl Clone for Entry {
    ghost is_clone = { λ entry copy. copy ≡ entry };

    ghost is_infallible = { λ _. ⊤ };

    fn clone(&self) -> Result<Entry, AllocError> {
        Ok(self.copied())
    }
}
