//! What is stored under a key, and a write of it.

ghost use Rattle.std.specs.Prelude.{◌≡◌, ◌≤◌, length, nat_le, Ok, Err, if◌then◌else◌, ⊤};

use crate::key::Key;
use crate::limits::MAX_VALUE;
use crate::refusal::Refusal;
use arrayvec::ArrayVec;
use std::alloc::AllocError;
use std::marker::Model;

/// What is stored under a key: 0 to 62 bytes.
#[derive(Debug, Drop, PartialEq, Eq)]
pub struct Value {
    bytes: ArrayVec<u8, MAX_VALUE>,
}

impl Model for Value {
    ghost use Rattle.std.specs.Prelude.{ℕ, ◌≤◌, List, length};
    ghost use Rattle.rep_types.specs.declared.limits.TheConstants.{MAX_VALUE};

    ghost Value = { List ℕ };

    ghost view = { λ v. v.bytes.items };

    ghost invariant = { λ v. length v.bytes.items ≤ MAX_VALUE };

    ghost inverse = { λ bytes. record { bytes = record { items = bytes } } };
}

impl Value {
    /// The value of these bytes.
    ///
    /// Refuses more than 62 bytes with `ValueTooLong`.
    pub fn new(bytes: &[u8]) -> Result<Value, Refusal>
        ensures { result ≡ (if nat_le (length bytes.now) MAX_VALUE then Ok bytes.now else Err Refusal.ValueTooLong) }
    {
        match ArrayVec::try_from(bytes) {
            Ok(bytes) => Ok(Value { bytes }),
            Err(_) => Err(Refusal::ValueTooLong),
        }
    }

    /// The bytes.
    pub fn as_bytes(&self) -> &[u8]
        ensures bytes { result.now ≡ self.now }
        ensures fits { length self.now ≤ MAX_VALUE }
    {
        self.bytes.as_slice()
    }

    /// A copy, which takes no memory.
    pub fn copied(&self) -> Value
        ensures same { result ≡ self.now }
        ensures fits { length self.now ≤ MAX_VALUE }
    {
        match ArrayVec::try_from(self.bytes.as_slice()) {
            Ok(bytes) => Value { bytes },
            Err(_) => unreachable!(),
        }
    }
}

impl Clone for Value {
    ghost is_clone = { λ value copy. copy ≡ value };

    ghost is_infallible = { λ _. ⊤ };

    fn clone(&self) -> Result<Value, AllocError> {
        Ok(self.copied())
    }
}

/// A write of one row: the value that is put, or `None` where the row is deleted.
#[derive(Debug, Default, Drop, PartialEq, Eq)]
pub struct Write {
    /// The row.
    pub key: Key,
    /// What is put, or `None` for a delete.
    pub value: Option<Value>,
}

impl Write {
    ghost use Rattle.rep_types.specs.Transactions.{HasShortValue};

    /// A copy, which takes no memory.
    pub fn copied(&self) -> Write
        ensures same { result ≡ self.now }
        ensures short { HasShortValue self.now }
    {
        let value = match &self.value {
            Some(value) => Some(value.copied()),
            None => None,
        };
        Write {
            key: self.key,
            value,
        }
    }
}

impl Clone for Write {
    ghost is_clone = { λ write copy. copy ≡ write };

    ghost is_infallible = { λ _. ⊤ };

    fn clone(&self) -> Result<Write, AllocError> {
        Ok(self.copied())
    }
}
