//! Whether two items are one.

ghost use Rattle.std.specs.Prelude.{◌≡◌, ◌↔◌, true};
ghost use Rattle.std.specs.Option.{option_copied};

use rep_types::{Item, Key, SetWindow, Value, Write, WriteSet};

/// Whether the keys are one.
fn is_key(a: Key, b: Key) -> bool
    ensures { (result ≡ true) ↔ (a ≡ b) }
{
    a.table == b.table && a.row == b.row
}

/// Whether the values are one.
fn is_value(a: &Value, b: &Value) -> bool
    ensures { (result ≡ true) ↔ (a.now ≡ b.now) }
{
    a.as_bytes() == b.as_bytes()
}

/// Whether what is put is one.
fn is_put(a: Option<&Value>, b: Option<&Value>) -> bool
    ensures { (result ≡ true) ↔ (option_copied a.entry ≡ option_copied b.entry) }
{
    match a {
        None => b.is_none(),
        Some(value) => match b {
            None => false,
            Some(other) => is_value(value, other),
        },
    }
}

/// Whether the writes are one.
fn is_write(a: &Write, b: &Write) -> bool
    ensures { (result ≡ true) ↔ (a.now ≡ b.now) }
{
    is_key(a.key, b.key) && is_put(a.value.as_ref(), b.value.as_ref())
}

/// Whether the keys are the same, one by one.
fn are_keys(a: &[Key], b: &[Key]) -> bool
    ensures { (result ≡ true) ↔ (a.now ≡ b.now) }
{
    if a.len() != b.len() {
        return false;
    }
    for i in 0..a.len() {
        if !is_key(a[i], b[i]) {
            return false;
        }
    }
    true
}

/// Whether the writes are the same, one by one.
fn are_writes(a: &[Write], b: &[Write]) -> bool
    ensures { (result ≡ true) ↔ (a.now ≡ b.now) }
{
    if a.len() != b.len() {
        return false;
    }
    for i in 0..a.len() {
        if !is_write(&a[i], &b[i]) {
            return false;
        }
    }
    true
}

/// Whether the write sets are one.
fn is_write_set(a: &WriteSet, b: &WriteSet) -> bool
    ensures { (result ≡ true) ↔ (a.now ≡ b.now) }
{
    a.source() == b.source()
        && a.trx() == b.trx()
        && a.last_seen() == b.last_seen()
        && are_keys(a.reads(), b.reads())
        && are_writes(a.writes(), b.writes())
}

/// Whether the changes of the window's size are one.
fn is_change(a: SetWindow, b: SetWindow) -> bool
    ensures { (result ≡ true) ↔ (a ≡ b) }
{
    a.size.get() == b.size.get() && a.source == b.source && a.trx == b.trx
}

/// Whether the items are one: of the same kind, with the same labels, and the same in all else.
pub(crate) fn is_item(a: &Item, b: &Item) -> bool
    ensures { (result ≡ true) ↔ (a.now ≡ b.now) }
{
    match a {
        Item::WriteSet(write_set) => match b {
            Item::WriteSet(other) => is_write_set(write_set, other),
            Item::SetWindow(_) => false,
        },
        Item::SetWindow(change) => match b {
            Item::WriteSet(_) => false,
            Item::SetWindow(other) => is_change(*change, *other),
        },
    }
}
