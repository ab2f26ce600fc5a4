//! Reads and writes in the order of their keys.

ghost use Rattle.std.specs.Prelude.{◌≡◌, ◌<◌, ◌≤◌, ◌||◌, None, count_by, length, map, nat_lt, IsTrue};
ghost use Rattle.std.specs.List.{list_any, find};
ghost use Rattle.std.specs.Option.{option_copied};
ghost use Rattle.rep_types.specs.Keys.{disorder, key_eq, key_lt};
ghost use Rattle.rep_types.specs.Transactions.{key_of};
ghost use Rattle.rep_session.specs.Sessions.{itself, placed, write_of};

use arrayvec::ArrayVec;
use rep_types::{Key, MAX_READS, MAX_WRITES, Write};

/// How many of the keys come before this one.
fn keys_before(keys: &[Key], key: Key) -> usize
    ensures { result ≡ count_by (λ other. key_lt other key) keys.now }
{
    keys.iter().filter(|other| **other < key).count()
}

/// How many of the writes are of keys before this one.
fn writes_before(writes: &[Write], key: Key) -> usize
    ensures { result ≡ count_by (λ write. key_lt write.key key) writes.now }
{
    writes.iter().filter(|write| write.key < key).count()
}

/// Whether the key is one of these.
pub(crate) fn is_among(keys: &[Key], key: Key) -> bool
    ensures { result ≡ list_any (λ other. key_eq other key) keys.now }
{
    keys.iter().any(|other| *other == key)
}

/// Whether one of the writes is of the key.
pub(crate) fn is_written(writes: &[Write], key: Key) -> bool
    ensures { result ≡ list_any (λ write. key_eq write.key key) writes.now }
{
    writes.iter().any(|write| write.key == key)
}

/// The write of the key, if there is one.
pub(crate) fn find_write(writes: &[Write], key: Key) -> Option<&Write>
    ensures { option_copied result ≡ write_of writes.now key }
{
    writes.iter().find(|write| write.key == key)
}

/// Puts the key among those, where it is not one of them.
pub(crate) fn place_key(keys: &mut ArrayVec<Key, MAX_READS>, key: Key)
    requires ascend { disorder keys.old.items ≡ None }
    requires room { IsTrue (nat_lt (length keys.old.items) MAX_READS || list_any (λ other. key_eq other key) keys.old.items) }
    ensures placed { keys.new.items ≡ placed itself key keys.old.items }
    ensures few { length keys.old.items ≤ MAX_READS → length keys.new.items ≤ MAX_READS }
    ensures ascend { disorder keys.new.items ≡ None }
{
    if !is_among(keys.as_slice(), key) {
        let place = keys_before(keys.as_slice(), key);
        keys.insert(place, key);
    }
}

/// Puts the write among those, in the place of the one with its key where there is one.
pub(crate) fn place_write(writes: &mut ArrayVec<Write, MAX_WRITES>, write: Write)
    requires ascend { disorder (map key_of writes.old.items) ≡ None }
    requires room { IsTrue (nat_lt (length writes.old.items) MAX_WRITES || list_any (λ other. key_eq other.key write.key) writes.old.items) }
    ensures placed { writes.new.items ≡ placed key_of write writes.old.items }
    ensures few { length writes.old.items ≤ MAX_WRITES → length writes.new.items ≤ MAX_WRITES }
    ensures ascend { disorder (map key_of writes.new.items) ≡ None }
{
    let place = writes_before(writes.as_slice(), write.key);
    if is_written(writes.as_slice(), write.key) {
        writes[place] = write;
    } else {
        writes.insert(place, write);
    }
}
