//! What a reader that was told of a list finds, whatever the list is.

ghost use Rattle.std.specs.Prelude.{◌≡◌, ◌≤◌};
ghost use Rattle.rep_snap.specs.Lists.{published, front_of};
ghost use Rattle.rep_snap.specs.Doors.{FoundShut};
ghost use Rattle.uses_snap.specs.Folding.{FindsTheRow};

use rep_snap::{Admits, Door, Peek, Reader, Told, histories_grow, peeks_follow_the_fold};
use rep_types::{Key, Refusal};

/// Peeks a row at a snapshot that was told of: it finds the row that a plain fold over the told list has
/// there, unless the door was found shut.
pub fn row_at<A: Admits + Drop, D: Door<A> + Drop>(
    mut reader: Reader<A, D>,
    told: &Told,
    key: Key,
    snapshot: u64,
) -> (Reader<A, D>, Result<Peek, Refusal>)
    requires own { told.now.book ≡ reader.book }
    requires told { snapshot ≤ front_of reader.start (published told.now.list) }
    ensures { FindsTheRow (FoundShut D.knows D.shut) (published told.now.list) key snapshot result.0 result.1 }
{
    histories_grow();
    peeks_follow_the_fold();
    reader.learn(told);
    reader.peek(key, snapshot)
}
