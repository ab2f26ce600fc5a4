//! A transaction that moves a row.

ghost use Rattle.uses_session.specs.Moving.{Moves};

use crate::laws::sessions_run_alone;
use rep_session::{Finished, Rows, Session};
use rep_types::{Key, Refusal};

/// A transaction that moves what stands under one key to another, under these labels: nothing stands
/// under the first one then, unless both are the same. It ends without a write set where there is no such
/// row.
///
/// Refuses as `get`, `delete` and `put` of a session refuse.
pub fn move_row<R: Rows>(
    rows: &mut R,
    source: u64,
    trx: u64,
    from: Key,
    to: Key,
) -> Result<Finished, Refusal>
    ensures { Moves R.front_gives (R.are_of rows.new) rows.old source trx from to result }
{
    sessions_run_alone::<R>();
    let mut session = Session::begin(rows, source, trx);
    if let Some(value) = session.get(rows, from)? {
        session.delete(from)?;
        session.put(to, value.as_bytes())?;
    }
    session.finish()
}
