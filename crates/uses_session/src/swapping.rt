//! A transaction that swaps two rows.

ghost use Rattle.rep_session.specs.Sessions.{Writes};
ghost use Rattle.uses_session.specs.Swapping.{written_as, Swaps};

use crate::laws::sessions_run_alone;
use rep_session::{Finished, Rows, Session};
use rep_types::{Key, Refusal, Value};

/// Puts the row under the key, or deletes what stands there where there is none.
fn write_row(session: &mut Session, key: Key, row: Option<Value>) -> Result<(), Refusal>
    ensures { Writes session.old (written_as key row) result session.new }
{
    match row {
        Some(value) => session.put(key, value.as_bytes()),
        None => session.delete(key),
    }
}

/// A transaction that swaps what stands under two keys, under these labels. It reads twice, so it shows that
/// both reads are those of one place in the order.
///
/// Refuses as `get`, `put` and `delete` of a session refuse.
pub fn swap_rows<R: Rows>(
    rows: &mut R,
    source: u64,
    trx: u64,
    one: Key,
    other: Key,
) -> Result<Finished, Refusal>
    ensures { Swaps (R.are_of rows.new) source trx one other result }
{
    sessions_run_alone::<R>();
    let mut session = Session::begin(rows, source, trx);
    let first = session.get(rows, one)?;
    let second = session.get(rows, other)?;
    write_row(&mut session, one, second)?;
    write_row(&mut session, other, first)?;
    session.finish()
}
