//! What sessions come to, as contracts of functions that do nothing.

ghost use Rattle.rep_session.specs.Runs.{SessionsComeTo, SessionsAreSerial};

use crate::rows::Rows;

/// A session's write set has as reads the keys that rows answered, for each key the last write, and the
/// snapshot; what was read is the state of the order at the snapshot, and a key that was written before
/// is answered by that write.
pub fn sessions_come_to<R: Rows>()
    ensures { SessionsComeTo R.read_gives R.are_of }
{}

/// A committed transaction that went through a session read what it would have read at its own place in
/// the order.
pub fn sessions_are_serial<R: Rows>()
    ensures { SessionsAreSerial R.read_gives R.are_of }
{
    rep_types::reads_are_serial();
}
