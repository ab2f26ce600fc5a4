//! What sessions come to, in the words of transactions, as the contract of a function that does nothing.

ghost use Rattle.uses_session.specs.Alone.{SessionsRunAlone};

use rep_session::{Rows, sessions_are_serial, sessions_come_to};
use rep_types::{reach_by_items, state_is_enough};

/// A committed transaction that went through a session did what it would have done alone at its own place
/// in the order: each get was answered by what stood there behind all the items before it and its own
/// earlier writes, and what the state after it has is what it left. A transaction that only read did so
/// at its snapshot. So the transactions of sessions are serializable.
#[tactic(auto, using(crate::proofs::Alone::run_alone))]
pub fn sessions_run_alone<R: Rows>()
    ensures { SessionsRunAlone R.read_gives R.are_of }
{
    sessions_come_to::<R>();
    sessions_are_serial::<R>();
    state_is_enough();
    reach_by_items();
}
