//! What sums tell, as the contract of a function that does nothing.

ghost use Rattle.rep_sum.specs.Telling.{SumsTellStates};

/// The bytes that are digested of a state tell its cluster, its position and each of its rows.
pub fn sums_tell_states()
    ensures { SumsTellStates }
{}
