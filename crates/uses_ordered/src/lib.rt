//! Threads whose tickets pass two stations of an ordered lock, proved from the lock's contracts
//! alone.
#![tactic(auto)]

mod coupled;
mod notes;
mod passed;
mod passing;
mod station;
mod three;

pub use coupled::{count_often, counts_beside, pass_coupled};
pub use notes::{Note, halt_and_give_up, halted_run, lock_of_notes, raised_run, wait_for_turn};
pub use passed::Passed;
pub use passing::{Way, lock_of_lists, pass_all, pass_by, pass_one, passed_counts, tickets_by};
pub use three::{Part, lock_of_parts, take_over, wait_one};
