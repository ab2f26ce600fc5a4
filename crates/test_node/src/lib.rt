//! Tests of what threads leave behind on a node that they run, and of what is read beside it, by readers and by sessions; and of sessions
//! of a replica. They stand in a crate of their own so that a tested crate is proved once, and in one since each crate with tests pays for
//! its start.
#![tactic(auto)]

#[cfg(test)]
mod tests;
