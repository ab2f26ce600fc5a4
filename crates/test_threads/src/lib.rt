//! Tests of what threads leave behind on the ordered lock and beside a publisher of snapshots. They stand in a crate of their own so that
//! a tested crate is proved once, and apart from those of the node, which comes late.
#![tactic(auto)]

#[cfg(test)]
mod tests;
