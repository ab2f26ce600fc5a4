//! Tests of devices and of the log on them, of what no life of a replica shows, against values that were written by hand. They stand in
//! a crate of their own so that a tested crate is proved once.
#![tactic(auto)]

#[cfg(test)]
mod devices;
#[cfg(test)]
mod files;
#[cfg(test)]
mod log;
