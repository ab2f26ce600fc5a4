//! Tests of the libraries that stand below the devices, a file for each, against values that were written by
//! hand. They stand in a crate of their own so that a tested crate is proved once. A library's call with much of a
//! contract stands in one function that promises nothing, so that no test is proved beside it.
#![tactic(auto)]

#[cfg(test)]
mod tests;
