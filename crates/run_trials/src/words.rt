//! Words of the command line.

use anyhow::{Context, Result};
use std::env::Args;

/// The next word. Where there is none, the error says what is lacking.
pub(crate) fn word(words: &mut Args, lacking: &'static str) -> Result<String> {
    words.next().context(lacking)
}

/// The next word, which is a number.
pub(crate) fn number(words: &mut Args, lacking: &'static str) -> Result<usize> {
    Ok(word(words, lacking)?.parse::<usize>()?)
}
