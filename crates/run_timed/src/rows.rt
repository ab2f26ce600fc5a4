//! Versions of rows that are added and looked up, and rows of pages that are read.

mod pages;
mod versions;

use crate::words::{number, word};
use anyhow::Result;
use rep_disk::FileDisk;
use rep_layout::need;
use std::env::Args;
use std::fs::{File, Files};

/// As many times as the first word says: the versions of as many items as the second says, and as many look-ups among them as the third
/// says.
pub(crate) fn run_versions<R: Print + AllocGlobal>(rt: &R, words: &mut Args) -> Result<()> {
    let rounds = number(words, "no number of rounds")? as u64;
    let items = number(words, "no number of items")? as u64;
    let reads = number(words, "no number of look-ups")? as u64;
    let all = versions::found_in_rounds(rt.alloc(), rounds, items, reads)?;
    rt.println(format_args!("{all} found"))?;
    Ok(())
}

/// Writes 4,096 pages on a new file at the path that the first word is, and reads them in turn, as many as the second word says, as often as
/// the third says: through a pool, or not.
pub(crate) fn run_pages<R: Files<File = File> + Print + AllocGlobal>(
    rt: &R,
    is_pooled: bool,
    words: &mut Args,
) -> Result<()> {
    let path = word(words, "no path of a new file")?;
    let count = word(words, "no number of pages")?.parse::<u32>()?;
    let reads = number(words, "no number of reads")? as u64;
    let size = need(&pages::params()?) as usize;
    let disk = FileDisk::create(rt, &path, size)?;
    let all = pages::found_on(rt.alloc(), disk, is_pooled, count, reads)?;
    rt.println(format_args!("{all} found"))?;
    Ok(())
}
