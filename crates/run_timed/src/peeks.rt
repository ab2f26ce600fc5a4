//! Peeks beside a publisher, or look-ups of the same rows behind one lock.

mod locked;
mod snapshots;
mod threads;

use crate::words::number;
use anyhow::Result;
use std::env::Args;
use std::sync::Wait;
use std::thread::Threads;
use threads::Readers;

/// The words are the number of readers, from 1 to 4, and how often each looks a row up: behind one lock, or not.
pub(crate) fn run<R: Print + AllocGlobal + Threads + Wait + Copy + Send + 'static>(
    rt: &R,
    is_locked: bool,
    words: &mut Args,
) -> Result<()> {
    let alloc = rt.alloc();
    let readers = number(words, "no number of readers")? as u64;
    let times = number(words, "no number of look-ups")? as u64;
    let readers = Readers::new(alloc, readers, times)?;
    let right = if is_locked {
        locked::beside(rt, alloc, &readers)?
    } else {
        snapshots::beside(rt, alloc, &readers)?
    };
    rt.println(format_args!("{right} right"))?;
    Ok(())
}
