//! Serves a batch by a node on a new file, with readers beside that look rows up, as many as the words of the command line say.

mod items;
mod readers;
mod serving;
pub(crate) mod together;
mod words;

ghost use Rattle.std.specs.Prelude.{◌<◌, ◌≤◌};

use crate::words::word;
use anyhow::{Context, Result, bail};
use items::{batch, params};
use readers::Watchers;
use rep_disk::FileDisk;
use rep_layout::need;
use rep_types::Item;
use serving::{Outcome, serve_on};
use std::env::Args;
use std::fs::{File, Files};
use std::sync::Wait;
use std::thread::Threads;
use std::time::{Clock, Duration};
use words::{Counts, read_counts, wants_rates};

/// How many that are in a second where there are so many in this time.
fn rate(count: u64, took: Duration) -> u128 {
    u128::from(count) * 1_000_000_000 / took.as_nanos().max(1)
}

/// Prints how many items are durable and how many look-ups had an answer that is not right, and the rates where these are wanted.
fn report<R: Print>(rt: &R, durable: u64, came: Outcome, has_rates: bool) -> Result<()> {
    let wrong = came.tally.wrong;
    rt.println(format_args!("{durable} durable, {wrong} wrong"))?;
    if has_rates {
        let took = came.took.context("the clock can't be read")?;
        let served = rate(durable, took);
        let looked = rate(came.tally.peeks, took);
        rt.println(format_args!("{served} items a second, {looked} peeks a second"))?;
    }
    Ok(())
}

/// Serves the items on a new file at the path, with readers beside.
fn serve_in_file<R: Files<File = File> + AllocGlobal + Clock + Threads + Wait + Sync>(
    rt: &R,
    path: &str,
    items: &[Item],
    counts: Counts,
    watchers: &mut Watchers,
) -> Result<(u64, Outcome)>
    requires { (0 < counts.workers) × (counts.workers ≤ 64) × (counts.readers ≤ 64) }
{
    let disk = FileDisk::create(rt, path, need(&params()?) as usize)?;
    let (workers, readers) = (counts.workers, counts.readers);
    let came = serve_on(rt, rt.alloc(), disk, items, workers, readers, watchers)?;
    Ok(came)
}

/// Serves a batch on a new file at the path, with readers beside.
fn serve<R: Files<File = File> + AllocGlobal + Clock + Threads + Wait + Sync>(
    rt: &R,
    path: &str,
    counts: Counts,
) -> Result<(u64, Outcome)>
    requires { (0 < counts.workers) × (counts.workers ≤ 64) × (counts.readers ≤ 64) }
{
    let items = batch(rt.alloc(), counts.items, counts.workers)?;
    let mut watchers = Watchers::with_room(rt.alloc(), counts.readers)?;
    serve_in_file(rt, path, &items, counts, &mut watchers)
}

/// Refuses a batch that ended before all of it was durable, and one that fewer readers than these looked at.
fn check(came: Outcome, readers: usize) -> Result<()> {
    if let Some(refusal) = came.end {
        return Err(refusal.into());
    }
    if came.tally.readers < readers {
        bail!("there are threads for {} readers alone", came.tally.readers);
    }
    Ok(())
}

/// Does what the words behind the path ask for.
fn run_words<R: Files<File = File> + Print + AllocGlobal + Clock + Threads + Wait + Sync>(
    rt: &R,
    path: &str,
    words: &mut Args,
) -> Result<()> {
    let counts = read_counts(words)?;
    let has_rates = wants_rates(words);
    let (durable, came) = serve(rt, path, counts)?;
    check(came, counts.readers)?;
    report(rt, durable, came, has_rates)
}

/// The words are the path of the new file, the number of workers, from 1 to 64, the number of readers, from 0 to 64, and the number of items.
/// It prints how many items are durable, and how many look-ups had an answer that is not right. Where a fifth word follows, `rates`, it
/// prints in a second line how many items and how many look-ups there were in a second.
pub(crate) fn run<R: Files<File = File> + Print + AllocGlobal + Clock + Threads + Wait + Sync>(
    rt: &R,
    words: &mut Args,
) -> Result<()> {
    let path = word(words, "no path of a new file")?;
    run_words(rt, &path, words)
}
