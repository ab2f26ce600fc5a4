//! What `make bench` times: versions of rows that are added and looked up, rows of pages that are read, peeks beside a publisher, and a node
//! that serves a batch with readers beside. And two batches at one node. The first word of the command line says which.
#![tactic(auto)]

mod node;
mod peeks;
mod rows;
mod words;

use anyhow::{Result, bail};
use std::env::{Args, args};
use std::fs::{File, Files};
use std::rt::Env;
use std::sync::Wait;
use std::thread::Threads;
use std::time::Clock;
use words::word;

/// Does what the first word of the command line names, as the words behind it say: `versions`; rows of `pages` of a file, or through a
/// `pool`; `peeks`, or look-ups behind one lock (`locked`); a `node`; two batches at one node (`together`); or versions, peeks and a node in
/// turn (`each`), whose words stand one behind the other.
fn run<
    R: Env
        + Files<File = File>
        + Print
        + AllocGlobal
        + Clock
        + Threads
        + Wait
        + Copy
        + Send
        + Sync
        + 'static,
>(rt: &R) -> Result<()> {
    let mut words = args(rt)?;
    let _program = words.next();
    let kind = word(
        &mut words,
        "no kind: versions, pages, pool, peeks, locked, node, together or each",
    )?;
    match kind.as_str() {
        "versions" => rows::run_versions(rt, &mut words),
        "pages" => rows::run_pages(rt, false, &mut words),
        "pool" => rows::run_pages(rt, true, &mut words),
        "peeks" => peeks::run(rt, false, &mut words),
        "locked" => peeks::run(rt, true, &mut words),
        "node" => node::run(rt, &mut words),
        "together" => node::together::run(rt, &mut words),
        "each" => {
            rows::run_versions(rt, &mut words)?;
            peeks::run(rt, false, &mut words)?;
            node::run(rt, &mut words)
        }
        other => bail!(
            "{other} is no kind: versions, pages, pool, peeks, locked, node, together or each"
        ),
    }
}

fn main(rt: HostRuntime) -> Result<()> {
    run(&rt)
}
