//! What judges, and what waits to be logged.

use crate::growths::items::{ROWS, item, params};
use rep_backlog::Backlog;
use rep_cert::Certifier;
use rep_plain::PlainNode;
use rep_record::BlockBuilder;
use rep_types::{Item, Judged, Refusal, Verdict, Window, WriteSet};
use std::alloc::Global;

fn deliver(node: &mut PlainNode, item: WriteSet) -> Result<Verdict, Refusal> {
    match node.deliver(item.copied()) {
        Err(Refusal::OutOfMemory) => node.deliver(item),
        answer => answer,
    }
}

fn plain_window(alloc: Global, node: &PlainNode) -> Result<Window, Refusal> {
    match node.window(alloc) {
        Err(Refusal::OutOfMemory) => node.window(alloc),
        answer => answer,
    }
}

/// How many items commit at the node.
fn delivered(node: &mut PlainNode) -> Result<u64, Refusal> {
    let mut committed = 0u64;
    for row in ROWS {
        if deliver(node, item(*row, 0)?)?.is_commit() {
            committed = committed.saturating_add(1);
        }
    }
    Ok(committed)
}

/// What came of the items: how many commit, and how many entries the window then has.
type Came = (u64, usize);

/// What comes of the items at a plain node.
fn plain(alloc: Global) -> Result<Came, Refusal> {
    let mut node = PlainNode::new(alloc, params()?);
    let committed = delivered(&mut node)?;
    Ok((committed, plain_window(alloc, &node)?.entries().len()))
}

/// The window of no item.
fn first_window(alloc: Global) -> Result<Window, Refusal> {
    Ok(Window::fixed(params()?.window_size(), 0, Vec::new(alloc)))
}

fn certifier_at_the_start(alloc: Global) -> Result<Certifier, Refusal> {
    match Certifier::new(alloc, params()?, 0, first_window(alloc)?) {
        Err(Refusal::OutOfMemory) => Certifier::new(alloc, params()?, 0, first_window(alloc)?),
        answer => answer,
    }
}

fn certified_window(alloc: Global, certifier: &Certifier) -> Result<Window, Refusal> {
    let position = certifier.delivered();
    match certifier.window_at(alloc, position) {
        Err(Refusal::OutOfMemory) => certifier.window_at(alloc, position),
        answer => answer,
    }
}

/// How many items commit at the certifier.
fn admitted(certifier: &mut Certifier) -> Result<u64, Refusal> {
    let mut committed = 0u64;
    for row in ROWS {
        let (_, verdict) = certifier.admit(&item(*row, 0)?)?;
        if verdict.is_commit() {
            committed = committed.saturating_add(1);
        }
    }
    Ok(committed)
}

/// What comes of the items at a certifier.
fn certifier(alloc: Global) -> Result<Came, Refusal> {
    let mut certifier = certifier_at_the_start(alloc)?;
    let committed = admitted(&mut certifier)?;
    Ok((
        committed,
        certified_window(alloc, &certifier)?.entries().len(),
    ))
}

fn empty_backlog(alloc: Global) -> Result<Backlog, Refusal> {
    match Backlog::new(alloc) {
        Err(Refusal::OutOfMemory) => Backlog::new(alloc),
        answer => answer,
    }
}

/// Adds the items to the backlog.
fn wait_in(backlog: &mut Backlog) -> Result<(), Refusal> {
    for (before, row) in ROWS.iter().enumerate() {
        backlog.push(Judged {
            seqno: before as u64 + 1,
            item: Item::WriteSet(item(*row, 0)?),
            verdict: Verdict::Commit,
        })?;
    }
    Ok(())
}

/// How many items move out of the backlog into a block, and how many stay.
fn moved(backlog: &mut Backlog) -> Result<(u16, usize), Refusal> {
    wait_in(backlog)?;
    let moved = backlog.drain(&mut BlockBuilder::new());
    Ok((moved, backlog.len()))
}

/// Prints what came of the items at the one of this name.
fn tell<R: Print>(rt: &R, name: &str, (committed, entries): Came) -> anyhow::Result<()> {
    rt.println(format_args!("{name}: {committed} committed, a window of {entries}"))?;
    Ok(())
}

/// Prints how both judge, and what moves out of the backlog.
pub(crate) fn show<R: Print + AllocGlobal>(rt: &R) -> anyhow::Result<()> {
    tell(rt, "plain node", plain(rt.alloc())?)?;
    tell(rt, "certifier", certifier(rt.alloc())?)?;
    let (moved, left) = moved(&mut empty_backlog(rt.alloc())?)?;
    rt.println(format_args!("backlog: {moved} moved, {left} left"))?;
    Ok(())
}
