//! Those that judge, each by itself over a drawn order.

use crate::beside::drawn::{Draws, Shape};
use rep_cert::Certifier;
use rep_plain::PlainNode;
use rep_types::{Refusal, Window};
use std::alloc::Global;

/// How many of the first `count` items commit at the plain node.
fn delivered(node: &mut PlainNode, shape: &Shape, count: u64) -> Result<u64, Refusal> {
    let mut draws = Draws::new(1);
    let mut committed = 0u64;
    for before in 0..count {
        let item = draws.item(shape, before + 1)?;
        if node.deliver(item)?.is_commit() {
            committed = committed.saturating_add(1);
        }
    }
    Ok(committed)
}

/// How many of the first `count` items commit, by the plain node.
pub(crate) fn plain_commits(alloc: Global, shape: &Shape, count: u64) -> Result<u64, Refusal> {
    delivered(&mut PlainNode::new(alloc, shape.params()?), shape, count)
}

/// How many of the first `count` items commit at the certifier.
fn admitted(certifier: &mut Certifier, shape: &Shape, count: u64) -> Result<u64, Refusal> {
    let mut draws = Draws::new(1);
    let mut committed = 0u64;
    for before in 0..count {
        let (_, verdict) = certifier.admit(&draws.item(shape, before + 1)?)?;
        if verdict.is_commit() {
            committed = committed.saturating_add(1);
        }
    }
    Ok(committed)
}

/// How many of the first `count` items commit, by the certifier.
pub(crate) fn certifier_commits(alloc: Global, shape: &Shape, count: u64) -> Result<u64, Refusal> {
    let params = shape.params()?;
    let window = Window::fixed(params.window_size(), 0, Vec::new(alloc));
    admitted(&mut Certifier::new(alloc, params, 0, window)?, shape, count)
}

/// How many of the first `count` items are of the schema: what drawing the order takes.
pub(crate) fn drawn_items(shape: &Shape, count: u64) -> Result<u64, Refusal> {
    let window = shape.params()?.window();
    let mut draws = Draws::new(1);
    let mut drawn = 0u64;
    for before in 0..count {
        let item = draws.item(shape, before + 1)?;
        if item.last_seen() <= before && window > 0 {
            drawn = drawn.saturating_add(1);
        }
    }
    Ok(drawn)
}
