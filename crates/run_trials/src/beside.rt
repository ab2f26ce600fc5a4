//! Judges a drawn order with the plain node or with the certifier, and says how many of its items
//! committed; or compares the two.

mod drawn;
mod judging;
mod side_by_side;
mod trials;

use crate::words::word;
use anyhow::{Result, bail};
use drawn::{MAX_KEYS, Shape};
use judging::{certifier_commits, drawn_items, plain_commits};
use rep_types::Refusal;
use std::alloc::Global;
use std::env::Args;
use trials::TRIALS;

/// Who judges an order.
#[derive(Clone, Copy)]
pub(crate) enum Judge {
    Plain,
    Certifier,
    /// Nobody: it is only drawn.
    Drawn,
}

/// The number that the next word is.
fn number(words: &mut Args, lacking: &'static str) -> Result<u32> {
    Ok(word(words, lacking)?.parse::<u32>()?)
}

/// The shape that the next words ask for: the window, the number of keys that an item names, and the rows of each of the four tables.
/// Transactions had seen one of the last positions, up to three quarters of the window before them.
fn shape_of(words: &mut Args) -> Result<Shape> {
    let window = number(words, "no window")?;
    let keys = number(words, "no number of keys")?;
    let rows = number(words, "no number of rows")?;
    if keys > MAX_KEYS {
        bail!("an item names at most {MAX_KEYS} keys");
    }
    Ok(Shape {
        window,
        rows,
        behind: window / 4 * 3,
        keys,
    })
}

/// Judges the order, and says how many of its items commit, or of how many it is where it is only drawn.
fn committed(alloc: Global, judge: Judge, shape: &Shape, count: u64) -> Result<u64, Refusal> {
    match judge {
        Judge::Plain => plain_commits(alloc, shape, count),
        Judge::Certifier => certifier_commits(alloc, shape, count),
        Judge::Drawn => drawn_items(shape, count),
    }
}

/// Judges the order that the words ask for: the number of items, and its shape. Prints how many of the items commit.
pub(crate) fn judge_order<R: Print + AllocGlobal>(
    rt: &R,
    judge: Judge,
    words: &mut Args,
) -> Result<()> {
    let count = number(words, "no number of items")?;
    let shape = shape_of(words)?;
    let committed = committed(rt.alloc(), judge, &shape, u64::from(count))?;
    rt.println(format_args!("{committed} of {count}"))?;
    Ok(())
}

/// Compares the certifier with the plain node in each trial, and prints what came of it. Then the certifier judges the order that the words
/// ask for.
pub(crate) fn compare<R: Print + AllocGlobal>(rt: &R, words: &mut Args) -> Result<()> {
    for (title, trial) in TRIALS {
        let answer = if trial.agrees(rt.alloc())? {
            "agree"
        } else {
            "differ"
        };
        rt.println(format_args!("{answer}: {title}"))?;
    }
    judge_order(rt, Judge::Certifier, words)
}
