//! What is tried of the libraries by running it, part by part. The first word of the command line says which: what takes memory is used,
//! and asked again where that was refused (`growths`, `readers`); and the certifier is compared with the plain node, or one of them judges
//! (`beside`, `certifier`, `plain`, `drawn`).
#![tactic(auto)]

mod beside;
mod growths;
mod readers;
mod words;

use anyhow::{Result, bail};
use beside::Judge;
use std::env::{Args, args};
use std::io;
use std::rt::Env;
use std::sync::Wait;
use words::word;

/// What the first word of the command line names.
#[derive(Clone, Copy)]
enum Part {
    /// What takes memory, but for what readers see.
    Growths,
    /// What readers see while memory is refused.
    Readers,
    /// One of those that judge an order, or none of them.
    Judged(Judge),
    /// The certifier beside the plain node, and then an order that the certifier judges.
    Beside,
    /// All that compares, in turn.
    Each,
}

/// The part that the word names.
fn part_of(word: &str) -> Option<Part> {
    match word {
        "growths" => Some(Part::Growths),
        "readers" => Some(Part::Readers),
        "plain" => Some(Part::Judged(Judge::Plain)),
        "certifier" => Some(Part::Judged(Judge::Certifier)),
        "drawn" => Some(Part::Judged(Judge::Drawn)),
        "beside" => Some(Part::Beside),
        "each" => Some(Part::Each),
        _ => None,
    }
}

/// The part that the next word names.
fn next_part(words: &mut Args) -> Result<Part> {
    match part_of(&word(words, "no part")?) {
        Some(part) => Ok(part),
        None => bail!("no part: growths, readers, plain, certifier, drawn, beside or each"),
    }
}

/// Tries this part, as the words behind its name say.
fn run_part<R: Print + AllocGlobal + Wait>(rt: &R, part: Part, words: &mut Args) -> Result<()> {
    match part {
        Part::Growths => growths::show(rt),
        Part::Readers => readers::show(rt),
        Part::Judged(judge) => beside::judge_order(rt, judge, words),
        Part::Beside => beside::compare(rt, words),
        Part::Each => {
            growths::show(rt)?;
            readers::show(rt)?;
            beside::compare(rt, words)
        }
    }
}

/// The words of the command line, asked for again where there was no memory for them.
fn words_of<R: Env + AllocGlobal>(rt: &R) -> io::Result<Args> {
    match args(rt) {
        Err(_) => args(rt),
        words => words,
    }
}

/// Does what the words behind the program's name ask for.
fn run_words<R: Print + AllocGlobal + Wait>(rt: &R, words: &mut Args) -> Result<()> {
    let _program = words.next();
    let part = next_part(words)?;
    run_part(rt, part, words)
}

fn run<R: Env + Print + AllocGlobal + Wait>(rt: &R) -> Result<()> {
    run_words(rt, &mut words_of(rt)?)
}

fn main(rt: HostRuntime) -> Result<()> {
    run(&rt)
}
