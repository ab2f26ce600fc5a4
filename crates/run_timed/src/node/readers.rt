//! Readers that look rows up beside the batch.

use crate::node::items::{is_right, row_of};
use rep_node::NodeReader;
use rep_types::Refusal;
use std::alloc::{AllocError, Global};
use std::sync::Arc;
use std::sync::atomic::{AtomicBool, Ordering};
use std::thread::{JoinHandle, Threads, spawn, yield_now};

/// How often a reader looks rows up before it asks for the front again.
const LOOKS: u64 = 64;

/// Whether the batch is over, which readers look at.
#[derive(Drop)]
struct Over {
    told: Arc<AtomicBool>,
}

impl Over {
    /// It is not over yet.
    fn not_yet(alloc: Global) -> Result<Over, AllocError> {
        Ok(Over {
            told: Arc::new(alloc, AtomicBool::new(false))?,
        })
    }

    /// The same for a thread of its own; nothing where it can't be shared once more.
    fn for_reader(&self) -> Option<Over> {
        let told = Arc::try_clone(&self.told).ok()?;
        Some(Over { told })
    }

    /// Tells the readers that it is over.
    fn tell(&self) {
        self.told.store(true, Ordering::SeqCst);
    }

    fn is_told(&self) -> bool {
        self.told.load(Ordering::SeqCst)
    }
}

/// How many readers there were, how often they looked rows up, and how often with an answer that is not right.
#[derive(Clone, Copy)]
pub(crate) struct Tally {
    pub(crate) readers: usize,
    pub(crate) peeks: u64,
    pub(crate) wrong: u64,
}

impl Tally {
    /// No look-up yet.
    fn nothing() -> Tally {
        Tally {
            readers: 0,
            peeks: 0,
            wrong: 0,
        }
    }

    /// With the readers and the look-ups of another.
    fn with(self, other: Tally) -> Tally {
        Tally {
            readers: self.readers.saturating_add(other.readers),
            peeks: self.peeks.saturating_add(other.peeks),
            wrong: self.wrong.saturating_add(other.wrong),
        }
    }
}

/// Asks for the front, and looks up there the rows that are written by the items with its number and with those before it. It says how often the
/// answer was not right.
fn look_round(reader: NodeReader) -> (NodeReader, u64) {
    let (mut reader, front) = reader.front();
    let mut wrong = 0u64;
    for back in 0..LOOKS {
        let key = row_of(front.saturating_sub(back));
        let (looked, answer) = reader.peek(key, front);
        reader = looked;
        if !is_right(key, &answer) {
            wrong = wrong.saturating_add(1);
        }
    }
    (reader, wrong)
}

/// Looks rows up until it is told that the batch is over, at least once round.
fn watch(reader: NodeReader, over: &Over) -> Tally {
    let mut reader = reader;
    let mut peeks = 0u64;
    let mut all = 0u64;
    for _ in 0..u64::MAX {
        let (looked, wrong) = look_round(reader);
        reader = looked;
        peeks = peeks.saturating_add(LOOKS);
        all = all.saturating_add(wrong);
        if over.is_told() {
            break;
        }
        yield_now();
    }
    Tally {
        readers: 1,
        peeks,
        wrong: all,
    }
}

/// Starts a reader in a thread of its own, where there is one.
fn started<R: Threads>(rt: &R, reader: NodeReader, over: &Over) -> Option<JoinHandle<Tally>> {
    let over = over.for_reader()?;
    spawn(rt, move || watch(reader, &over)).ok()
}

/// The readers that look rows up in threads of their own until the batch is over.
#[derive(Drop)]
pub(crate) struct Watchers {
    over: Over,
    threads: Vec<JoinHandle<Tally>>,
}

impl Watchers {
    /// No reader yet, with room for so many.
    pub(crate) fn with_room(alloc: Global, readers: usize) -> Result<Watchers, Refusal> {
        let over = Over::not_yet(alloc)?;
        let threads = Vec::with_capacity(alloc, readers)?;
        Ok(Watchers { over, threads })
    }

    /// Starts so many of the readers, as far as there are threads and room for their handles.
    pub(crate) fn start<R: Threads>(&mut self, rt: &R, mut readers: Vec<NodeReader>, count: usize) {
        for _ in 0..count {
            let Some(reader) = readers.pop() else {
                break;
            };
            let Some(thread) = started(rt, reader, &self.over) else {
                break;
            };
            if self.threads.push(thread).is_err() {
                break;
            }
        }
    }

    /// Tells the readers that the batch is over, waits for them to end, and says what they all found.
    pub(crate) fn end<R: Threads>(&mut self, rt: &R) -> Tally {
        self.over.tell();
        let mut all = Tally::nothing();
        for thread in self.threads.drain(..) {
            all = all.with(thread.join(rt));
        }
        all
    }
}
