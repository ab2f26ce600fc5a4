//! The lines of the text that a node is handed, counted.

ghost use Rattle.std.specs.Prelude.{◌≡◌, ◌<◌, ◌^◌, ◌⊎◌, ◌∷◌, ◌++◌, ℕ, List, Option, [], true, false, IfErr};
ghost use Rattle.std.specs.Io.KnownBytes.{Consumes};
ghost use Rattle.rep_streams.specs.Streams.{Notes};
ghost use Rattle.rep_lines.specs.Lines.{HasNoFeed};
ghost use Rattle.rep_lines.specs.Feeds.{ahead};
ghost use Rattle.rep_replica.specs.Replicas.{facts_of};
ghost use Rattle.rep_service.specs.Inputs.{counted, HandsNext};

use arrayvec::ArrayVec;
use rep_disk::Disk;
use rep_lines::{Feed, MAX_KEPT};
use rep_replica::Replica;
use rep_streams::Source;
use rep_types::Refusal;

/// The text that a node is handed, line by line: what of it was not handed out, the line that was handed out last, and how many lines were.
#[derive(Drop)]
pub(crate) struct Input {
    pub(crate) feed: Feed,
    pub(crate) line: ArrayVec<u8, MAX_KEPT>,
    /// How many lines were handed out; the count stops at 2^64 - 1.
    pub(crate) number: u64,
}

impl Input {
    /// An input that stands at the start of a text.
    pub(crate) fn new() -> Input
        ensures feed { result.feed ≡ [] }
        ensures number { result.number ≡ 0 }
    {
        Input {
            feed: Feed::new(),
            line: ArrayVec::new(),
            number: 0,
        }
    }

    /// Hands out the next line, and counts it, where its line feed came. Nobody is asked for more.
    fn next_waiting(&mut self) -> bool
        ensures handed { result ≡ true → HasNoFeed self.new.line.items × (self.new.number ≡ counted self.old.number 1) }
        ensures ahead { result ≡ true → (left : Option (List ℕ)) → Consumes (ahead self.old.feed left) (ahead self.new.feed left) (self.new.line.items ++ 10 ∷ []) }
        ensures none { result ≡ false → HasNoFeed self.old.feed × (self.new ≡ self.old) }
    {
        if !self.feed.next_whole(&mut self.line) {
            return false;
        }
        self.number = self.number.saturating_add(1);
        true
    }

    /// Counts so many lines more, which were handed out elsewhere.
    pub(crate) fn count(&mut self, lines: u64)
        ensures { self.new ≡ record self.old { number = counted self.old.number lines } }
    {
        self.number = self.number.saturating_add(lines);
    }

    /// The number that the next line has.
    pub(crate) fn next_number(&self) -> u64
        ensures next { result ≡ counted self.now.number 1 }
        ensures fits { self.now.number < 2 ^ 64 }
    {
        self.number.saturating_add(1)
    }

    /// Hands out the next line, and counts it; the source is asked for more only where none waits. Answers `false` at the end of the text.
    ///
    /// Nobody waits for a receipt while the node waits for its text: all that was delivered is durable.
    ///
    /// Refuses with `StreamFault` where the source fails, which it notes.
    pub(crate) fn next_line<D: Disk, R: Source>(
        &mut self,
        replica: &Replica<D>,
        source: &mut R,
    ) -> Result<bool, Refusal>
        requires { (facts_of D.Disk replica.now).ahead ≡ [] }
        ensures hands { HandsNext self.old.number self.new.feed (R.remaining source.new) (ahead self.old.feed (R.remaining source.old)) (ahead self.new.feed (R.remaining source.new)) self.new.line.items result self.new.number }
        ensures notes { Notes (R.failed source.old) (R.failed source.new) result }
        ensures refused { IfErr result (λ e. (e ≡ Refusal.StreamFault) ⊎ (e ≡ Refusal.Exhausted)) }
    {
        let _ = replica;
        for _ in 0..u64::MAX {
            if self.next_waiting() {
                return Ok(true);
            }
            match self.feed.more(source) {
                Ok(true) => {}
                Ok(false) => return Ok(false),
                Err(refusal) => return Err(refusal),
            }
        }
        Err(Refusal::Exhausted)
    }
}
