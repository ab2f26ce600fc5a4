//! A text without end, as whole lines.

ghost use Rattle.std.specs.Prelude.{◌≡◌, ◌≤◌, ◌<◌, ◌+◌, ◌++◌, ◌∷◌, [], true, false, length, take, drop, Ok, Some, IfOk, IfErr, OnErr, Option, List, ℕ, slice_range};
ghost use Rattle.std.specs.List.{list_any, position};
ghost use Rattle.std.specs.Io.KnownBytes.{Keeps, Consumes, IsAtEnd};
ghost use Rattle.rep_streams.specs.Streams.{Notes};
ghost use Rattle.rep_lines.specs.Lines.{is_feed, HasNoFeed};
ghost use Rattle.rep_lines.specs.Feeds.{ahead, ReadsMore};

use arrayvec::ArrayVec;
use rep_streams::Source;
use rep_types::Refusal;
use std::marker::Model;

/// How many bytes of a line are kept, its line feed not counted: of a longer line the first so many are handed out.
pub const MAX_KEPT: usize = 8192;

/// How many bytes may wait: so many are there for a group of lines.
const BUFFER: usize = 65536;

/// How many bytes stand before the first line feed.
fn feed_place(bytes: &[u8]) -> Option<usize>
    ensures { result ≡ position is_feed bytes.now }
{
    bytes.iter().position(|byte| *byte == b'\n')
}

/// Moves what stands in this range to the front of the buffer, or as much of it as of a line is kept. Answers how much that is.
fn move_to_front(buffer: &mut [u8; BUFFER], start: usize, end: usize) -> usize
    requires order { start ≤ end }
    requires within { end ≤ 65536 }
    ensures front { take result buffer.new ≡ take 8192 (slice_range buffer.old start end) }
    ensures few { result ≤ 8192 }
{
    buffer.copy_within(start..end, 0);
    (end - start).min(MAX_KEPT)
}

/// Reads once of the source, behind so many bytes of the buffer, and answers how many bytes that gave.
fn read_behind<R: Source>(
    buffer: &mut [u8; BUFFER],
    end: usize,
    source: &mut R,
) -> Result<usize, Refusal>
    requires { end < 65536 }
    ensures front { take end buffer.new ≡ take end buffer.old }
    ensures within { IfOk result (λ count. end + count ≤ 65536) }
    ensures count { IfOk result (λ count. length (take count (drop end buffer.new)) ≡ count) }
    ensures read { IfOk result (λ count. Consumes (R.remaining source.old) (R.remaining source.new) (take count (drop end buffer.new))) }
    ensures end { IfOk result (λ count. count ≡ 0 → IsAtEnd (R.remaining source.new)) }
    ensures kept { OnErr result (Keeps (R.remaining source.old) (R.remaining source.new)) }
    ensures refused { IfErr result (λ e. e ≡ Refusal.StreamFault) }
    ensures notes { Notes (R.failed source.old) (R.failed source.new) result }
{
    source.read(&mut buffer[end..])
}

/// Puts these bytes in the place of what the line had.
fn set_line(line: &mut ArrayVec<u8, MAX_KEPT>, bytes: &[u8])
    requires { length bytes.now ≤ 8192 }
    ensures { line.new.items ≡ bytes.now }
{
    line.clear();
    let fitted = line.try_extend_from_slice(bytes);
    prove!(fitted.is_ok());
    let _ = fitted;
}

/// The lines of a text without end. It has two calls that move it: one hands out a line whose line feed came, and asks nobody; the other
/// asks for more of the text, once. So who reads from it decides when it may wait.
///
/// Of a line of more than 8,192 bytes the first 8,192 are handed out. So it takes no memory, whatever the text is.
#[derive(Drop)]
pub struct Feed {
    // What was read; the bytes from `start` to `end` are not yet handed out.
    buffer: [u8; BUFFER],
    start: usize,
    end: usize,
}

impl Model for Feed {
    ghost use Rattle.std.specs.Prelude.{◌≤◌, ℕ, List, slice_range};
    ghost use Rattle.rep_lines.specs.Lines.{clipped};

    ghost Value = { List ℕ };

    ghost view = { λ f. clipped (slice_range f.buffer f.start f.end) };

    ghost invariant = { λ f. (f.start ≤ f.end) × (f.end ≤ 65536) };
}

impl Feed {
    /// A feed that stands at the start of a text.
    pub fn new() -> Feed
        ensures { result ≡ [] }
    {
        Feed {
            buffer: [0; BUFFER],
            start: 0,
            end: 0,
        }
    }

    /// Whether bytes wait: behind the last whole line those of one that has no end yet.
    #[tactic(auto, using(crate::proofs::Clipping::empty_clipped, crate::proofs::Clipping::some_clipped))]
    pub fn is_empty(&self) -> bool
        ensures none { result ≡ true → self.now ≡ [] }
        ensures some { result ≡ false → 0 < length self.now }
    {
        self.start == self.end
    }

    /// Whether a whole line waits.
    pub fn has_line(&self) -> bool
        ensures { result ≡ list_any is_feed self.now }
    {
        feed_place(&self.buffer[self.start..self.end]).is_some()
    }

    /// Hands out the next line, without its line feed, in `line`, where it came whole, and says whether it did: of a line of more than 8,192
    /// bytes the first 8,192. Where none is whole, nothing changes. Nobody is asked for more.
    pub fn next_whole(&mut self, line: &mut ArrayVec<u8, MAX_KEPT>) -> bool
        // The line stood at the front of the text, with its line feed.
        ensures handed { result ≡ true → (self.old ≡ line.new.items ++ 10 ∷ self.new) × HasNoFeed line.new.items }
        ensures ahead { result ≡ true → (left : Option (List ℕ)) → Consumes (ahead self.old left) (ahead self.new left) (line.new.items ++ 10 ∷ []) }
        // None is whole.
        ensures none { result ≡ false → HasNoFeed self.old × (self.new ≡ self.old) × (line.new ≡ line.old) }
    {
        let Some(place) = feed_place(&self.buffer[self.start..self.end]) else {
            return false;
        };
        let kept = place.min(MAX_KEPT);
        set_line(line, &self.buffer[self.start..self.start + kept]);
        self.start += place + 1;
        true
    }

    /// Asks for more of the text, once, and answers `false` where it has ended. Where a whole line waits, nobody is asked and nothing
    /// changes.
    ///
    /// Refuses with `StreamFault` where the source fails, which it notes: nothing was read then.
    pub fn more<R: Source>(&mut self, source: &mut R) -> Result<bool, Refusal>
        ensures waits { list_any is_feed self.old ≡ true → (result ≡ Ok true) × (self.new ≡ self.old) × (source.new ≡ source.old) }
        // Where none waits, and the text goes on, some of it was read, and waits now.
        ensures read { result ≡ Ok true → HasNoFeed self.old → ReadsMore self.old self.new (R.remaining source.old) (R.remaining source.new) }
        // So what is ahead stays.
        ensures ahead { Keeps (ahead self.old (R.remaining source.old)) (ahead self.new (R.remaining source.new)) }
        ensures end { result ≡ Ok false → (self.new ≡ self.old) × IsAtEnd (R.remaining source.new) }
        ensures err { OnErr result (self.new ≡ self.old) }
        ensures refused { IfErr result (λ e. e ≡ Refusal.StreamFault) }
        ensures notes { Notes (R.failed source.old) (R.failed source.new) result }
    {
        if self.has_line() {
            return Ok(true);
        }
        self.end = move_to_front(&mut self.buffer, self.start, self.end);
        self.start = 0;
        let count = read_behind(&mut self.buffer, self.end, source)?;
        self.end += count;
        Ok(count > 0)
    }
}
