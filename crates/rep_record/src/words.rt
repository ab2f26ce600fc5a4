//! A line as words.

ghost use Rattle.std.specs.Prelude.{◌≡◌, ◌≢◌, ◌<◌, ◌≤◌, ◌∷◌, ◌↔◌, ◌==◌, [], length, drop, slice_index, IsTrue, MatchOption, if◌then◌else◌};
ghost use Rattle.std.specs.List.{position, position_or_len};
ghost use Rattle.rep_record.specs.Words.{words, is_space, is_blank};
ghost use Rattle.rep_record.specs.Reading.{is_next};

use std::marker::Model;

/// Whether the line has spaces alone.
fn has_only_spaces(line: &[u8]) -> bool
    ensures { result ≡ is_blank line.now }
{
    line.iter().all(|byte| *byte == b' ')
}

/// Whether the line has no words.
#[tactic(auto, using(crate::proofs::Lines::no_words))]
pub fn is_blank(line: &[u8]) -> bool
    ensures value { result ≡ is_blank line.now }
    ensures no_words { IsTrue result ↔ (words line.now ≡ []) }
{
    has_only_spaces(line)
}

/// The line from its first word on.
fn from_first_word(line: &[u8]) -> &[u8]
    ensures same { words result.now ≡ words line.now }
    ensures filled { 0 < length result.now → slice_index result.now 0 ≢ 32 }
{
    let mut rest = line;
    while let [b' ', after @ ..] = rest {
        rest = after;
    }
    rest
}

/// Where the byte stands first in the text.
pub(crate) fn place_of(byte: u8, text: &[u8]) -> Option<usize>
    ensures { result ≡ position (λ b. b == byte) text.now }
{
    text.iter().position(|b| *b == byte)
}

/// How many bytes stand before the first space.
#[tactic(auto, using(crate::proofs::Lines::position_or_end))]
fn word_len(line: &[u8]) -> usize
    ensures value { result ≡ position_or_len is_space line.now }
    ensures within { result ≤ length line.now }
{
    place_of(b' ', line).unwrap_or(line.len())
}

/// The first word of the line, and what stands behind it.
#[tactic(auto, using(crate::proofs::Lines::words_split))]
fn split_word(line: &[u8]) -> Option<(&[u8], &[u8])>
    ensures { MatchOption result (words line.now ≡ []) (λ parts. words line.now ≡ parts.0.now ∷ words parts.1.now) }
{
    let line = from_first_word(line);
    if line.is_empty() {
        return None;
    }
    Some(line.split_at(word_len(line)))
}

/// The words of a line that are still to be read: what stands between its spaces.
#[derive(Drop)]
pub struct Words<'a> {
    rest: &'a [u8],
}

impl<'a> Model for Words<'a> {
    ghost use Rattle.std.specs.Prelude.{ℕ, List};
    ghost use Rattle.rep_record.specs.Words.{words};

    ghost Value = { List (List ℕ) };

    ghost view = { λ w. words w.rest.now };
}

impl<'a> Words<'a> {
    /// The words of the line.
    pub fn new(line: &'a [u8]) -> Words<'a>
        ensures { result ≡ words line.now }
    {
        Words { rest: line }
    }

    /// Whether no word is left.
    pub fn is_empty(&self) -> bool
        ensures { result ≡ (length self.now == 0) }
    {
        is_blank(self.rest)
    }

    /// Whether the next word is this one.
    pub fn is_next(&self, text: &[u8]) -> bool
        ensures { result ≡ is_next text.now self.now }
    {
        match split_word(self.rest) {
            Some((word, _)) => word == text,
            None => false,
        }
    }

    /// The next word, which is then read.
    pub fn next_word(&mut self) -> Option<&'a [u8]>
        ensures { MatchOption result ((self.old ≡ []) × (self.new ≡ [])) (λ word. self.old ≡ word.now ∷ self.new) }
    {
        let (word, rest) = split_word(self.rest)?;
        self.rest = rest;
        Some(word)
    }

    /// Reads the next word where it is this one, and says whether it was.
    pub fn skip(&mut self, text: &[u8]) -> bool
        ensures value { result ≡ is_next text.now self.old }
        ensures rest { self.new ≡ (if result then drop 1 self.old else self.old) }
    {
        let found = self.is_next(text);
        if found {
            let _ = self.next_word();
        }
        found
    }
}
