//! What in a line is not of its form: the line is read a second time, word by word.

use crate::words::{wrong_gtid, wrong_key, wrong_label, wrong_number, wrong_write};
use rep_record::{MAX_LINE, Words};
use std::fmt;

/// What a line of a text has to be.
#[derive(Clone, Copy)]
pub(crate) enum Kind {
    /// A params line.
    Params,
    /// An item: a write set, or a change of the window's size.
    Item,
    /// A command of a script on a disk in memory.
    Command,
    /// A command of a script on a disk that is a file, which knows no stop.
    CommandOnFile,
    /// The line that says behind which position the items come that a node follows.
    Position,
    /// A line that asks something of a node that follows an order.
    Asked,
}

/// What is wrong in a line, and at which word, from 1; at no word where it is of the whole line.
#[derive(Clone, Copy)]
pub struct Wrong {
    word: u32,
    what: &'static str,
}

impl Wrong {
    /// This is wrong with the whole line.
    pub(crate) fn with_line(what: &'static str) -> Wrong {
        Wrong { word: 0, what }
    }
}

impl fmt::Display for Wrong {
    /// It stands behind the line's number.
    fn fmt<W: fmt::Write>(&self, f: &mut fmt::Formatter<W>) -> fmt::Result {
        if self.word > 0 {
            write!(f, ", word {}", self.word)?;
        }
        write!(f, ": {}", self.what)
    }
}

/// The words of a line, which are counted.
#[derive(Drop)]
struct Counted<'a> {
    words: Words<'a>,
    /// The number of the word that was read last, from 1.
    word: u32,
}

impl<'a> Counted<'a> {
    /// Those of this line.
    fn of(line: &'a [u8]) -> Counted<'a> {
        Counted {
            words: Words::new(line),
            word: 0,
        }
    }

    /// Reads the next word where it is this one, and says whether it was.
    fn skip(&mut self, text: &[u8]) -> bool {
        let found = self.words.skip(text);
        if found {
            self.word = self.word.saturating_add(1);
        }
        found
    }

    /// This is wrong with the word that was read last.
    fn wrong(&self, what: &'static str) -> Wrong {
        Wrong {
            word: self.word,
            what,
        }
    }

    /// The next word.
    fn next(&mut self) -> Result<&'a [u8], Wrong> {
        match self.words.next_word() {
            Some(word) => {
                self.word = self.word.saturating_add(1);
                Ok(word)
            }
            None => Err(Wrong::with_line("it ends too early")),
        }
    }

    /// What the answer says of the word that was read last.
    fn found(&self, what: Option<&'static str>) -> Result<(), Wrong> {
        match what {
            Some(what) => Err(self.wrong(what)),
            None => Ok(()),
        }
    }

    /// Reads a number of at most the limit.
    fn number(&mut self, limit: u64) -> Result<(), Wrong> {
        let word = self.next()?;
        self.found(wrong_number(word, limit))
    }

    /// Reads a key.
    fn key(&mut self) -> Result<(), Wrong> {
        let word = self.next()?;
        self.found(wrong_key(word))
    }

    /// Reads labels, where there are any.
    fn labels(&mut self) -> Result<(), Wrong> {
        if !self.skip(b"id") {
            return Ok(());
        }
        let word = self.next()?;
        self.found(wrong_label(word))
    }

    /// Reads the keys that are read, where there are any, up to the word `w`.
    fn reads(&mut self) -> Result<(), Wrong> {
        if !self.skip(b"r") {
            return Ok(());
        }
        self.key()?;
        for _ in 0..MAX_LINE {
            if self.words.is_next(b"w") {
                return Ok(());
            }
            self.key()?;
        }
        Ok(())
    }

    /// Reads the writes, of which there has to be one.
    fn writes(&mut self) -> Result<(), Wrong> {
        if !self.skip(b"w") {
            self.next()?;
            return Err(self.wrong("neither `id`, `r` nor `w` in its place"));
        }
        for at in 0..MAX_LINE {
            if at > 0 && self.words.is_empty() {
                return Ok(());
            }
            let word = self.next()?;
            self.found(wrong_write(word))?;
        }
        Ok(())
    }

    /// Reads what stands behind `item`, all there is.
    fn tail(&mut self) -> Result<(), Wrong> {
        self.number(u64::MAX)?;
        self.labels()?;
        self.reads()?;
        self.writes()?;
        Err(Wrong::with_line("keys that do not ascend"))
    }

    /// Reads what stands behind `window`.
    fn change(&mut self) -> Result<(), Wrong> {
        self.number(u64::MAX)?;
        self.labels()?;
        self.end()
    }

    /// Reads no further word.
    fn end(&mut self) -> Result<(), Wrong> {
        if self.words.is_empty() {
            return Ok(());
        }
        self.next()?;
        Err(self.wrong("one word too many"))
    }

    /// Reads a params line.
    fn params(&mut self) -> Result<(), Wrong> {
        if !self.skip(b"params") {
            self.next()?;
            return Err(self.wrong("not `params`, by which the text has to begin"));
        }
        for at in 0..MAX_LINE {
            if at > 2 && self.words.is_empty() {
                return Ok(());
            }
            self.number(u64::from(u32::MAX))?;
        }
        Ok(())
    }

    /// Reads an item.
    fn item(&mut self) -> Result<(), Wrong> {
        if self.skip(b"item") {
            return self.tail();
        }
        if self.skip(b"window") {
            return self.change();
        }
        self.next()?;
        Err(self.wrong("neither `item` nor `window`"))
    }

    /// Reads what stands behind `deliver`.
    fn delivery(&mut self) -> Result<(), Wrong> {
        self.number(u64::MAX)?;
        if self.skip(b"window") {
            return self.change();
        }
        self.tail()
    }

    /// Reads what stands behind `stop`.
    fn stop(&mut self) -> Result<(), Wrong> {
        if self.skip(b"keep") || self.skip(b"drop") || self.skip(b"junk") {
            return self.end();
        }
        self.next()?;
        Err(self.wrong("neither `keep`, `drop` nor `junk`"))
    }

    /// Whether the next word is a command by itself, which is then read.
    fn skip_alone(&mut self) -> bool {
        self.skip(b"log")
            || self.skip(b"sync")
            || self.skip(b"check")
            || self.skip(b"state")
            || self.skip(b"limits")
    }

    /// Reads what stands behind `read`.
    fn read(&mut self) -> Result<(), Wrong> {
        self.key()?;
        self.number(u64::MAX)?;
        self.end()
    }

    /// Reads what stands behind `sum`.
    fn sum(&mut self) -> Result<(), Wrong> {
        if !self.words.is_empty() {
            self.number(u64::MAX)?;
        }
        self.end()
    }

    /// Reads what stands behind `flush`.
    fn flush(&mut self) -> Result<(), Wrong> {
        self.number(u64::MAX)?;
        self.end()
    }

    /// Reads a command that every script knows.
    fn command(&mut self) -> Result<(), Wrong> {
        if self.skip_alone() {
            return self.end();
        }
        if self.skip(b"deliver") {
            return self.delivery();
        }
        if self.skip(b"flush") {
            return self.flush();
        }
        if self.skip(b"read") {
            return self.read();
        }
        if self.skip(b"sum") {
            return self.sum();
        }
        self.next()?;
        Err(self.wrong("a word that is no command"))
    }

    /// Reads a command of a script on a disk in memory.
    fn command_in_memory(&mut self) -> Result<(), Wrong> {
        if self.skip(b"stop") {
            return self.stop();
        }
        self.command()
    }

    /// Reads a command of a script on a disk that is a file.
    fn command_on_file(&mut self) -> Result<(), Wrong> {
        if self.words.is_next(b"stop") || self.words.is_next(b"params") {
            return Err(Wrong {
                word: 1,
                what: "no command of a script on a file",
            });
        }
        self.command()
    }

    /// Reads the line that says the position.
    fn position(&mut self) -> Result<(), Wrong> {
        if !self.skip(b"order") {
            self.next()?;
            return Err(self.wrong("not `order`, by which the text has to begin"));
        }
        let word = self.next()?;
        self.found(wrong_gtid(word))?;
        self.end()
    }

    /// Reads a line that asks something of a node: one that is malformed has no seqno, though it begins with a digit.
    fn asked(&mut self) -> Result<(), Wrong> {
        let word = self.next()?;
        self.found(wrong_number(word, u64::MAX))?;
        Err(self.wrong("a number of over 20 digits, or without a space behind it"))
    }

    /// Reads a line of this kind.
    fn line(&mut self, kind: Kind) -> Result<(), Wrong> {
        match kind {
            Kind::Params => self.params(),
            Kind::Item => self.item(),
            Kind::Command => self.command_in_memory(),
            Kind::CommandOnFile => self.command_on_file(),
            Kind::Position => self.position(),
            Kind::Asked => self.asked(),
        }
    }
}

/// A byte of the line that no line has, by what it is.
fn wrong_byte(line: &[u8]) -> Option<&'static str> {
    if line.contains(&b'\r') {
        return Some("a carriage return");
    }
    if line.contains(&b'\t') {
        return Some("a tab");
    }
    if line.iter().all(|byte| (b' '..=b'~').contains(byte)) {
        return None;
    }
    Some("a byte that is no text")
}

/// What is wrong with a line that is to be of this kind, and is malformed.
pub(crate) fn wrong_with(kind: Kind, line: &[u8]) -> Option<Wrong> {
    if let Kind::Asked = kind {
        return Counted::of(line).line(kind).err();
    }
    if line.len() > MAX_LINE {
        return Some(Wrong::with_line("over 4,096 bytes"));
    }
    if let Some(what) = wrong_byte(line) {
        return Some(Wrong::with_line(what));
    }
    Counted::of(line).line(kind).err()
}
