//! A text whose last lines are kept, to be read a second time.

ghost use Rattle.std.specs.Prelude.{◌≡◌};

use crate::cause::Cause;
use crate::fault::{Fault, INPUT, OUTPUT};
use crate::limits::Outside;
use crate::line::{Kind, Wrong, wrong_with};
use crate::noted::Noted;
use crate::words::{outside_of_line, size_in};
use arrayvec::ArrayVec;
use rep_record::{MAX_LINE, Words, is_blank, read_order_line, read_params_line, read_stated};
use rep_types::{Refusal, read_number};
use std::fmt;
use std::io::{self, Read};

/// So many bytes of the text are kept at most, however long it is.
const KEPT: usize = 81_920;

/// So many of them stay where there is no room for more: over a line, which the reader may not have had to its end.
const STAY: usize = MAX_LINE + 2;

/// So many are taken at once: what stays and they have room. No reader here asks for more by one read, so all of that is kept.
const PIECE: usize = KEPT - STAY;

/// What the lines of a text are.
#[derive(Clone, Copy)]
pub enum Form {
    /// A params line, and then items.
    Order,
    /// Items.
    Batch,
    /// A params line, and then the commands of a script on a disk in memory.
    Script,
    /// The commands of a script on a disk that is a file.
    ScriptOnFile,
    /// The position of an order, and then what is asked of a node that follows it: a text without end.
    Followed,
}

impl Form {
    /// What a line is: the first one with words, or one behind it.
    fn kind(self, is_first: bool) -> Kind {
        match self {
            Form::Order | Form::Script if is_first => Kind::Params,
            Form::Followed if is_first => Kind::Position,
            Form::Followed => Kind::Asked,
            Form::Order | Form::Batch => Kind::Item,
            Form::Script => Kind::Command,
            Form::ScriptOnFile => Kind::CommandOnFile,
        }
    }
}

/// A line that is refused: its number, and what is wrong with it.
#[derive(Clone, Copy)]
pub struct WrongLine {
    number: u64,
    wrong: WrongIn,
}

/// What is wrong with a line.
#[derive(Clone, Copy)]
enum WrongIn {
    /// It is not of its form.
    Form(Wrong),
    /// One of its parameters is outside its limits.
    Limits(Outside),
}

impl fmt::Display for WrongLine {
    fn fmt<W: fmt::Write>(&self, f: &mut fmt::Formatter<W>) -> fmt::Result {
        write!(f, "line {}", self.number)?;
        match self.wrong {
            WrongIn::Form(wrong) => write!(f, "{wrong}"),
            WrongIn::Limits(outside) => write!(f, ": {outside}"),
        }
    }
}

/// The last lines of a text.
#[derive(Drop)]
struct Tail {
    bytes: ArrayVec<u8, KEPT>,
    /// The line feeds before them.
    lines: u64,
    /// Whether a word stands before them, and whether they begin in the middle of a line.
    has_words: bool,
    is_cut: bool,
}

/// How many line feeds the bytes have.
fn feeds_in(bytes: &[u8]) -> u64 {
    bytes.iter().filter(|byte| **byte == b'\n').count() as u64
}

impl Tail {
    /// That of a text of which nothing was read.
    fn new() -> Tail {
        Tail {
            bytes: ArrayVec::new(),
            lines: 0,
            has_words: false,
            is_cut: false,
        }
    }

    /// Lets the first bytes go, but for those that stay.
    fn make_room(&mut self) {
        let cut = self.bytes.len().saturating_sub(STAY);
        let (gone, left) = self.bytes.as_slice().split_at(cut);
        let mut bytes = ArrayVec::new();
        let _ = bytes.try_extend_from_slice(left);
        self.lines = self.lines.saturating_add(feeds_in(gone));
        self.has_words = self.has_words || gone.iter().any(|byte| *byte != b' ' && *byte != b'\n');
        self.is_cut = gone.last() != Some(&b'\n') && (self.is_cut || !gone.is_empty());
        self.bytes = bytes;
    }

    /// Keeps these bytes, which come next.
    fn keep(&mut self, bytes: &[u8]) {
        for piece in bytes.chunks(PIECE) {
            if self.bytes.try_extend_from_slice(piece).is_err() {
                self.make_room();
                let _ = self.bytes.try_extend_from_slice(piece);
            }
        }
    }

    /// Whether the text ends in the middle of its line with this number.
    fn is_cut_at(&self, number: u64) -> bool {
        let bytes = self.bytes.as_slice();
        let feeds = self.lines.saturating_add(feeds_in(bytes));
        number == feeds.saturating_add(1) && !bytes.is_empty() && bytes.last() != Some(&b'\n')
    }

    /// The line that is no line, since the text ends in its middle, where it is that which is refused so.
    fn cut_line(&self, form: Form, refusal: Refusal) -> Option<WrongLine> {
        match (form, refusal) {
            (Form::Followed, Refusal::Malformed { at }) if self.is_cut_at(at) => {
                let wrong = WrongIn::Form(Wrong::with_line(
                    "the text ends in it, before its line feed",
                ));
                Some(WrongLine { number: at, wrong })
            }
            _ => None,
        }
    }

    /// The line of this text that is refused so.
    fn refused_line(&self, form: Form, refusal: Refusal) -> Option<WrongLine> {
        if let Some(line) = self.cut_line(form, refusal) {
            return Some(line);
        }
        let mut number = self.lines;
        let mut has_words = self.has_words;
        let mut is_whole = !self.is_cut;
        for line in self.bytes.as_slice().split(|byte| *byte == b'\n') {
            number = number.saturating_add(1);
            let kind = form.kind(!has_words);
            if is_whole && is_refused_line(kind, line, number, refusal) {
                return wrong_line(kind, line, number, refusal);
            }
            has_words = has_words || !is_blank(line);
            is_whole = true;
        }
        None
    }
}

/// The refusal of the item that the words say behind `deliver` and a seqno, where they do.
fn refusal_of_delivery(line: &[u8]) -> Option<Refusal> {
    let mut words = Words::new(line);
    if !words.skip(b"deliver") {
        return None;
    }
    let _ = read_number(words.next_word()?)?;
    read_stated(words, 0).err()
}

/// The refusal of a line of this kind that is of its form.
fn refusal_of_line(kind: Kind, line: &[u8]) -> Option<Refusal> {
    match kind {
        Kind::Params => read_params_line(line, 0).err(),
        Kind::Item => read_order_line(line, 0).err(),
        Kind::Command | Kind::CommandOnFile => refusal_of_delivery(line),
        Kind::Position | Kind::Asked => None,
    }
}

/// Whether it is the line with this number, of this kind, that is refused so. The line of one that is malformed is known by its number.
fn is_refused_line(kind: Kind, line: &[u8], number: u64, refusal: Refusal) -> bool {
    if let Refusal::Malformed { at } = refusal {
        return at == number;
    }
    !is_blank(line) && refusal_of_line(kind, line) == Some(refusal)
}

/// What is wrong with parameters that are outside the limits.
fn wrong_limits(kind: Kind, line: &[u8]) -> Option<WrongIn> {
    match kind {
        Kind::Params => Some(WrongIn::Limits(outside_of_line(line)?)),
        _ => Some(WrongIn::Limits(Outside::Window(size_in(line)?))),
    }
}

/// What is wrong with the line with this number, of this kind, that is refused so.
fn wrong_line(kind: Kind, line: &[u8], number: u64, refusal: Refusal) -> Option<WrongLine> {
    let wrong = match refusal {
        Refusal::Malformed { .. } => WrongIn::Form(wrong_with(kind, line)?),
        Refusal::TooManyReads => WrongIn::Form(Wrong::with_line("over 16 reads")),
        Refusal::TooManyWrites => WrongIn::Form(Wrong::with_line("over 16 writes")),
        Refusal::ValueTooLong => WrongIn::Form(Wrong::with_line("a value of over 62 bytes")),
        Refusal::BadParams => wrong_limits(kind, line)?,
        _ => return None,
    };
    Some(WrongLine { number, wrong })
}

/// A text that is read from a reader, and of which the last lines are kept.
#[derive(Drop)]
pub struct Text<R: Read + Drop> {
    reader: Noted<R>,
    tail: Tail,
}

impl<R: Read + Drop> Text<R> {
    /// The text that this reader gives.
    pub fn new(reader: R) -> Text<R> {
        Text {
            reader: Noted::new(reader),
            tail: Tail::new(),
        }
    }

    /// Why this text, of this form, was refused so, where that is known.
    fn cause(&self, form: Form, refusal: Refusal) -> Option<Cause> {
        if refusal != Refusal::StreamFault {
            return Some(Cause::Line(self.tail.refused_line(form, refusal)?));
        }
        match (self.reader.error(), form) {
            (Some(error), _) => Some(Cause::System(error)),
            (None, Form::Followed) => None,
            (None, _) => Some(Cause::TOO_LONG),
        }
    }

    /// The fault of this text, of this form, which was refused so.
    pub fn fault<'a>(&self, form: Form, refusal: Refusal) -> Fault<'a>
        ensures { result ≡ refusal }
    {
        match self.cause(form, refusal) {
            Some(cause) => Fault::new(refusal, cause),
            None => Fault::from(refusal),
        }
    }
}

impl<R: Read + Drop> Text<R> {
    /// The same where this text is standard input, beside standard output: a stream's fault is that of the one that noted an error.
    pub fn fault_beside<'a, W: Drop>(
        &self,
        form: Form,
        output: &Noted<W>,
        refusal: Refusal,
    ) -> Fault<'a>
        ensures { result ≡ refusal }
    {
        if refusal == Refusal::StreamFault && output.error().is_some() {
            return output.fault().of(OUTPUT);
        }
        self.fault(form, refusal).of(INPUT)
    }
}

impl<R: Read + Drop> Read for Text<R> {
    ghost remaining = { λ t. R.remaining t.reader.inside };

    fn read(&mut self, room: &mut [u8]) -> io::Result<usize> {
        let outcome = self.reader.read(room);
        if let Ok(count) = &outcome {
            self.tail.keep(&room[..*count]);
        }
        outcome
    }
}
