//! Why something is refused.

use crate::limits::Outside;
use crate::system::words_of;
use crate::text::WrongLine;
use std::{fmt, io};

/// A part of a disk that is not of its form: what it is, and the offset at which it begins, in bytes.
#[derive(Clone, Copy)]
pub struct Damage {
    pub part: &'static str,
    pub at: u64,
}

impl fmt::Display for Damage {
    fn fmt<W: fmt::Write>(&self, f: &mut fmt::Formatter<W>) -> fmt::Result {
        write!(f, "the {} at {} is not of its form", self.part, self.at)
    }
}

/// Why something is refused. It shows itself as words for people.
#[derive(Clone, Copy)]
pub enum Cause {
    /// The system refused it, and said this.
    System(io::Error),
    /// A disk is to be written anew, since a sync of it failed, and the system refused that, and said this.
    Anew(io::Error),
    /// These words say it.
    Words(&'static str),
    /// A parameter is outside its limits.
    Limits(Outside),
    /// A line of a text is not as it has to be.
    Line(WrongLine),
    /// A part of a disk is not of its form.
    Damaged(Damage),
    /// A file has so many bytes, and a disk of its kind more.
    Short { has: u64, needs: u64 },
}

impl Cause {
    /// Another program changes the disk.
    pub const IN_USE: Cause = Cause::Words("in use by another program");

    /// A stream is closed.
    pub const CLOSED: Cause = Cause::Words("it is closed");

    /// A text is too long.
    pub const TOO_LONG: Cause = Cause::Words("over 67,108,864 bytes");

    /// Other programs read the disk, which is to be changed.
    pub const IS_READ: Cause = Cause::Words("others are reading it");
}

impl From<io::Error> for Cause {
    fn from(error: io::Error) -> Cause {
        Cause::System(error)
    }
}

/// Writes what the system said.
fn write_system<W: fmt::Write>(f: &mut fmt::Formatter<W>, error: &io::Error) -> fmt::Result {
    match words_of(error) {
        Some(words) => f.write_str(words),
        None => write!(f, "{error}"),
    }
}

impl fmt::Display for Cause {
    fn fmt<W: fmt::Write>(&self, f: &mut fmt::Formatter<W>) -> fmt::Result {
        match self {
            Cause::System(error) => write_system(f, error),
            Cause::Anew(error) => {
                f.write_str("a sync of it failed, and it cannot be written anew: ")?;
                write_system(f, error)
            }
            Cause::Words(words) => f.write_str(words),
            Cause::Limits(outside) => write!(f, "{outside}"),
            Cause::Line(line) => write!(f, "{line}"),
            Cause::Damaged(damage) => write!(f, "{damage}"),
            Cause::Short { has, needs } => write!(f, "{has} bytes, and it needs {needs}"),
        }
    }
}
