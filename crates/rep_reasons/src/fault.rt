//! A refusal that ends the program, with its reason.

ghost use Rattle.std.specs.Prelude.{◌≡◌};
ghost use Rattle.rep_types.specs.declared.refusal.Refusal.TheVariants.{OutOfMemory};

use crate::cause::Cause;
use rep_types::Refusal;
use std::alloc::{AllocError, AllocFailed};
use std::fmt;
use std::marker::Model;

/// The name of standard input.
pub const INPUT: &str = "standard input";

/// The name of standard output.
pub const OUTPUT: &str = "standard output";

/// A refusal that ends the program, and why, where that is known. Contracts see it as the refusal.
#[derive(Drop)]
pub struct Fault<'a> {
    refusal: Refusal,
    /// The name of what is refused, where it has one.
    name: &'a str,
    cause: Option<Cause>,
}

impl<'a> Model for Fault<'a> {
    ghost use Rattle.rep_types.specs.declared.refusal.Refusal.{Refusal as Refused};

    ghost Value = { Refused };

    ghost view = { λ f. f.refusal };
}

impl<'a> Fault<'a> {
    /// This refusal, for this cause. What is refused has no name yet.
    pub fn new(refusal: Refusal, cause: Cause) -> Fault<'a>
        ensures { result ≡ refusal }
    {
        Fault {
            refusal,
            name: "",
            cause: Some(cause),
        }
    }

    /// The same, of what has this name, where it has none yet.
    pub fn of<'b>(self, name: &'b str) -> Fault<'b>
        ensures { result ≡ self.entry }
    {
        Fault {
            refusal: self.refusal,
            name,
            cause: self.cause,
        }
    }

    /// The same of a file that is a disk: what is a stream's fault is the device's.
    pub fn of_disk(self) -> Fault<'a> {
        Fault {
            refusal: match self.refusal {
                Refusal::StreamFault => Refusal::DiskFault,
                refusal => refusal,
            },
            name: self.name,
            cause: self.cause,
        }
    }

    /// The same of a disk that is to be written anew, since a sync of it failed.
    pub fn anew(self) -> Fault<'a> {
        let cause = match self.cause {
            Some(Cause::System(error)) => Some(Cause::Anew(error)),
            cause => cause,
        };
        Fault { cause, ..self }.of_disk()
    }

    /// The same where standard input is closed: of what has its name that is the cause.
    pub fn beside_closed_input(self) -> Fault<'a>
        ensures { result ≡ self.entry }
    {
        let is_of_input = self.refusal == Refusal::StreamFault && self.name == INPUT;
        let cause = if is_of_input {
            Some(Cause::CLOSED)
        } else {
            self.cause
        };
        Fault { cause, ..self }
    }

    /// The refusal.
    pub fn refusal(&self) -> Refusal
        ensures { result ≡ self.now }
    {
        self.refusal
    }

    /// What is to be said of why, where it is known.
    pub fn reason(&self) -> Option<Reason<'a>> {
        let cause = self.cause?;
        Some(Reason {
            name: self.name,
            cause,
        })
    }
}

impl<'a> From<Refusal> for Fault<'a> {
    ghost from_gives = { λ refusal fault. fault ≡ refusal };

    fn from(refusal: Refusal) -> Fault<'a> {
        Fault {
            refusal,
            name: "",
            cause: None,
        }
    }
}

impl<'a> From<AllocError> for Fault<'a> {
    ghost from_gives = { λ _ fault. fault ≡ OutOfMemory };

    fn from(_refused: AllocError) -> Fault<'a> {
        Fault::from(Refusal::OutOfMemory)
    }
}

impl<'a, T: Drop> From<AllocFailed<T>> for Fault<'a> {
    ghost from_gives = { λ _ fault. fault ≡ OutOfMemory };

    fn from(_refused: AllocFailed<T>) -> Fault<'a> {
        Fault::from(Refusal::OutOfMemory)
    }
}

/// What is said of a refusal, in one line: the name of what is refused, and the cause.
#[derive(Clone, Copy)]
pub struct Reason<'a> {
    name: &'a str,
    cause: Cause,
}

impl fmt::Display for Reason<'_> {
    /// A character of the name that would not show itself, as a line feed, becomes `?`.
    fn fmt<W: fmt::Write>(&self, f: &mut fmt::Formatter<W>) -> fmt::Result {
        for letter in self.name.chars() {
            let shown = if letter.is_control() { '?' } else { letter };
            f.write_char(shown)?;
        }
        if !self.name.is_empty() {
            f.write_str(": ")?;
        }
        write!(f, "{}", self.cause)
    }
}
