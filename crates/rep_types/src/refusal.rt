//! Why a call was refused.

ghost use Rattle.std.specs.Prelude.{◌≡◌};
ghost use Rattle.rep_types.specs.declared.refusal.Refusal.TheVariants.{OutOfMemory};
ghost use Rattle.rep_types.specs.Refusals.{refusal_number, part_name, refusal_name, refusal_data};

use std::alloc::{AllocError, AllocFailed};
use std::error::Error;
use std::fmt;

/// A part of the disk whose bytes are not of their form.
#[derive(Clone, Copy, Debug, PartialEq, Eq)]
pub enum Part {
    Superblock,
    Window,
    Log,
    Pages,
}

impl Part {
    /// What the part is called.
    pub fn name(self) -> &'static str
        ensures { result.now ≡ part_name self }
    {
        match self {
            Part::Superblock => "superblock",
            Part::Window => "window",
            Part::Log => "log",
            Part::Pages => "pages",
        }
    }
}

/// Why a call was refused. It shows itself as its name, and behind a space its data where it has some.
#[derive(Clone, Copy, Debug, PartialEq, Eq)]
pub enum Refusal {
    /// A growth of memory was refused.
    OutOfMemory,
    /// The device failed during this call.
    DiskFault,
    /// The engine met a device fault, or the node was halted.
    Stopped,
    /// The seqno is not the next one, which is `expected`.
    OutOfOrder { expected: u64 },
    /// `MAX_AHEAD` (256) items are delivered and not yet durable.
    Backlogged,
    /// The next cell of the log is still needed.
    LogFull,
    /// Nothing of this kind is due.
    NotDue,
    /// The snapshot is below what is kept: the oldest state that can be read is that after `oldest`
    /// items.
    TooOld { oldest: u64 },
    /// The snapshot is above what is durable, which is the first `durable` items.
    NotYet { durable: u64 },
    /// A key is outside the schema.
    BadKey,
    /// The node has the undefined UUID.
    Undefined,
    /// The device is too small to be formatted, or no superblock stands open.
    NotFormatted,
    /// Bytes of this part of the disk are not of their form.
    Corrupt { part: Part },
    /// The device is smaller than the `need` bytes that it must have.
    TooSmall { need: u64 },
    /// The window, the log or the schema is outside the limits.
    BadParams,
    /// Text or bytes are not of their form. What `at` counts is said at the call: the line of a text,
    /// from 1; a byte, from 0; or an entry of a write set, from 0 in the reads followed by the writes.
    Malformed { at: u64 },
    /// More than `MAX_READS` (16) reads.
    TooManyReads,
    /// More than `MAX_WRITES` (16) writes.
    TooManyWrites,
    /// A value of more than `MAX_VALUE` (62) bytes.
    ValueTooLong,
    /// Another state UUID, window or schema.
    WrongCluster,
    /// The joiner is past the donor's durable position, which is `position`.
    Ahead { position: u64 },
    /// The session or the publisher has ended.
    Closed,
    /// No seqno or ticket is left.
    Exhausted,
    /// A reader or a writer failed, or a text is too long.
    StreamFault,
}

impl Refusal {
    /// The refusal's number, from 1 to 24, which a fault line gives before its name.
    pub fn number(self) -> u8
        ensures { result ≡ refusal_number self }
    {
        match self {
            Refusal::OutOfMemory => 1,
            Refusal::DiskFault => 2,
            Refusal::Stopped => 3,
            Refusal::OutOfOrder { .. } => 4,
            Refusal::Backlogged => 5,
            Refusal::LogFull => 6,
            Refusal::NotDue => 7,
            Refusal::TooOld { .. } => 8,
            Refusal::NotYet { .. } => 9,
            Refusal::BadKey => 10,
            Refusal::Undefined => 11,
            Refusal::NotFormatted => 12,
            Refusal::Corrupt { .. } => 13,
            Refusal::TooSmall { .. } => 14,
            Refusal::BadParams => 15,
            Refusal::Malformed { .. } => 16,
            Refusal::TooManyReads => 17,
            Refusal::TooManyWrites => 18,
            Refusal::ValueTooLong => 19,
            Refusal::WrongCluster => 20,
            Refusal::Ahead { .. } => 21,
            Refusal::Closed => 22,
            Refusal::Exhausted => 23,
            Refusal::StreamFault => 24,
        }
    }

    /// What the refusal is called.
    fn name(self) -> &'static str
        ensures { result.now ≡ refusal_name self }
    {
        match self {
            Refusal::OutOfMemory => "out-of-memory",
            Refusal::DiskFault => "disk-fault",
            Refusal::Stopped => "stopped",
            Refusal::OutOfOrder { .. } => "out-of-order",
            Refusal::Backlogged => "backlogged",
            Refusal::LogFull => "log-full",
            Refusal::NotDue => "not-due",
            Refusal::TooOld { .. } => "too-old",
            Refusal::NotYet { .. } => "not-yet",
            Refusal::BadKey => "bad-key",
            Refusal::Undefined => "undefined",
            Refusal::NotFormatted => "not-formatted",
            Refusal::Corrupt { .. } => "corrupt",
            Refusal::TooSmall { .. } => "too-small",
            Refusal::BadParams => "bad-params",
            Refusal::Malformed { .. } => "malformed",
            Refusal::TooManyReads => "too-many-reads",
            Refusal::TooManyWrites => "too-many-writes",
            Refusal::ValueTooLong => "value-too-long",
            Refusal::WrongCluster => "wrong-cluster",
            Refusal::Ahead { .. } => "ahead",
            Refusal::Closed => "closed",
            Refusal::Exhausted => "exhausted",
            Refusal::StreamFault => "stream-fault",
        }
    }

    /// The data that it has.
    fn data(self) -> Data
        ensures { result ≡ refusal_data self }
    {
        match self {
            Refusal::Corrupt { part } => Data::Place(part),
            Refusal::OutOfOrder { expected } => Data::Figure(expected),
            Refusal::TooOld { oldest } => Data::Figure(oldest),
            Refusal::NotYet { durable } => Data::Figure(durable),
            Refusal::TooSmall { need } => Data::Figure(need),
            Refusal::Malformed { at } => Data::Figure(at),
            Refusal::Ahead { position } => Data::Figure(position),
            _ => Data::Nothing,
        }
    }
}

/// What a refusal has beside its name.
#[derive(Clone, Copy)]
enum Data {
    Nothing,
    Figure(u64),
    Place(Part),
}

impl fmt::Display for Refusal {
    ghost use Rattle.std.specs.Prelude.{Some};
    ghost use Rattle.rep_types.specs.Texts.{refusal_text};

    ghost output = { λ refusal. Some (refusal_text refusal) };

    fn fmt<W: fmt::Write>(&self, f: &mut fmt::Formatter<W>) -> fmt::Result {
        let name = self.name();
        match self.data() {
            Data::Nothing => f.write_str(name),
            Data::Figure(figure) => write!(f, "{name} {figure}"),
            Data::Place(part) => write!(f, "{name} {}", part.name()),
        }
    }
}

impl Error for Refusal {}

impl From<AllocError> for Refusal {
    ghost from_gives = { λ _ refusal. refusal ≡ OutOfMemory };

    fn from(_refused: AllocError) -> Refusal {
        Refusal::OutOfMemory
    }
}

impl<T: Drop> From<AllocFailed<T>> for Refusal {
    ghost from_gives = { λ _ refusal. refusal ≡ OutOfMemory };

    fn from(_refused: AllocFailed<T>) -> Refusal {
        Refusal::OutOfMemory
    }
}
