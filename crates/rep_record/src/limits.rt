//! The limits of records and blocks, each with its reason. Code and definitions use them from here;
//! `block_limits_are_these` says each once as a number.

ghost use Rattle.std.specs.Prelude.{◌≡◌};

use rep_types::{MAX_READS, MAX_VALUE, MAX_WRITES};

/// The greatest number of bytes of a record: 45, 5 for each read, and for each write 7 and its value.
pub const MAX_RECORD: usize = 45 + 5 * MAX_READS + (7 + MAX_VALUE) * MAX_WRITES;

/// The greatest number of records of a block: as many replies a sync may have to hand out.
pub const MAX_RECORDS: u16 = 64;

/// The number of bytes of a block: what a cell of the log has before its gate.
pub const BLOCK: usize = 7680;

/// The number of bytes of a block before its records.
pub(crate) const HEAD: usize = 18;

/// The greatest number of bytes of a block's records: what it has behind its head.
pub const MAX_BLOCK: usize = BLOCK - HEAD;

/// The number that each limit is.
pub fn block_limits_are_these()
    ensures record { MAX_RECORD ≡ 1229 }
    ensures records { MAX_RECORDS ≡ 64 }
    ensures block { BLOCK ≡ 7680 }
    ensures bytes { MAX_BLOCK ≡ 7662 }
{}
