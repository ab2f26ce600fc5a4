//! The limits of values, write sets, parameters and orders, each with its reason. Code and
//! definitions use them from here; `limits_are_these` says each once as a number.

ghost use Rattle.std.specs.Prelude.{◌≡◌, ◌^◌};

/// The greatest number of bytes of a value: a page has 64 bytes for a row, and two of them say
/// whether the row is there and how long its value is.
pub const MAX_VALUE: usize = 62;

/// The greatest number of keys that a write set reads.
pub const MAX_READS: usize = 16;

/// The greatest number of keys that a write set writes. So the entry of a committed item has at most
/// 89 bytes, 5 for each key, and a window of them fits its area of the disk.
pub const MAX_WRITES: usize = 16;

/// The greatest number of tables: a superblock has 32 bytes for their numbers of rows, 4 for each.
pub const MAX_TABLES: usize = 8;

/// The greatest number of pages of all tables: a superblock has 1,024 bytes for their states, two
/// bits for each.
pub const MAX_PAGES: u64 = 4096;

/// How many rows of a table a page holds: its 4,096 bytes are a head of 64 bytes, and 64 for each row.
pub const ROWS_PER_PAGE: u32 = 63;

/// The greatest window, in seqnos: a window's area of the disk has room for so many entries.
pub const MAX_WINDOW: u32 = 256;

/// The least number of cells of the log.
pub const MIN_CELLS: u32 = 4;

/// The greatest number of cells of the log.
pub const MAX_CELLS: u32 = 1024;

/// The greatest seqno: no item is admitted behind it. The words of the ordered lock have a seqno four
/// times, with two bits below and a halt bit above it, and no sum with a seqno leaves 64 bits.
pub const MAX_SEQNO: u64 = 1 << 60;

/// The greatest number that a node's delivered items may be ahead of its durable ones: so many the
/// backlog has room for, and so far back the certifier knows each window.
pub const MAX_AHEAD: u64 = 256;

/// The number that each limit is.
pub fn limits_are_these()
    ensures value { MAX_VALUE ≡ 62 }
    ensures reads { MAX_READS ≡ 16 }
    ensures writes { MAX_WRITES ≡ 16 }
    ensures tables { MAX_TABLES ≡ 8 }
    ensures pages { MAX_PAGES ≡ 4096 }
    ensures rows { ROWS_PER_PAGE ≡ 63 }
    ensures window { MAX_WINDOW ≡ 256 }
    ensures min_cells { MIN_CELLS ≡ 4 }
    ensures max_cells { MAX_CELLS ≡ 1024 }
    ensures seqno { MAX_SEQNO ≡ 2 ^ 60 }
    ensures ahead { MAX_AHEAD ≡ 256 }
{}
