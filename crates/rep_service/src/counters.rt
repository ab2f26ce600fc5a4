//! The line of what a node counts.

ghost use Rattle.std.specs.Prelude.{◌≡◌, ℕ, ◌+◌, ◌≤◌, ◌++◌, length, take, OnOk, OnErr, IfErr};
ghost use Rattle.std.specs.Io.KnownBytes.{Appends};
ghost use Rattle.rep_streams.specs.Streams.{Notes};
ghost use Rattle.rep_service.specs.Lines.{level_part, work_part, verdict_part, counters_line};

use crate::line::{Line, put_named, put_text};
use rep_follow::Counts;
use rep_streams::Sink;
use rep_types::Refusal;

/// Where a node stands at the moment.
#[derive(Clone, Copy, Debug, PartialEq, Eq)]
pub(crate) struct Level {
    /// How many items were delivered to it.
    pub(crate) delivered: u64,
    /// How many of these are durable.
    pub(crate) durable: u64,
    /// The position of its base.
    pub(crate) base: u64,
    /// How many of the log's cells are live.
    pub(crate) cells_live: u64,
    /// How many cells the log has.
    pub(crate) cells: u64,
    /// How often its device was synced, as that counts it.
    pub(crate) syncs: u64,
}

/// Puts where the node stands behind the line.
fn put_level(line: &mut Line, level: &Level)
    requires { length line.old.items + 200 ≤ 2704 }
    ensures text { line.new.items ≡ line.old.items ++ level_part level.now }
    ensures few { length line.new.items ≤ length line.old.items + 200 }
{
    put_named(line, b"delivered", level.delivered);
    put_named(line, b"durable", level.durable);
    put_named(line, b"base", level.base);
    put_named(line, b"cells-live", level.cells_live);
    put_named(line, b"cells", level.cells);
}

/// Puts what the node did behind the line.
fn put_work(line: &mut Line, syncs: u64, counts: &Counts)
    requires { length line.old.items + 200 ≤ 2704 }
    ensures text { line.new.items ≡ line.old.items ++ work_part syncs counts.now }
    ensures few { length line.new.items ≤ length line.old.items + 200 }
{
    put_named(line, b"items", counts.items);
    put_named(line, b"blocks", counts.blocks);
    put_named(line, b"syncs", syncs);
    put_named(line, b"checkpoints", counts.checkpoints);
}

/// Puts the verdicts on the node's items behind the line.
fn put_verdicts(line: &mut Line, counts: &Counts)
    requires { length line.old.items + 200 ≤ 2704 }
    ensures text { line.new.items ≡ line.old.items ++ verdict_part counts.now }
    ensures few { length line.new.items ≤ length line.old.items + 200 }
{
    put_named(line, b"commit", counts.commit);
    put_named(line, b"conflict", counts.conflict);
    put_named(line, b"stale", counts.stale);
    put_named(line, b"future", counts.future);
    put_named(line, b"badkey", counts.badkey);
    put_named(line, b"unreadable", counts.unreadable);
}

/// The line of the counters.
fn line_of(level: &Level, counts: &Counts) -> Line
    ensures { result.items ≡ counters_line level.now counts.now }
{
    let mut line = Line::new();
    put_text(&mut line, b"counters");
    put_level(&mut line, level);
    put_work(&mut line, level.syncs, counts);
    put_verdicts(&mut line, counts);
    put_text(&mut line, b"\n");
    line
}

/// Writes the line of the counters.
///
/// Refuses with `StreamFault` a writer that fails, which it notes, and has then taken a front of the line.
pub(crate) fn write_level<W: Sink>(
    writer: &mut W,
    level: &Level,
    counts: &Counts,
) -> Result<(), Refusal>
    ensures ok { OnOk result (Appends (W.contents writer.old) (W.contents writer.new) (counters_line level.now counts.now)) }
    ensures cut { OnErr result ((k : ℕ) × Appends (W.contents writer.old) (W.contents writer.new) (take k (counters_line level.now counts.now))) }
    ensures notes { Notes (W.failed writer.old) (W.failed writer.new) result }
    ensures refused { IfErr result (λ e. e ≡ Refusal.StreamFault) }
{
    let line = line_of(level, counts);
    writer.put(line.as_slice())
}
