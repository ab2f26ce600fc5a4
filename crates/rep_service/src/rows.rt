//! Rows that are read at one position, and the line of them.

ghost use Rattle.std.specs.Prelude.{◌≡◌, ℕ, ◌≤◌, length, take, OnOk, OnErr, IfOk, IfErr, MatchResult};
ghost use Rattle.std.specs.Io.KnownBytes.{Appends};
ghost use Rattle.rep_types.specs.Order.{Order};
ghost use Rattle.rep_streams.specs.Streams.{Notes};
ghost use Rattle.rep_steps.specs.Nodes.{Node};
ghost use Rattle.rep_steps.specs.Orders.{IsOf};
ghost use Rattle.rep_replica.specs.Replicas.{facts_of};
ghost use Rattle.rep_replica.specs.Holding.{Holds};
ghost use Rattle.rep_replica.specs.Reading.{IsRead};
ghost use Rattle.rep_sum.specs.Sums.{AreGiven, keys_read, IsRefusedAt};
ghost use Rattle.rep_service.specs.Lines.{rows_line};
ghost use Rattle.rep_service.specs.Rows.{rows_of};

use crate::line::{Line, put_number, put_row, put_text};
use arrayvec::ArrayVec;
use rep_disk::Disk;
use rep_replica::Replica;
use rep_requests::MAX_KEYS;
use rep_steps::steps_follow_the_order;
use rep_streams::Sink;
use rep_types::{Key, Refusal, Value};

/// A row: its key, and what stands under it, if anything does.
pub(crate) type Row = (Key, Option<Value>);

/// Reads the row of this key at the position: as `Replica::read` does.
fn read_row<D: Disk>(replica: &mut Replica<D>, key: Key, at: u64) -> Result<Option<Value>, Refusal>
    ensures { IsRead D.Disk replica.old key at result replica.new }
{
    replica.read(key, at)
}

/// Reads the rows of these keys, at most 16, at the position, in the order of the keys.
///
/// Refuses as `Replica::read` does the first that it refuses.
pub(crate) fn read_rows<D: Disk>(
    replica: &mut Replica<D>,
    keys: &[Key],
    at: u64,
) -> Result<ArrayVec<Row, MAX_KEYS>, Refusal>
    requires { length keys.now ≤ 16 }
    ensures reads { MatchResult result (λ rows. (keys_read rows.items ≡ keys.now) × AreGiven D.Disk at replica.old rows.items replica.new) (λ e. IsRefusedAt D.Disk at keys.now replica.old e replica.new) }
    ensures few { IfOk result (λ rows. length rows.items ≤ 16) }
    // What was delivered stays.
    ensures ahead { (facts_of D.Disk replica.new).ahead ≡ (facts_of D.Disk replica.old).ahead }
    // A replica that stands for a node goes on to, where each is given; and the rows are those of the order's state there.
    ensures holds { (n : Node) → Holds D.Disk n replica.old → OnOk result (Holds D.Disk n replica.new) }
    ensures order { (n : Node) (L : Order) → Holds D.Disk n replica.old → IsOf L n → IfOk result (λ rows. rows.items ≡ rows_of n.facts.setting L keys.now at) }
{
    steps_follow_the_order();
    let mut rows = ArrayVec::new();
    for key in keys {
        match read_row(replica, *key, at) {
            Ok(value) => rows.push((*key, value)),
            Err(refusal) => return Err(refusal),
        }
    }
    Ok(rows)
}

/// Writes the line of these rows, at most 16, which were read at this position.
///
/// Refuses with `StreamFault` a writer that fails, which it notes, and has then taken a front of the line.
pub(crate) fn write_rows<W: Sink>(writer: &mut W, at: u64, rows: &[Row]) -> Result<(), Refusal>
    requires { length rows.now ≤ 16 }
    ensures ok { OnOk result (Appends (W.contents writer.old) (W.contents writer.new) (rows_line at rows.now)) }
    ensures cut { OnErr result ((k : ℕ) × Appends (W.contents writer.old) (W.contents writer.new) (take k (rows_line at rows.now))) }
    ensures notes { Notes (W.failed writer.old) (W.failed writer.new) result }
    ensures refused { IfErr result (λ e. e ≡ Refusal.StreamFault) }
{
    let mut line = Line::new();
    put_text(&mut line, b"rows ");
    put_number(&mut line, at);
    for row in rows {
        put_row(&mut line, row.0, row.1.as_ref());
    }
    put_text(&mut line, b"\n");
    writer.put(line.as_slice())
}
