//! The first line: which order a node follows, and from where.

ghost use Rattle.std.specs.Prelude.{◌≡◌, ◌≤◌, [], IfOk, IfErr};
ghost use Rattle.rep_streams.specs.Streams.{Notes};
ghost use Rattle.rep_engine.specs.Engines.{gtid_of};
ghost use Rattle.rep_lines.specs.Feeds.{ahead};
ghost use Rattle.rep_replica.specs.Replicas.{facts_of};
ghost use Rattle.rep_script.specs.Answering.{Tells};
ghost use Rattle.rep_follow.specs.Following.{NotesEither};
ghost use Rattle.rep_service.specs.Opening.{at_line, OpensOrder};

use crate::first::{position_of, read_first};
use crate::input::Input;
use rep_disk::Disk;
use rep_replica::Replica;
use rep_script::write_line;
use rep_streams::{Sink, Source};
use rep_types::Refusal;

/// Writes the line of the node at its opening: its GTID, at what is durable, and its base.
///
/// Refuses with `StreamFault` a writer that fails, which it notes, and has then taken a front of the line.
fn write_at<D: Disk, W: Sink>(replica: &Replica<D>, writer: &mut W) -> Result<(), Refusal>
    ensures told { Tells (at_line (gtid_of replica.now.engine) replica.now.engine.checkpoint.base.position) (W.contents writer.old) (W.contents writer.new) result }
    ensures notes { Notes (W.failed writer.old) (W.failed writer.new) result }
    ensures refused { IfErr result (λ e. e ≡ Refusal.StreamFault) }
{
    let gtid = replica.gtid();
    let base = replica.base();
    write_line(writer, format_args!("at {gtid} base {base}"))
}

/// Reads which order the node is to follow and from where, and writes where the node stands. Answers the position behind which the items come.
///
/// Refuses with `Malformed` another first line with words, at its number, and a text without words, at one more than its lines; then as
/// `position_of` does; and with `StreamFault` where the source or the writer fails, which it notes.
pub(crate) fn open_order<D: Disk, R: Source, W: Sink>(
    replica: &Replica<D>,
    input: &mut Input,
    source: &mut R,
    writer: &mut W,
) -> Result<u64, Refusal>
    requires { (facts_of D.Disk replica.now).ahead ≡ [] }
    ensures opens { OpensOrder (facts_of D.Disk replica.now) (at_line (gtid_of replica.now.engine) replica.now.engine.checkpoint.base.position) input.old.number input.new.feed (R.remaining source.new) (ahead input.old.feed (R.remaining source.old)) (ahead input.new.feed (R.remaining source.new)) (W.contents writer.old) (W.contents writer.new) result }
    ensures within { IfOk result (λ position. position ≤ (facts_of D.Disk replica.now).durable) }
    ensures notes { NotesEither (R.failed source.old) (R.failed source.new) (W.failed writer.old) (W.failed writer.new) result }
{
    let gtid = match read_first(replica, input, source) {
        Ok(gtid) => gtid,
        Err(refusal) => return Err(refusal),
    };
    let position = match position_of(replica, gtid) {
        Ok(position) => position,
        Err(refusal) => return Err(refusal),
    };
    match write_at(replica, writer) {
        Ok(()) => Ok(position),
        Err(refusal) => Err(refusal),
    }
}
