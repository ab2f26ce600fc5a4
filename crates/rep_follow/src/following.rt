//! The items of an order are followed, group by group.

ghost use Rattle.std.specs.Prelude.{◌≡◌, [], true, false, Ok, IfErr};
ghost use Rattle.std.specs.Io.KnownBytes.{Keeps, IsAtEnd};
ghost use Rattle.rep_streams.specs.Streams.{Notes};
ghost use Rattle.rep_lines.specs.Lines.{HasNoFeed};
ghost use Rattle.rep_lines.specs.Feeds.{ahead};
ghost use Rattle.rep_replica.specs.Replicas.{facts_of};
ghost use Rattle.rep_follow.specs.Following.{HasRead, FollowsItems, NotesEither, ended};

use crate::blocks::commit;
use crate::counts::Counts;
use crate::feeding::take_lines;
use arrayvec::ArrayVec;
use rep_disk::Disk;
use rep_lines::{Feed, MAX_KEPT};
use rep_replica::Replica;
use rep_streams::{Sink, Source};
use rep_types::Refusal;

/// Where the items of a text end.
#[derive(Clone, Copy, Debug, PartialEq, Eq)]
pub enum End {
    /// At a line that is no next item of the order, which was handed out.
    Line,
    /// At the end of the text.
    Text,
}

/// Asks the source for more of the text, once. This is the only place that does, so nobody waits for a receipt while the node waits for its text:
/// all that was delivered is durable, and what became durable was told by the call that made it so.
fn ask_more<D: Disk, R: Source>(
    replica: &Replica<D>,
    feed: &mut Feed,
    source: &mut R,
) -> Result<bool, Refusal>
    requires { (facts_of D.Disk replica.now).ahead ≡ [] }
    ensures ahead { Keeps (ahead feed.old (R.remaining source.old)) (ahead feed.new (R.remaining source.new)) }
    // Where the text goes on, some of it was read.
    ensures read { result ≡ Ok true → HasNoFeed feed.old → HasRead 1 (R.remaining source.old) (R.remaining source.new) }
    ensures end { result ≡ Ok false → (feed.new ≡ feed.old) × IsAtEnd (R.remaining source.new) }
    ensures refused { IfErr result (λ e. e ≡ Refusal.StreamFault) }
    ensures notes { Notes (R.failed source.old) (R.failed source.new) result }
{
    let _ = replica;
    feed.more(source)
}

/// Takes the items of the lines that came, makes all of them durable, tells it, and asks for more of the text. Answers where the items end, or
/// `None` where more came.
fn follow_group<D: Disk, R: Source, W: Sink>(
    replica: &mut Replica<D>,
    counts: &mut Counts,
    feed: &mut Feed,
    next: &mut u64,
    line: &mut ArrayVec<u8, MAX_KEPT>,
    source: &mut R,
    writer: &mut W,
) -> Result<Option<End>, Refusal>
    ensures follows { FollowsItems D.Disk next.old replica.old replica.new counts.old counts.new feed.new (R.remaining source.old) (R.remaining source.new) (ahead feed.old (R.remaining source.old)) (ahead feed.new (R.remaining source.new)) line.new.items (W.contents writer.old) (W.contents writer.new) result next.new }
    ensures notes { NotesEither (R.failed source.old) (R.failed source.new) (W.failed writer.old) (W.failed writer.new) result }
{
    match take_lines(replica, counts, feed, next, line, writer) {
        Ok(false) => {}
        Ok(true) => return Ok(Some(End::Line)),
        Err(refusal) => return Err(refusal),
    }
    if let Err(refusal) = commit(replica, counts, writer) {
        return Err(refusal);
    }
    match ask_more(replica, feed, source) {
        Ok(true) => Ok(None),
        Ok(false) => Ok(Some(End::Text)),
        Err(refusal) => Err(refusal),
    }
}

/// Follows the items of an order: takes those of the lines that came, makes them durable together, tells it, and only then asks for more of the
/// text, until a line is no next item of the order, which is in `line`, or the text ends. The seqno of the next item is in `next`. What
/// one read of the text gave is one group, so groups grow with the load.
///
/// Refuses as `take_lines` and `commit` do; with `StreamFault` also where the source fails, which it notes; and with `Exhausted` also behind
/// 2^64 - 1 reads of the source, each of which gave something.
pub fn follow_items<D: Disk, R: Source, W: Sink>(
    replica: &mut Replica<D>,
    counts: &mut Counts,
    feed: &mut Feed,
    next: &mut u64,
    line: &mut ArrayVec<u8, MAX_KEPT>,
    source: &mut R,
    writer: &mut W,
) -> Result<End, Refusal>
    ensures follows { FollowsItems D.Disk next.old replica.old replica.new counts.old counts.new feed.new (R.remaining source.old) (R.remaining source.new) (ahead feed.old (R.remaining source.old)) (ahead feed.new (R.remaining source.new)) line.new.items (W.contents writer.old) (W.contents writer.new) (ended result) next.new }
    // A stream fault is one of the streams.
    ensures notes { NotesEither (R.failed source.old) (R.failed source.new) (W.failed writer.old) (W.failed writer.new) result }
{
    counts.limits();
    for _ in 0..u64::MAX {
        match follow_group(replica, counts, feed, next, line, source, writer) {
            Ok(None) => {}
            Ok(Some(end)) => return Ok(end),
            Err(refusal) => return Err(refusal),
        }
    }
    Err(Refusal::Exhausted)
}
