//! The items of an order are taken from the lines that came.

ghost use Rattle.std.specs.Prelude.{◌≡◌, true, false, None, Some};
ghost use Rattle.rep_streams.specs.Streams.{Notes};
ghost use Rattle.rep_requests.specs.Requests.{Published, requested};
ghost use Rattle.rep_follow.specs.Taking.{item_at, TakesLines};

use crate::counts::Counts;
use crate::taking::take;
use arrayvec::ArrayVec;
use rep_disk::Disk;
use rep_lines::{Feed, MAX_KEPT};
use rep_record::no_effect;
use rep_replica::Replica;
use rep_requests::renew_numbered;
use rep_streams::Sink;
use rep_types::{Item, Refusal};

/// Whether the line is the item that has this seqno of the order. If it is, it comes in the item's place.
fn is_next(line: &[u8], seqno: u64, item: &mut Item) -> bool
    ensures some { result ≡ true → item_at seqno (requested 0 line.now) ≡ Some item.new }
    ensures published { result ≡ true → requested 0 line.now ≡ Published seqno item.new }
    ensures none { result ≡ false → item_at seqno (requested 0 line.now) ≡ None }
{
    renew_numbered(line, seqno, item)
}

/// Takes the items of the lines that came whole, as long as each is the next one of the order, whose seqno is in `next`. Answers `false` where
/// no whole line is left, and `true` where the line that was handed out last is another one, which is in `line`. Nobody is asked for more.
///
/// Refuses as `take` does, with the item that was handed out last not taken; and with `Exhausted` where no number of 64 bits is left.
pub fn take_lines<D: Disk, W: Sink>(
    replica: &mut Replica<D>,
    counts: &mut Counts,
    feed: &mut Feed,
    next: &mut u64,
    line: &mut ArrayVec<u8, MAX_KEPT>,
    writer: &mut W,
) -> Result<bool, Refusal>
    ensures takes { TakesLines D.Disk next.old replica.old replica.new counts.old counts.new feed.old feed.new line.new.items (W.contents writer.old) (W.contents writer.new) result next.new }
    ensures notes { Notes (W.failed writer.old) (W.failed writer.new) result }
{
    counts.limits();
    let mut item = no_effect();
    'whole: while feed.next_whole(line) {
        let seqno = *next;
        if !is_next(line, seqno, &mut item) {
            return Ok(true);
        }
        let Some(after) = seqno.checked_add(1) else {
            return Err(Refusal::Exhausted);
        };
        if let Err(refusal) = take(replica, counts, writer, seqno, &item) {
            return Err(refusal);
        }
        counts.count_text(line, &item);
        *next = after;
    }
    Ok(false)
}
