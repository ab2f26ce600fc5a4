//! What the first line of a text says, and where a node begins by that.

ghost use Rattle.std.specs.Prelude.{◌≡◌, ◌≢◌, ◌≤◌, ◌⊎◌, ℕ, [], IfOk, IfErr};
ghost use Rattle.rep_types.specs.declared.refusal.Refusal.TheVariants.{Malformed};
ghost use Rattle.rep_streams.specs.Streams.{Notes};
ghost use Rattle.rep_lines.specs.Feeds.{ahead};
ghost use Rattle.rep_replica.specs.Replicas.{facts_of};
ghost use Rattle.rep_service.specs.Opening.{FindsFirst, BeginsBy, position_in};

use crate::input::Input;
use rep_disk::Disk;
use rep_replica::Replica;
use rep_requests::read_order;
use rep_streams::Source;
use rep_types::{Gtid, Refusal};

/// What the first line with words says: the position behind which the items of the order come.
///
/// Refuses with `Malformed`, at the line's number, another line, and a text without words, at one more than its lines; and with `StreamFault` where
/// the source fails, which it notes.
pub(crate) fn read_first<D: Disk, R: Source>(
    replica: &Replica<D>,
    input: &mut Input,
    source: &mut R,
) -> Result<Gtid, Refusal>
    requires { (facts_of D.Disk replica.now).ahead ≡ [] }
    ensures finds { FindsFirst input.old.number input.new.feed (R.remaining source.new) (ahead input.old.feed (R.remaining source.old)) (ahead input.new.feed (R.remaining source.new)) result }
    ensures notes { Notes (R.failed source.old) (R.failed source.new) result }
    ensures refused { IfErr result (λ e. (e ≡ Refusal.StreamFault) ⊎ ((e ≡ Refusal.Exhausted) ⊎ ((k : ℕ) × (e ≡ Malformed k)))) }
{
    // For its clause: the count is a number of 64 bits.
    input.next_number();
    for _ in 0..u64::MAX {
        match input.next_line(replica, source) {
            Ok(true) => {}
            Ok(false) => return Err(Refusal::Malformed {
                at: input.next_number(),
            }),
            Err(refusal) => return Err(refusal),
        }
        match read_order(input.line.as_slice(), input.number) {
            Ok(Some(gtid)) => return Ok(gtid),
            Ok(None) => {}
            Err(refusal) => return Err(refusal),
        }
    }
    Err(Refusal::Exhausted)
}

/// The seqno of the GTID as a position: that of one without a seqno is 0.
fn as_position(gtid: Gtid) -> u64
    ensures { result ≡ position_in gtid.seqno }
{
    let seqno = gtid.seqno();
    if seqno < 0 {
        return 0;
    }
    seqno as u64
}

/// Where the node begins in the order.
///
/// Refuses, in this order, with `Undefined` where the node belongs to no cluster; with `WrongCluster` where the order is another cluster's; and
/// with `OutOfOrder`, the next item being that behind what is durable, where the position is above that.
pub(crate) fn position_of<D: Disk>(replica: &Replica<D>, gtid: Gtid) -> Result<u64, Refusal>
    ensures begins { BeginsBy (facts_of D.Disk replica.now) gtid result }
    ensures within { IfOk result (λ position. position ≤ (facts_of D.Disk replica.now).durable) }
    ensures own { IfErr result (λ e. e ≢ Refusal.StreamFault) }
{
    if replica.uuid().is_nil() {
        return Err(Refusal::Undefined);
    }
    if gtid.uuid() != replica.uuid() {
        return Err(Refusal::WrongCluster);
    }
    let durable = replica.durable();
    let position = as_position(gtid);
    if position > durable {
        return Err(Refusal::OutOfOrder {
            expected: durable + 1,
        });
    }
    Ok(position)
}
