//! The sum of a replica.

ghost use Rattle.std.specs.Prelude.{◌≡◌, ◌≢◌, ◌⊎◌, None, Err, IfOk, IfErr, take};
ghost use Rattle.rep_types.specs.declared.refusal.Refusal.TheVariants.{DiskFault, Corrupt};
ghost use Rattle.rep_types.specs.declared.refusal.Part.TheVariants.{Pages};
ghost use Rattle.rep_types.specs.Order.{Order, state};
ghost use Rattle.rep_steps.specs.Nodes.{Node, state_at};
ghost use Rattle.rep_steps.specs.Orders.{IsOf};
ghost use Rattle.rep_replica.specs.Replicas.{facts_of};
ghost use Rattle.rep_replica.specs.Holding.{Holds};
ghost use Rattle.rep_sum.specs.Sums.{sum_of, sum_refusal, IsSumAt};

use crate::summing::Summing;
use rep_disk::Disk;
use rep_replica::Replica;
use rep_steps::nodes_hold_the_order;
use rep_types::{Gtid, Refusal};
use std::{fmt, str};

/// What is said of a state, so that nodes are compared by it: of which cluster and position it is, how many rows are there, and the
/// SHA-256 digest of these bytes (FIPS 180-4). They are the UUID in 16 bytes and the position in 8; and for each row that is there, by
/// table and then by row, its table in 1 byte, its number in that table in 4, the length of its value in 1, and the value. Numbers are
/// written with their highest byte first. The window is not in it.
#[derive(Debug, Drop, PartialEq, Eq)]
pub struct Sum {
    /// The state UUID and the position.
    pub gtid: Gtid,
    /// How many rows are there.
    pub rows: u64,
    /// The digest.
    pub digest: [u8; 32],
}

impl fmt::Display for Sum {
    ghost use Rattle.std.specs.Prelude.{Some};
    ghost use Rattle.rep_sum.specs.Sums.{sum_text};

    ghost output = { λ sum. Some (sum_text sum) };

    fn fmt<W: fmt::Write>(&self, f: &mut fmt::Formatter<W>) -> fmt::Result {
        let mut room = [0; 64];
        let _ = hex::encode_to_slice(self.digest, &mut room);
        let Ok(digest) = str::from_utf8(&room) else {
            unreachable!();
        };
        write!(f, "{} rows {} sha256 {digest}", self.gtid, self.rows)
    }
}

/// Why a sum is refused before a row is read.
fn sum_refusal<D: Disk>(replica: &Replica<D>, position: u64) -> Option<Refusal>
    ensures { result ≡ sum_refusal (facts_of D.Disk replica.now) position }
{
    let durable = replica.durable();
    let base = replica.base();
    if replica.is_stopped() {
        Some(Refusal::Stopped)
    } else if replica.uuid().is_nil() {
        Some(Refusal::Undefined)
    } else if position < base {
        Some(Refusal::TooOld { oldest: base })
    } else if position > durable {
        Some(Refusal::NotYet { durable })
    } else {
        None
    }
}

/// The sum of the replica's state after the first `position` items. All rows are read, page by page: of those that were never written
/// none is read of the device, and of the others each once, as long as memory has room for a page. It takes no memory besides.
///
/// Refuses, in this order, with `Stopped`; with `Undefined` where the node belongs to no cluster; with `TooOld` below the base; with
/// `NotYet` above what is durable; and else as `Replica::read` refuses the first row that it refuses: with `DiskFault` where the device
/// failed, and then the replica is stopped, and with `Corrupt` of the pages where a page that is read is not of its form.
pub fn sum_at<D: Disk>(replica: &mut Replica<D>, position: u64) -> Result<Sum, Refusal>
    // On any device the rows are read one after another; what a read answers, and when it is refused, is said by its own contract.
    ensures sum { IsSumAt D.Disk position replica.old result replica.new }
    ensures only { sum_refusal (facts_of D.Disk replica.old) position ≡ None → IfErr result (λ refusal. (refusal ≡ DiskFault) ⊎ (refusal ≡ Corrupt Pages)) }
    ensures holds { (n : Node) → Holds D.Disk n replica.old → result ≢ Err DiskFault → Holds D.Disk n replica.new }
    // On an honest device the sum is that of the state of the node that the replica stands for, and no page is corrupt.
    ensures state { (n : Node) → Holds D.Disk n replica.old → IfOk result (λ sum. sum ≡ sum_of n.facts.uuid n.facts.setting.rows (state_at n position)) }
    ensures whole { (n : Node) → Holds D.Disk n replica.old → result ≢ Err (Corrupt Pages) }
    // And so it is that of the order's state there, whichever node of the order it is.
    ensures order { (n : Node) (L : Order) → Holds D.Disk n replica.old → IsOf L n → IfOk result (λ sum. sum ≡ sum_of n.facts.uuid n.facts.setting.rows (state n.facts.setting (take position L))) }
{
    nodes_hold_the_order();
    if let Some(refusal) = sum_refusal(replica, position) {
        return Err(refusal);
    }
    let cluster = replica.gtid();
    // For its clause: the durable position is a seqno, and so is each below it.
    cluster.seqno();
    let mut summing = Summing::new(cluster.uuid(), position);
    summing.add_tables(replica, position)?;
    let Some(gtid) = Gtid::new(cluster.uuid(), position as i64) else {
        unreachable!();
    };
    let rows = summing.rows;
    Ok(Sum {
        gtid,
        rows,
        digest: summing.digest(),
    })
}
