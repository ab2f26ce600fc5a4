//! What is accepted waits to be published, and what is durable is published.

ghost use Rattle.std.specs.Prelude.{◌≡◌, ◌+◌, ◌≤◌, ◌++◌, ◌∷◌, [], length, take, IfErr, OnOk, OnErr};
ghost use Rattle.rep_types.specs.declared.refusal.Refusal.TheVariants.{OutOfMemory};
ghost use Rattle.rep_cert.specs.Holdings.{Holdings};
ghost use Rattle.rep_snap.specs.Lists.{oldest_of, published};
ghost use Rattle.rep_node.specs.Publishing.{AreShown, shown, shown_of};

use crate::origin::Origin;
use crate::waiting::Waiting;
use rep_backlog::Backlog;
use rep_record::MAX_RECORDS;
use rep_snap::{Pair, Publisher, histories_grow};
use rep_types::{Judged, Refusal};
use std::sync::Wait;

/// What is published of an item: its seqno with what it wrote, which is nothing unless it committed.
fn shown_of(judged: &Judged) -> Pair
    ensures { result ≡ shown_of judged.now }
{
    judged.item.limits();
    let writes = if judged.is_kept() {
        judged.item.writes()
    } else {
        &[]
    };
    match Pair::new(judged.seqno, writes) {
        Ok(pair) => pair,
        Err(_) => unreachable!(),
    }
}

/// Has so many of the items' front wait to be published, behind what waits.
pub(crate) fn wait_for(waiting: &mut Waiting, backlog: &Backlog, count: u16)
    requires within { count ≤ length backlog.now }
    requires room { length waiting.old + count ≤ MAX_RECORDS }
    ensures { waiting.new ≡ waiting.old ++ shown (take count backlog.now) }
{
    for i in 0..usize::from(count) {
        let Some(judged) = backlog.get(i) else {
            unreachable!()
        };
        waiting.push(shown_of(judged));
    }
}

/// Publishes what waits up to a seqno.
///
/// Refuses with `OutOfMemory` where a growth was refused. Then nothing of it was published, and all of it waits.
pub(crate) fn publish_upto<R: Wait>(
    rt: &R,
    publisher: Publisher<Origin>,
    waiting: &mut Waiting,
    upto: u64,
) -> (Publisher<Origin>, Result<(), Refusal>)
    requires allowed { (c : Holdings) × (publisher.basis.certifier.log ≡ c ∷ []) × (publisher.start ≡ c.current.delivered) × AreShown c.current (published publisher.list ++ waiting.old) }
    requires behind { publisher.start + length (published publisher.list) ≤ upto }
    requires within { upto ≤ publisher.start + length (published publisher.list ++ waiting.old) }
    ensures same { (result.0.book ≡ publisher.book) × (result.0.basis ≡ publisher.basis) × (result.0.start ≡ publisher.start) }
    ensures whole { published result.0.list ++ waiting.new ≡ published publisher.list ++ waiting.old }
    ensures behind { publisher.start + length (published result.0.list) ≤ upto }
    ensures oldest { oldest_of publisher.start result.0.list ≡ oldest_of publisher.start publisher.list }
    ensures shown { OnOk result.1 (publisher.start + length (published result.0.list) ≡ upto) }
    ensures unchanged { OnErr result.1 ((published result.0.list ≡ published publisher.list) × (waiting.new ≡ waiting.old)) }
    ensures refused { IfErr result.1 (λ refusal. refusal ≡ OutOfMemory) }
{
    histories_grow();
    let due = waiting.upto(upto);
    let count = due.len();
    let (publisher, done) = publisher.publish_all(rt, due);
    match done {
        Ok(()) => {
            waiting.drop_front(count);
            (publisher, Ok(()))
        }
        Err(refusal) => (publisher, Err(refusal)),
    }
}
