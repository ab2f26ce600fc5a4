//! A node that follows an order, from its first line to the end of the text.

ghost use Rattle.std.specs.Prelude.{◌≡◌, ◌+◌, ◌≤◌, true, false, [], ◌∷◌, List, Ok, Err, IfErr, OnOk};
ghost use Rattle.std.specs.Io.KnownBytes.{IsAtEnd};
ghost use Rattle.rep_types.specs.declared.reply.Reply.{Reply};
ghost use Rattle.rep_streams.specs.Streams.{Notes};
ghost use Rattle.rep_log.specs.declared.phase.Phase.TheVariants.{Resting};
ghost use Rattle.rep_lines.specs.Lines.{HasNoFeed};
ghost use Rattle.rep_lines.specs.Feeds.{ahead};
ghost use Rattle.rep_replica.specs.Replicas.{facts_of};
ghost use Rattle.rep_replica.specs.Settling.{is_quiet};
ghost use Rattle.rep_follow.specs.Following.{NotesEither};
ghost use Rattle.rep_follow.specs.Taking.{taken_by};
ghost use Rattle.rep_service.specs.Commanding.{done_of};
ghost use Rattle.rep_service.specs.Saying.{Said, receipts_said};
ghost use Rattle.rep_service.specs.Living.{Lives, NotWrongCluster, TakesItems, FollowsLines, FollowsOrder, ClosesWell, FollowsText, FollowersAreFed};
ghost use Rattle.rep_service.specs.Inputs.{counted};
ghost use Rattle.rep_service.specs.Serving.{is_of_line, EndsText, EndsOnDisk};

use crate::commands::answer;
use crate::exchange::Exchange;
use crate::input::Input;
use crate::opening::open_order;
use crate::past::pass_durable;
use crate::syncs::CountsSyncs;
use rep_disk::Disk;
use rep_follow::{
    Counts, End, commit, finish, follow_items, going_is_joined, parts_are_joined, take,
};
use rep_replica::Replica;
use rep_requests::read_request;
use rep_script::write_state;
use rep_steps::nodes_hold_the_order;
use rep_streams::{Sink, Source};
use rep_types::{Item, Refusal};
use std::alloc::Global;

/// Takes the item that a line states without a number, as the next one of the order.
///
/// Refuses as `take` does, and with `Exhausted` where no number of 64 bits is left behind its seqno.
fn take_stated<D: Disk, W: Sink>(
    replica: &mut Replica<D>,
    counts: &mut Counts,
    writer: &mut W,
    next: &mut u64,
    item: Item,
) -> Result<(), Refusal>
    ensures lives { (receipts : List Reply) × Lives D.Disk replica.old replica.new (taken_by item result) (receipts_said receipts) (W.contents writer.old) (W.contents writer.new) result }
    ensures next { OnOk result (next.new ≡ next.old + 1) }
    ensures own { NotWrongCluster result }
    ensures notes { Notes (W.failed writer.old) (W.failed writer.new) result }
{
    parts_are_joined::<D>();
    let seqno = *next;
    let Some(after) = seqno.checked_add(1) else {
        return Err(Refusal::Exhausted);
    };
    if let Err(refusal) = take(replica, counts, writer, seqno, &item) {
        return Err(refusal);
    }
    *next = after;
    Ok(())
}

/// Answers the line that was handed out last where it is a command, and takes the item where it states one.
///
/// Refuses as `answer` does, and as `take_stated` does.
fn follow_line<D: Disk + CountsSyncs, W: Sink, E: Exchange>(
    alloc: Global,
    replica: &mut Replica<D>,
    exchange: &mut E,
    counts: &mut Counts,
    input: &Input,
    next: &mut u64,
    writer: &mut W,
) -> Result<(), Refusal>
    ensures takes { TakesItems D.Disk next.old (input.now.line.items ∷ []) replica.old replica.new next.new (W.contents writer.old) (W.contents writer.new) result }
    ensures notes { Notes (W.failed writer.old) (W.failed writer.new) result }
{
    parts_are_joined::<D>();
    going_is_joined::<D>();
    let request = read_request(input.line.as_slice(), input.number);
    let seqno = *next;
    match answer(
        alloc,
        replica,
        exchange,
        counts,
        request,
        input.number,
        seqno,
        writer,
    ) {
        Ok(None) => Ok(()),
        Ok(Some(item)) => take_stated(replica, counts, writer, next, item),
        Err(refusal) => Err(refusal),
    }
}

/// Follows the items that come, and answers the line at which they end, which is a command or an item without a number. Answers `false` where the
/// text ends.
fn follow_lines<D: Disk + CountsSyncs, R: Source, W: Sink, E: Exchange>(
    alloc: Global,
    replica: &mut Replica<D>,
    exchange: &mut E,
    counts: &mut Counts,
    input: &mut Input,
    next: &mut u64,
    source: &mut R,
    writer: &mut W,
) -> Result<bool, Refusal>
    // At the end of the text all that was delivered is durable.
    ensures told { result ≡ Ok false → (facts_of D.Disk replica.new).ahead ≡ [] }
    // Nothing of it is left then but bytes without a line feed.
    ensures ended { result ≡ Ok false → HasNoFeed input.new.feed × IsAtEnd (R.remaining source.new) }
    // What was delivered are the items of the lines that were handed out.
    ensures lives { FollowsLines D.Disk next.old replica.old replica.new (ahead input.old.feed (R.remaining source.old)) (ahead input.new.feed (R.remaining source.new)) next.new (W.contents writer.old) (W.contents writer.new) (done_of result) }
    // A stream fault is one of the streams.
    ensures notes { NotesEither (R.failed source.old) (R.failed source.new) (W.failed writer.old) (W.failed writer.new) result }
{
    parts_are_joined::<D>();
    let first = *next;
    let ended = follow_items(
        replica,
        counts,
        &mut input.feed,
        next,
        &mut input.line,
        source,
        writer,
    );
    input.count(next.saturating_sub(first));
    match ended {
        Ok(End::Line) => {}
        Ok(End::Text) => return Ok(false),
        Err(refusal) => return Err(refusal),
    }
    input.count(1);
    match follow_line(alloc, replica, exchange, counts, input, next, writer) {
        Ok(()) => Ok(true),
        Err(refusal) => Err(refusal),
    }
}

/// Whether the refusal is one of a line, behind what came before it: that is made durable and told first.
fn is_of_line(refusal: Refusal) -> bool
    ensures { result ≡ is_of_line refusal }
{
    matches!(
        refusal,
        Refusal::OutOfOrder { .. } | Refusal::Malformed { .. } | Refusal::Exhausted
    )
}

/// Follows the lines up to the end of the text.
fn follow_text<D: Disk + CountsSyncs, R: Source, W: Sink, E: Exchange>(
    alloc: Global,
    replica: &mut Replica<D>,
    exchange: &mut E,
    counts: &mut Counts,
    input: &mut Input,
    next: &mut u64,
    source: &mut R,
    writer: &mut W,
) -> Result<(), Refusal>
    ensures told { OnOk result ((facts_of D.Disk replica.new).ahead ≡ []) }
    ensures ended { OnOk result (HasNoFeed input.new.feed × IsAtEnd (R.remaining source.new)) }
    // What was delivered are the items of the lines that were handed out.
    ensures lives { FollowsLines D.Disk next.old replica.old replica.new (ahead input.old.feed (R.remaining source.old)) (ahead input.new.feed (R.remaining source.new)) next.new (W.contents writer.old) (W.contents writer.new) result }
    ensures notes { NotesEither (R.failed source.old) (R.failed source.new) (W.failed writer.old) (W.failed writer.new) result }
{
    parts_are_joined::<D>();
    for _ in 0..u64::MAX {
        match follow_lines(
            alloc, replica, exchange, counts, input, next, source, writer,
        ) {
            Ok(true) => {}
            Ok(false) => return Ok(()),
            Err(refusal) => return Err(refusal),
        }
    }
    Err(Refusal::Exhausted)
}

/// Ends a node whose text has ended: where bytes without a line feed are left, they are no line; else the checkpoint under way is ended, and the line
/// of the state is written.
///
/// Refuses with `Malformed`, at the number that the line would have, where it is cut; as `finish` does; with `OutOfMemory` where there is no
/// memory for the window; and with `StreamFault` a writer that fails, which it notes.
fn end_text<D: Disk, W: Sink>(
    alloc: Global,
    replica: &mut Replica<D>,
    counts: &mut Counts,
    input: &Input,
    writer: &mut W,
) -> Result<(), Refusal>
    ensures ends { EndsText D.Disk input.now.feed (counted input.now.number 1) replica.old replica.new (W.contents writer.old) (W.contents writer.new) result }
    // Nothing is delivered; where it ends well, the state closes the text.
    ensures lives { (facts_of D.Disk replica.old).phase ≡ Resting → (closing : List Said) × Lives D.Disk replica.old replica.new [] closing (W.contents writer.old) (W.contents writer.new) result × OnOk result (ClosesWell replica.new closing) }
    ensures line { IfErr result (λ e. is_of_line e ≡ true → replica.new ≡ replica.old) }
    ensures own { NotWrongCluster result }
    ensures notes { Notes (W.failed writer.old) (W.failed writer.new) result }
{
    parts_are_joined::<D>();
    nodes_hold_the_order();
    if !input.feed.is_empty() {
        return Err(Refusal::Malformed {
            at: input.next_number(),
        });
    }
    if let Err(refusal) = finish(replica, counts, writer) {
        return Err(refusal);
    }
    match replica.window(alloc) {
        Ok(window) => write_state(writer, replica, window.entries()),
        Err(refusal) => Err(refusal),
    }
}

/// Follows the order behind its first line, up to the end of the text.
fn follow_order<D: Disk + CountsSyncs, R: Source, W: Sink, E: Exchange>(
    alloc: Global,
    replica: &mut Replica<D>,
    exchange: &mut E,
    counts: &mut Counts,
    input: &mut Input,
    position: u64,
    source: &mut R,
    writer: &mut W,
) -> Result<(), Refusal>
    requires told { (facts_of D.Disk replica.old).ahead ≡ [] }
    requires based { replica.old.engine.checkpoint.base.position ≤ (facts_of D.Disk replica.old).durable }
    requires within { position ≤ (facts_of D.Disk replica.old).durable }
    ensures told { OnOk result ((facts_of D.Disk replica.new).ahead ≡ []) }
    ensures ended { OnOk result (HasNoFeed input.new.feed × IsAtEnd (R.remaining source.new)) }
    // What was delivered are the items of the lines behind those that were durable already.
    ensures lives { FollowsOrder D.Disk position replica.old replica.new (ahead input.old.feed (R.remaining source.old)) (ahead input.new.feed (R.remaining source.new)) (W.contents writer.old) (W.contents writer.new) [] result }
    ensures notes { NotesEither (R.failed source.old) (R.failed source.new) (W.failed writer.old) (W.failed writer.new) result }
{
    parts_are_joined::<D>();
    let mut passed = position;
    match pass_durable(
        alloc,
        replica,
        exchange,
        counts,
        input,
        &mut passed,
        source,
        writer,
    ) {
        Ok(true) => {}
        Ok(false) => return Ok(()),
        Err(refusal) => return Err(refusal),
    }
    let Some(mut next) = passed.checked_add(1) else {
        return Err(Refusal::Exhausted);
    };
    follow_text(
        alloc, replica, exchange, counts, input, &mut next, source, writer,
    )
}

/// Why the node ends, where following the order was refused so: what came before a line that ends it is made durable and told first, and may be refused.
fn end_behind<D: Disk, W: Sink>(
    replica: &mut Replica<D>,
    counts: &mut Counts,
    refusal: Refusal,
    writer: &mut W,
) -> Refusal
    ensures told { is_of_line refusal ≡ true → is_of_line result ≡ true → (facts_of D.Disk replica.new).ahead ≡ [] }
    ensures lives { is_of_line refusal ≡ true → (receipts : List Reply) × Lives D.Disk replica.old replica.new [] (receipts_said receipts) (W.contents writer.old) (W.contents writer.new) (Err result) }
    ensures own { is_of_line refusal ≡ true → NotWrongCluster (Err result) }
    ensures line { is_of_line refusal ≡ true → Notes {T = Unit {0}} (W.failed writer.old) (W.failed writer.new) (Err result) }
    ensures other { is_of_line refusal ≡ false → (result ≡ refusal) × (replica.new ≡ replica.old) × (writer.new ≡ writer.old) }
{
    parts_are_joined::<D>();
    if !is_of_line(refusal) {
        return refusal;
    }
    match commit(replica, counts, writer) {
        Ok(()) => refusal,
        Err(refusal) => refusal,
    }
}

/// Follows an order by this replica, from the first line of the text to its end.
fn follow<D: Disk + CountsSyncs, R: Source, W: Sink, E: Exchange>(
    alloc: Global,
    replica: &mut Replica<D>,
    source: &mut R,
    writer: &mut W,
    exchange: &mut E,
) -> Result<(), Refusal>
    requires told { (facts_of D.Disk replica.old).ahead ≡ [] }
    requires based { replica.old.engine.checkpoint.base.position ≤ (facts_of D.Disk replica.old).durable }
    requires rests { (facts_of D.Disk replica.old).phase ≡ Resting }
    ensures quiet { OnOk result (is_quiet (facts_of D.Disk replica.new) ≡ true) }
    // What was delivered are the items of the lines behind those that were durable already.
    ensures lives { FollowsText D.Disk replica.old replica.new (ahead [] (R.remaining source.old)) (W.contents writer.old) (W.contents writer.new) result }
    // Where it ends at a line, all that came before is durable.
    ensures told { IfErr result (λ e. is_of_line e ≡ true → (facts_of D.Disk replica.new).ahead ≡ []) }
    ensures notes { NotesEither (R.failed source.old) (R.failed source.new) (W.failed writer.old) (W.failed writer.new) result }
{
    parts_are_joined::<D>();
    let mut input = Input::new();
    let mut counts = Counts::new();
    let position = match open_order(replica, &mut input, source, writer) {
        Ok(position) => position,
        Err(refusal) => return Err(refusal),
    };
    match follow_order(
        alloc,
        replica,
        exchange,
        &mut counts,
        &mut input,
        position,
        source,
        writer,
    ) {
        Ok(()) => end_text(alloc, replica, &mut counts, &input, writer),
        Err(refusal) => Err(end_behind(replica, &mut counts, refusal, writer)),
    }
}

/// Follows an order by the node on this disk, which is opened first, as long as the text goes on: the lines of the text are items of the
/// order, which are made durable and answered, and commands, which are answered at what is durable. The disk comes back beside the answer.
///
/// Refuses the disk as `Replica::open` does, before the first line is read; a text without words with `Malformed`, at one more than its lines, and another
/// first line than that of an order, at its number; a node of no cluster with `Undefined`, the order of another cluster with `WrongCluster`, and a position
/// above what is durable with `OutOfOrder`; an item whose number is not the next with `OutOfOrder`, and one whose number is not of its form with `Malformed`,
/// at the line's number; an item that is durable already and is not that of the log with `WrongCluster`; a last line without a line feed with
/// `Malformed`, at the number that it would have. What came before any of these is durable then, and told. And with `OutOfMemory`, `DiskFault`, and
/// `Corrupt` as a block, a checkpoint and the log are; with `Exhausted` where no seqno is left; and with `StreamFault` where a stream fails, which it
/// notes.
pub fn follow_on_disk<D: Disk + CountsSyncs, R: Source, W: Sink, E: Exchange>(
    alloc: Global,
    disk: D,
    source: &mut R,
    writer: &mut W,
    exchange: &mut E,
) -> (D, Result<(), Refusal>)
    ensures ends { EndsOnDisk D.Disk disk (ahead [] (R.remaining source.old)) result.0 (W.contents writer.old) (W.contents writer.new) result.1 }
    // A stream fault is one of the streams.
    ensures notes { NotesEither (R.failed source.old) (R.failed source.new) (W.failed writer.old) (W.failed writer.new) result.1 }
{
    match Replica::open(alloc, disk) {
        Ok(mut replica) => {
            let outcome = follow(alloc, &mut replica, source, writer, exchange);
            (replica.into_disk(), outcome)
        }
        Err((disk, refusal)) => (disk, Err(refusal)),
    }
}

/// A life in which lines of an order were followed, as `follow_on_disk` follows them from its opening on, was fed lines of it. So, by
/// `followers_follow_the_order`, lives of this kind follow the order: what they have is a front of it, with all that was durable behind the last answer of
/// each, and their receipts are the replies of a node that never stopped.
pub fn followers_are_fed<D: Disk>()
    ensures { FollowersAreFed D.Disk }
{}
