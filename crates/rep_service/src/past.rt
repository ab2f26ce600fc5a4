//! Items of the order that are durable already.

ghost use Rattle.std.specs.Prelude.{◌≡◌, ◌<◌, ◌≤◌, ◌+◌, ◌-◌, ◌^◌, true, false, [], ◌∷◌, Contains, Ok, Err, IfOk, OnOk, MatchResult};
ghost use Rattle.std.specs.Io.KnownBytes.{IsAtEnd};
ghost use Rattle.rep_lines.specs.Lines.{HasNoFeed};
ghost use Rattle.rep_lines.specs.Feeds.{ahead};
ghost use Rattle.rep_replica.specs.Replicas.{facts_of};
ghost use Rattle.rep_follow.specs.Following.{NotesEither};
ghost use Rattle.rep_service.specs.Commanding.{done_of};
ghost use Rattle.rep_service.specs.Passing.{Passes, PassesOld, PassesRecords};
ghost use Rattle.rep_service.specs.Living.{Misses, Reaches, PassesLines, IsOfLog};

use crate::commands::answer;
use crate::durable::{answer_durable, write_old};
use crate::exchange::Exchange;
use crate::input::Input;
use crate::syncs::CountsSyncs;
use rep_disk::Disk;
use rep_follow::{Counts, going_is_joined, parts_are_joined};
use rep_layout::LOG_BODY;
use rep_record::BlockReader;
use rep_replica::Replica;
use rep_requests::read_request;
use rep_streams::{Sink, Source};
use rep_types::{Item, Judged, Part, Refusal};
use std::alloc::Global;

/// The next item of the text, behind the last one, whose seqno is the position; commands before it are answered. None where the text ends.
///
/// Refuses as `Input::next_line` and `answer` do.
fn next_item<D: Disk + CountsSyncs, R: Source, W: Sink, E: Exchange>(
    alloc: Global,
    replica: &mut Replica<D>,
    exchange: &mut E,
    counts: &mut Counts,
    input: &mut Input,
    position: u64,
    source: &mut R,
    writer: &mut W,
) -> Result<Option<Item>, Refusal>
    requires told { (facts_of D.Disk replica.old).ahead ≡ [] }
    requires seqno { position < 2 ^ 64 - 1 }
    // Nothing is delivered.
    ensures reaches { MatchResult result (Reaches D.Disk (position + 1) replica.old replica.new input.new.feed (R.remaining source.new) (ahead input.old.feed (R.remaining source.old)) (ahead input.new.feed (R.remaining source.new)) (W.contents writer.old) (W.contents writer.new)) (Misses D.Disk (position + 1) replica.old replica.new (ahead input.old.feed (R.remaining source.old)) (ahead input.new.feed (R.remaining source.new)) (W.contents writer.old) (W.contents writer.new)) }
    ensures ahead { OnOk result ((facts_of D.Disk replica.new).ahead ≡ []) }
    // A stream fault is one of the streams.
    ensures notes { NotesEither (R.failed source.old) (R.failed source.new) (W.failed writer.old) (W.failed writer.new) result }
{
    parts_are_joined::<D>();
    going_is_joined::<D>();
    for _ in 0..u64::MAX {
        match input.next_line(replica, source) {
            Ok(true) => {}
            Ok(false) => return Ok(None),
            Err(refusal) => return Err(refusal),
        }
        let request = read_request(input.line.as_slice(), input.number);
        match answer(
            alloc,
            replica,
            exchange,
            counts,
            request,
            input.number,
            position + 1,
            writer,
        ) {
            Ok(None) => {}
            Ok(Some(item)) => return Ok(Some(item)),
            Err(refusal) => return Err(refusal),
        }
    }
    Err(Refusal::Exhausted)
}

/// Passes over the items up to the base, each of which is answered by `old` and its seqno: the log has them no more. The seqno of the last one is in
/// `position`. Answers `false` where the text ends before.
///
/// Refuses as `next_item` does, and with `StreamFault` a writer that fails.
fn pass_old<D: Disk + CountsSyncs, R: Source, W: Sink, E: Exchange>(
    alloc: Global,
    replica: &mut Replica<D>,
    exchange: &mut E,
    counts: &mut Counts,
    input: &mut Input,
    position: &mut u64,
    source: &mut R,
    writer: &mut W,
) -> Result<bool, Refusal>
    requires told { (facts_of D.Disk replica.old).ahead ≡ [] }
    requires based { replica.old.engine.checkpoint.base.position ≤ (facts_of D.Disk replica.old).durable }
    ensures passes { IfOk result (λ done. PassesOld replica.old.engine.checkpoint.base.position position.old (ahead input.old.feed (R.remaining source.old)) (ahead input.new.feed (R.remaining source.new)) done position.new) }
    // Nothing is delivered, and the position rises by one for each item of the lines, up to what is durable at most.
    ensures lives { PassesLines D.Disk replica.old.engine.checkpoint.base.position (λ j. ⊥) position.old replica.old replica.new (ahead input.old.feed (R.remaining source.old)) (ahead input.new.feed (R.remaining source.new)) position.new (W.contents writer.old) (W.contents writer.new) (done_of result) }
    ensures within { position.old ≤ (facts_of D.Disk replica.old).durable → OnOk result (position.new ≤ (facts_of D.Disk replica.old).durable) }
    // Where the text ends, nothing of it is left but bytes without a line feed.
    ensures left { result ≡ Ok false → HasNoFeed input.new.feed × IsAtEnd (R.remaining source.new) }
    ensures ahead { OnOk result ((facts_of D.Disk replica.new).ahead ≡ []) }
    // A stream fault is one of the streams.
    ensures notes { NotesEither (R.failed source.old) (R.failed source.new) (W.failed writer.old) (W.failed writer.new) result }
{
    parts_are_joined::<D>();
    let base = replica.base();
    'old: while *position < base {
        match next_item(
            alloc, replica, exchange, counts, input, *position, source, writer,
        ) {
            Ok(Some(_)) => {}
            Ok(None) => return Ok(false),
            Err(refusal) => return Err(refusal),
        }
        let seqno = *position + 1;
        if let Err(refusal) = write_old(writer, seqno) {
            return Err(refusal);
        }
        *position = seqno;
    }
    Ok(true)
}

/// Passes over the item of this record, which is above the position: the text's next item is compared with it. Answers `false` where the text ends
/// before.
///
/// Refuses as `next_item` and `answer_durable` do, and with `Corrupt` of the log a record that is not the next one, or is above what is durable: an
/// honest device shows none.
fn pass_record<D: Disk + CountsSyncs, R: Source, W: Sink, E: Exchange>(
    alloc: Global,
    replica: &mut Replica<D>,
    exchange: &mut E,
    counts: &mut Counts,
    input: &mut Input,
    judged: &Judged,
    position: &mut u64,
    source: &mut R,
    writer: &mut W,
) -> Result<bool, Refusal>
    requires told { (facts_of D.Disk replica.old).ahead ≡ [] }
    requires above { position.old < judged.now.seqno }
    // What was passed over is the record's item.
    ensures passes { IfOk result (λ done. done ≡ true → Passes position.old (ahead input.old.feed (R.remaining source.old)) (ahead input.new.feed (R.remaining source.new)) (judged.now.item ∷ []) position.new × (position.new ≡ judged.now.seqno)) }
    ensures ended { IfOk result (λ done. done ≡ false → Passes position.old (ahead input.old.feed (R.remaining source.old)) (ahead input.new.feed (R.remaining source.new)) [] position.new × (position.new ≡ position.old)) }
    ensures lives { PassesLines D.Disk 0 (λ j. j ≡ judged.now) position.old replica.old replica.new (ahead input.old.feed (R.remaining source.old)) (ahead input.new.feed (R.remaining source.new)) position.new (W.contents writer.old) (W.contents writer.new) (done_of result) }
    ensures within { position.old ≤ (facts_of D.Disk replica.old).durable → OnOk result (position.new ≤ (facts_of D.Disk replica.old).durable) }
    // Where the text ends, nothing of it is left but bytes without a line feed.
    ensures left { result ≡ Ok false → HasNoFeed input.new.feed × IsAtEnd (R.remaining source.new) }
    ensures ahead { OnOk result ((facts_of D.Disk replica.new).ahead ≡ []) }
    ensures notes { NotesEither (R.failed source.old) (R.failed source.new) (W.failed writer.old) (W.failed writer.new) result }
{
    parts_are_joined::<D>();
    let found = judged.seqno;
    let seqno = *position + 1;
    if found != seqno || found > replica.durable() {
        return Err(Refusal::Corrupt { part: Part::Log });
    }
    let item = match next_item(
        alloc, replica, exchange, counts, input, *position, source, writer,
    ) {
        Ok(Some(item)) => item,
        Ok(None) => return Ok(false),
        Err(refusal) => return Err(refusal),
    };
    if let Err(refusal) = answer_durable(judged, &item, writer) {
        return Err(refusal);
    }
    *position = seqno;
    Ok(true)
}

/// Passes over the items of a block behind the position, each of which is compared with its record. Answers `false` where the text ends before.
///
/// Refuses as `pass_record` does.
fn pass_block<D: Disk + CountsSyncs, R: Source, W: Sink, E: Exchange>(
    alloc: Global,
    replica: &mut Replica<D>,
    exchange: &mut E,
    counts: &mut Counts,
    input: &mut Input,
    mut block: BlockReader<'_>,
    position: &mut u64,
    source: &mut R,
    writer: &mut W,
) -> Result<bool, Refusal>
    requires { (facts_of D.Disk replica.old).ahead ≡ [] }
    ensures passes { IfOk result (λ done. PassesRecords block.entry.records position.old (ahead input.old.feed (R.remaining source.old)) (ahead input.new.feed (R.remaining source.new)) done position.new) }
    // Nothing is delivered, and the position rises by one for each item of the lines, up to what is durable at most.
    ensures lives { PassesLines D.Disk 0 (Contains block.entry.records) position.old replica.old replica.new (ahead input.old.feed (R.remaining source.old)) (ahead input.new.feed (R.remaining source.new)) position.new (W.contents writer.old) (W.contents writer.new) (done_of result) }
    ensures within { position.old ≤ (facts_of D.Disk replica.old).durable → OnOk result (position.new ≤ (facts_of D.Disk replica.old).durable) }
    // Where the text ends, nothing of it is left but bytes without a line feed.
    ensures left { result ≡ Ok false → HasNoFeed input.new.feed × IsAtEnd (R.remaining source.new) }
    ensures ahead { OnOk result ((facts_of D.Disk replica.new).ahead ≡ []) }
    // A stream fault is one of the streams.
    ensures notes { NotesEither (R.failed source.old) (R.failed source.new) (W.failed writer.old) (W.failed writer.new) result }
{
    parts_are_joined::<D>();
    'records: while let Some(judged) = block.next_record() {
        if judged.seqno > *position {
            match pass_record(
                alloc, replica, exchange, counts, input, &judged, position, source, writer,
            ) {
                Ok(true) => {}
                Ok(false) => return Ok(false),
                Err(refusal) => return Err(refusal),
            }
        }
    }
    Ok(true)
}

/// Passes over the items behind the base that are durable, block by block. Answers `false` where the text ends before.
///
/// Refuses as `pass_block` does; with `DiskFault` where the device fails; and with `Corrupt` of the log where it shows no such block.
fn pass_blocks<D: Disk + CountsSyncs, R: Source, W: Sink, E: Exchange>(
    alloc: Global,
    replica: &mut Replica<D>,
    exchange: &mut E,
    counts: &mut Counts,
    input: &mut Input,
    position: &mut u64,
    source: &mut R,
    writer: &mut W,
) -> Result<bool, Refusal>
    requires { (facts_of D.Disk replica.old).ahead ≡ [] }
    // Nothing is delivered, and the position rises by one for each item of the lines, up to what is durable at most.
    ensures lives { PassesLines D.Disk 0 (IsOfLog D.Disk replica.old) position.old replica.old replica.new (ahead input.old.feed (R.remaining source.old)) (ahead input.new.feed (R.remaining source.new)) position.new (W.contents writer.old) (W.contents writer.new) (done_of result) }
    ensures within { position.old ≤ (facts_of D.Disk replica.old).durable → OnOk result (position.new ≤ (facts_of D.Disk replica.old).durable) }
    // Where it goes on, all that is durable was passed over.
    ensures all { position.old ≤ (facts_of D.Disk replica.old).durable → result ≡ Ok true → position.new ≡ (facts_of D.Disk replica.old).durable }
    // Where the text ends, nothing of it is left but bytes without a line feed.
    ensures left { result ≡ Ok false → HasNoFeed input.new.feed × IsAtEnd (R.remaining source.new) }
    ensures ahead { OnOk result ((facts_of D.Disk replica.new).ahead ≡ []) }
    // A stream fault is one of the streams.
    ensures notes { NotesEither (R.failed source.old) (R.failed source.new) (W.failed writer.old) (W.failed writer.new) result }
{
    parts_are_joined::<D>();
    going_is_joined::<D>();
    let durable = replica.durable();
    let mut room = [0; LOG_BODY];
    for index in 0..u64::MAX {
        if *position >= durable {
            return Ok(true);
        }
        let block = match replica.tail_block(index, &mut room) {
            Ok(Some(block)) => block,
            Ok(None) => return Err(Refusal::Corrupt { part: Part::Log }),
            Err(refusal) => return Err(refusal),
        };
        match pass_block(
            alloc, replica, exchange, counts, input, block, position, source, writer,
        ) {
            Ok(true) => {}
            Ok(false) => return Ok(false),
            Err(refusal) => return Err(refusal),
        }
    }
    Err(Refusal::Exhausted)
}

/// Passes over the items that are durable already, from that behind the position on. Those up to the base are answered by `old`, and those behind it
/// from the log, with which they are compared. Answers `false` where the text ends before. The log is not written, and no checkpoint begins.
///
/// Refuses as `pass_old` and `pass_blocks` do.
pub(crate) fn pass_durable<D: Disk + CountsSyncs, R: Source, W: Sink, E: Exchange>(
    alloc: Global,
    replica: &mut Replica<D>,
    exchange: &mut E,
    counts: &mut Counts,
    input: &mut Input,
    position: &mut u64,
    source: &mut R,
    writer: &mut W,
) -> Result<bool, Refusal>
    requires told { (facts_of D.Disk replica.old).ahead ≡ [] }
    requires based { replica.old.engine.checkpoint.base.position ≤ (facts_of D.Disk replica.old).durable }
    requires within { position.old ≤ (facts_of D.Disk replica.old).durable }
    // Nothing is delivered, and the position rises by one for each item of the lines, up to what is durable at most.
    ensures lives { PassesLines D.Disk replica.old.engine.checkpoint.base.position (IsOfLog D.Disk replica.old) position.old replica.old replica.new (ahead input.old.feed (R.remaining source.old)) (ahead input.new.feed (R.remaining source.new)) position.new (W.contents writer.old) (W.contents writer.new) (done_of result) }
    ensures within { OnOk result (position.new ≤ (facts_of D.Disk replica.old).durable) }
    // Where it goes on, all that is durable was passed over.
    ensures all { result ≡ Ok true → position.new ≡ (facts_of D.Disk replica.old).durable }
    // Where the text ends, nothing of it is left but bytes without a line feed.
    ensures left { result ≡ Ok false → HasNoFeed input.new.feed × IsAtEnd (R.remaining source.new) }
    ensures ahead { OnOk result ((facts_of D.Disk replica.new).ahead ≡ []) }
    // A stream fault is one of the streams.
    ensures notes { NotesEither (R.failed source.old) (R.failed source.new) (W.failed writer.old) (W.failed writer.new) result }
{
    parts_are_joined::<D>();
    match pass_old(
        alloc, replica, exchange, counts, input, position, source, writer,
    ) {
        Ok(true) => {}
        Ok(false) => return Ok(false),
        Err(refusal) => return Err(refusal),
    }
    pass_blocks(
        alloc, replica, exchange, counts, input, position, source, writer,
    )
}
