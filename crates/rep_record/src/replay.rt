//! Blocks whose records are given on as they are read.

ghost use Rattle.std.specs.Prelude.{◌≡◌, ℕ, List, length, IfOk, IfErr, IfSome, None};
ghost use Rattle.rep_types.specs.declared.judged.Judged.{Judged};
ghost use Rattle.rep_record.specs.Blocks.{HasHead, head_with, IsNextBlock, IsNextRecord, RefusesRecords};
ghost use Rattle.rep_record.specs.Replaying.{Replayed, Rejected};

use crate::block_reader::Head;
use crate::limits::{BLOCK, MAX_RECORDS};
use crate::record::Record;
use crate::replays::Replays;
use rep_forms::{are_blank, read_front, runs_are_told, spellings_are_told};
use rep_types::{Judged, Part, Refusal};

/// What is answered where there is no such block.
const CORRUPT: Refusal = Refusal::Corrupt { part: Part::Log };

/// How many records the block of this number says that it has, of this seqno and those that follow, and the bytes behind that.
fn read_head(bytes: &[u8], cell: u64, seqno: u64) -> Option<(u16, &[u8])>
    ensures some { IfSome result (λ x. HasHead bytes.now (head_with cell seqno x.0) x.1.now) }
    ensures none { result ≡ None → (count : ℕ) (rest : List ℕ) → HasHead bytes.now (head_with cell seqno count) rest → ⊥ }
{
    if bytes.len() != BLOCK {
        return None;
    }
    let (head, rest) = read_front::<Head>(bytes)?;
    if head.cell != cell || head.first != seqno || head.count == 0 || head.count > MAX_RECORDS {
        return None;
    }
    Some((head.count, rest))
}

/// Gives on the record of this seqno that the bytes begin with, and gives back the bytes behind it.
fn replay_record<'a, S: Replays>(
    bytes: &'a [u8],
    seqno: u64,
    to: &mut S,
) -> Result<&'a [u8], Refusal>
    ensures replayed { IfOk result (λ rest. (j : Judged) × IsNextRecord seqno bytes.now j rest.now × S.takes to.old j to.new) }
    ensures refused { IfErr result (RefusesRecords ((j : Judged) (rest : List ℕ) → IsNextRecord seqno bytes.now j rest → S.rejects to.old j)) }
{
    let Some((record, rest)) = read_front::<Record>(bytes) else {
        return Err(CORRUPT);
    };
    let judged = record.judged();
    if judged.seqno != seqno {
        return Err(CORRUPT);
    }
    to.replay(judged)?;
    Ok(rest)
}

/// Reads the block of this number, whose records have this seqno and those that follow, and gives each of them on as it
/// is read: `read_block` looks at all of them before it hands out the first. Says how many there are.
///
/// Refuses with `Corrupt` of the log bytes that are no such block, behind as many records as stand there, and as `to` refuses one.
pub fn replay_block<S: Replays>(
    bytes: &[u8],
    cell: u64,
    seqno: u64,
    to: &mut S,
) -> Result<u16, Refusal>
    ensures replayed { IfOk result (λ count. (records : List Judged) × IsNextBlock cell seqno bytes.now records × (count ≡ length records) × Replayed S.Replays to.old records to.new) }
    ensures refused { IfErr result (RefusesRecords ((records : List Judged) → IsNextBlock cell seqno bytes.now records → Rejected S.Replays to.old records)) }
{
    spellings_are_told::<Head>();
    runs_are_told::<Record>();
    spellings_are_told::<Record>();
    let Some((count, mut rest)) = read_head(bytes, cell, seqno) else {
        return Err(CORRUPT);
    };
    let mut next = seqno;
    for _ in 0..count {
        rest = replay_record(rest, next, to)?;
        next += 1;
    }
    if !are_blank(rest) {
        return Err(CORRUPT);
    }
    Ok(count)
}
