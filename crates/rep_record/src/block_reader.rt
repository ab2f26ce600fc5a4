//! Blocks of records out of bytes.

ghost use Rattle.std.specs.Prelude.{◌≡◌, ◌+◌, ◌==◌, ℕ, List, [], ◌∷◌, length, Ok, IfOk, IfErr, IsOkAnd, MatchOption};
ghost use Rattle.rep_types.specs.declared.judged.Judged.{Judged};
ghost use Rattle.rep_record.specs.Blocks.{contents, block_bytes, IsBlock, IsRead, Refuses, BlocksAreTold, next_seqno, head_form};

use crate::limits::{BLOCK, HEAD, MAX_RECORDS};
use crate::record::Record;
use arrayvec::ArrayVec;
use rep_forms::{
    Chain, Exact, Form, Put, Run, are_blank, put_u16, put_u64, read_chain, read_front, read_u16,
    read_u64, runs_are_told, spellings_are_told, strip_front,
};
use rep_types::{Judged, MAX_SEQNO, Refusal};
use std::marker::Model;

/// What a block begins with: the number of its cell, the first seqno, and how many records there are.
#[derive(Drop)]
pub(crate) struct Head {
    pub(crate) cell: u64,
    pub(crate) first: u64,
    pub(crate) count: u16,
}

impl Form for Head {
    ghost use Rattle.rep_record.specs.BlockLaws.{head_is_form};

    ghost form = { head_form };

    ghost most = { 18 };

    fn read(bytes: &[u8]) -> Option<(Head, &[u8])> {
        let (cell, rest) = read_u64(bytes)?;
        let (first, rest) = read_u64(rest)?;
        let (count, rest) = read_u16(rest)?;
        Some((Head { cell, first, count }, rest))
    }

    ghost is_form = { head_is_form };
}

impl<const N: usize> Put<N> for Head {
    #[tactic(auto, using(rep_forms::specs::FormLaws::sizes, rep_forms::specs::FormLaws::joined))]
    fn put(&self, out: &mut ArrayVec<u8, N>) {
        put_u64(out, self.cell);
        put_u64(out, self.first);
        put_u16(out, self.count);
    }
}

impl Exact for Head {
    fn strip<'a>(&self, bytes: &'a [u8]) -> Option<&'a [u8]> {
        let mut spelling: ArrayVec<u8, HEAD> = ArrayVec::new();
        self.put(&mut spelling);
        strip_front(bytes, spelling.as_slice())
    }
}

/// Records whose seqnos follow one another.
#[derive(Drop)]
struct Seqnos {
    next: u64,
}

impl Model for Seqnos {
    ghost use Rattle.std.specs.Prelude.{ℕ};

    ghost Value = { ℕ };

    ghost view = { λ s. s.next };
}

impl Chain<Record> for Seqnos {
    ghost step = { next_seqno };

    fn admits(&mut self, record: &Record) -> bool {
        if record.judged().seqno != self.next || self.next > MAX_SEQNO {
            return false;
        }
        self.next += 1;
        true
    }
}

/// A block of records as it is read: it hands out its records one by one, out of bytes that were
/// looked at whole before.
#[derive(Drop)]
pub struct BlockReader<'a> {
    cell: u64,
    run: Run<'a, Record>,
}

impl<'a> Model for BlockReader<'a> {
    ghost use Rattle.rep_record.specs.Blocks.{Contents, contents};

    ghost Value = { Contents };

    ghost view = { λ b. contents b.cell b.run };
}

/// Reads a block, and says how it was read.
fn read_body(bytes: &[u8]) -> Result<BlockReader<'_>, Refusal>
    ensures read { IfOk result (λ b. IsRead bytes.now b.cell b.records) }
    ensures only { (cell : ℕ) (js : List Judged) → IsRead bytes.now cell js → IsOkAnd result (λ b. (b.cell ≡ cell) × (b.records ≡ js)) }
    ensures refused { IfErr result (λ e. Refuses bytes.now e) }
{
    let malformed = Refusal::Malformed { at: 0 };
    if bytes.len() != BLOCK {
        return Err(malformed);
    }
    let Some((head, body)) = read_front::<Head>(bytes) else {
        return Err(malformed);
    };
    if head.count == 0 || head.count > MAX_RECORDS {
        return Err(malformed);
    }
    let seqnos = Seqnos { next: head.first };
    match read_chain::<Record, Seqnos>(seqnos, body, head.count) {
        Err(at) => Err(Refusal::Malformed {
            at: (HEAD + at) as u64,
        }),
        Ok((_, rest)) if !are_blank(rest) => Err(malformed),
        Ok((run, _)) => Ok(BlockReader {
            cell: head.cell,
            run,
        }),
    }
}

/// Reads the block that all of the bytes are. It takes no memory: the records are read again where
/// they are handed out.
///
/// Refuses with `Malformed` what is no block: 7,680 bytes, of which the first 18 are the number of
/// the cell and the seqno of the first record in 8 bytes each and how many records there are, 1 to
/// 64, in 2; then the records, of that seqno and those that follow, as `read_record` reads them; and
/// zeros. `at` is the offset of the first record that is not of the form or whose seqno does not
/// follow, and 0 for the head and for the zeros.
#[tactic(auto, using(crate::proofs::Blocks::answer_found))]
pub fn read_block(bytes: &[u8]) -> Result<BlockReader<'_>, Refusal>
    // What is read is spelled so.
    ensures found { IfOk result (λ b. IsBlock b.cell b.records × (bytes.now ≡ block_bytes b.cell b.records)) }
    // What is spelled so is read.
    ensures only { (cell : ℕ) (js : List Judged) → IsBlock cell js → bytes.now ≡ block_bytes cell js → result ≡ Ok (contents cell js) }
    // Anything else is refused, at the first record that is not of the form.
    ensures refused { IfErr result (λ e. Refuses bytes.now e) }
{
    read_body(bytes)
}

impl<'a> BlockReader<'a> {
    /// The number of the cell that the block is for.
    pub fn cell(&self) -> u64
        ensures { result ≡ self.now.cell }
    {
        self.cell
    }

    /// How many records are still to be handed out.
    pub fn len(&self) -> u16
        ensures { result ≡ length self.now.records }
    {
        self.run.len()
    }

    /// Whether none is.
    pub fn is_empty(&self) -> bool
        ensures { result ≡ (length self.now.records == 0) }
    {
        self.run.len() == 0
    }

    /// Hands out the next record, in the order of the seqnos; None behind the last.
    pub fn next_record(&mut self) -> Option<Judged>
        ensures { MatchOption result ((self.old.records ≡ []) × (self.new ≡ self.old)) (λ j. self.old ≡ contents self.new.cell (j ∷ self.new.records)) }
    {
        Some(self.run.next_value()?.into_judged())
    }
}

/// The bytes of a block tell its cell and its records: no two blocks have one spelling.
#[tactic(auto, using(crate::proofs::Blocks::told_by))]
pub fn blocks_are_told()
    ensures { BlocksAreTold }
{
    spellings_are_told::<Head>();
    runs_are_told::<Record>();
}
