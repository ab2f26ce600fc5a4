//! Records as bytes.

ghost use Rattle.std.specs.Prelude.{◌≡◌, ◌+◌, ◌≤◌, ◌<◌, ◌^◌, [], ◌∷◌, ◌++◌, ◌↔◌, ℕ, List, length, true, Ok, IfOk, IfErr, IsTrue, IsSome, IfSome, option_map};
ghost use Rattle.std.specs.List.{AllByRecursion};
ghost use Rattle.rep_types.specs.declared.judged.Judged.{Judged};
ghost use Rattle.rep_types.specs.Transactions.{IsWithinLimits};
ghost use Rattle.rep_types.specs.Windows.{is_window_size};
ghost use Rattle.rep_types.specs.Items.{seen_by, source_of, trx_of};
ghost use Rattle.rep_forms.specs.Forms.{number, number_bytes};
ghost use Rattle.rep_forms.specs.Keys.{KeyFits};
ghost use Rattle.rep_forms.specs.Writes.{WriteFits};
ghost use Rattle.rep_record.specs.Records.{HasSpelling, IsRecord, spelled, IsFront, RecordsAreTold, is_verdict_at, suits, is_placed, verdict_bytes, labels_in, label_bytes, list_bytes, content_bytes, record_bytes, label_fields, verdict_of, verdict_fields, size_width, list_fields, item_of, record_form};

use crate::limits::MAX_RECORD;
use crate::room::item_len;
use arrayvec::ArrayVec;
use rep_forms::{
    Exact, Form, put_run, put_u8, put_u16, put_u64, read_front, read_run, read_u8, read_u16,
    read_u64, spellings_are_told, strip_front,
};
use rep_types::{
    Item, Judged, Key, MAX_READS, MAX_SEQNO, MAX_WRITES, Refusal, SetWindow, Verdict, WindowSize,
    Write, WriteSet,
};
use std::marker::Model;

type Bytes = ArrayVec<u8, MAX_RECORD>;

/// The numbers of a record, in their order.
#[derive(Drop)]
struct Labels {
    seqno: u64,
    last_seen: u64,
    source: u64,
    trx: u64,
}

/// Whether a conflict is with an item before this one.
fn is_verdict_at(seqno: u64, verdict: Verdict) -> bool
    ensures { result ≡ is_verdict_at seqno verdict }
{
    match verdict {
        Verdict::Conflict(with) => 1 <= with && with < seqno,
        Verdict::Commit | Verdict::Stale | Verdict::Future | Verdict::BadKey => true,
    }
}

/// Whether the item may have the verdict: a change of the window's size always commits.
fn suits(item: &Item, verdict: Verdict) -> bool
    ensures { result ≡ suits item.now verdict }
{
    match item {
        Item::WriteSet(_) => true,
        Item::SetWindow(_) => verdict.is_commit(),
    }
}

/// Whether the item can be written as a record: its seqno is from 1 to 2^60, a conflict is with an item
/// before it, and a change of the window's size commits.
pub fn is_placed(judged: &Judged) -> bool
    ensures { result ≡ is_placed judged.now }
{
    1 <= judged.seqno
        && judged.seqno <= MAX_SEQNO
        && is_verdict_at(judged.seqno, judged.verdict)
        && suits(&judged.item, judged.verdict)
}

/// Puts a verdict: 9 bytes.
#[tactic(auto, using(rep_forms::specs::FormLaws::sizes, rep_forms::specs::FormLaws::joined))]
fn put_verdict(out: &mut Bytes, verdict: Verdict)
    requires { length out.old.items + 9 ≤ MAX_RECORD }
    ensures bytes { out.new.items ≡ out.old.items ++ verdict_bytes verdict }
{
    let (code, seqno) = match verdict {
        Verdict::Commit => (0, 0),
        Verdict::Conflict(seqno) => (1, seqno),
        Verdict::Stale => (2, 0),
        Verdict::Future => (3, 0),
        Verdict::BadKey => (4, 0),
    };
    put_u8(out, code);
    put_u64(out, seqno);
}

/// The numbers of a record of the item with this seqno.
fn labels_of(seqno: u64, item: &Item) -> Labels
    ensures { result ≡ labels_in seqno item.now }
{
    let last_seen = match item {
        Item::WriteSet(write_set) => write_set.last_seen(),
        Item::SetWindow(_) => 0,
    };
    Labels {
        seqno,
        last_seen,
        source: item.source(),
        trx: item.trx(),
    }
}

/// Puts the numbers of a record: 32 bytes.
#[tactic(auto, using(rep_forms::specs::FormLaws::sizes, rep_forms::specs::FormLaws::joined))]
fn put_labels(out: &mut Bytes, labels: &Labels)
    requires { length out.old.items + 32 ≤ MAX_RECORD }
    ensures bytes { out.new.items ≡ out.old.items ++ label_bytes labels.now }
    ensures last_seen { labels.now.last_seen < 2 ^ 64 }
    ensures source { labels.now.source < 2 ^ 64 }
    ensures trx { labels.now.trx < 2 ^ 64 }
{
    put_u64(out, labels.seqno);
    put_u64(out, labels.last_seen);
    put_u64(out, labels.source);
    put_u64(out, labels.trx);
}

/// Puts the reads and the writes, behind how many there are: at most 1,186 bytes.
#[tactic(auto, using(rep_forms::specs::FormLaws::sizes, rep_forms::specs::FormLaws::joined))]
fn put_lists(out: &mut Bytes, item: &WriteSet)
    requires { length out.old.items + 1186 ≤ MAX_RECORD }
    ensures bytes { out.new.items ≡ out.old.items ++ list_bytes item.now }
    ensures size { length (list_bytes item.now) ≤ 1186 }
    ensures limits { IsWithinLimits item.now }
    ensures reads { AllByRecursion KeyFits item.now.reads }
    ensures writes { AllByRecursion WriteFits item.now.writes }
{
    let reads = item.reads();
    let writes = item.writes();
    put_u8(out, reads.len() as u8);
    put_u8(out, writes.len() as u8);
    put_run(out, reads);
    put_run(out, writes);
}

/// Puts what stands in the place of reads and writes where the window's size changes: 4 bytes.
#[tactic(auto, using(rep_forms::specs::FormLaws::sizes, rep_forms::specs::FormLaws::joined))]
fn put_size(out: &mut Bytes, size: WindowSize)
    requires { length out.old.items + 4 ≤ MAX_RECORD }
    ensures bytes { out.new.items ≡ out.old.items ++ (0 ∷ 0 ∷ number_bytes 2 size) }
    ensures size { IsTrue (is_window_size size) }
{
    put_u8(out, 0);
    put_u8(out, 0);
    put_u16(out, size.get() as u16);
}

/// Puts what the item says behind its labels: at most 1,186 bytes.
#[tactic(auto, using(rep_forms::specs::FormLaws::sizes))]
fn put_content(out: &mut Bytes, item: &Item)
    requires { length out.old.items + 1186 ≤ MAX_RECORD }
    ensures bytes { out.new.items ≡ out.old.items ++ content_bytes item.now }
    ensures size { length (content_bytes item.now) ≤ 1186 }
    ensures spelled { seen_by item.now < 2 ^ 64 → source_of item.now < 2 ^ 64 → trx_of item.now < 2 ^ 64 → HasSpelling item.now }
{
    match item {
        Item::WriteSet(write_set) => put_lists(out, write_set),
        Item::SetWindow(change) => put_size(out, change.size),
    }
}

/// Puts the bytes of a record of this item with this seqno and this verdict, whether or not they fit it, where nothing was put yet.
#[tactic(auto, using(rep_forms::specs::FormLaws::sizes, rep_forms::specs::FormLaws::joined))]
fn put_item(out: &mut Bytes, seqno: u64, item: &Item, verdict: Verdict)
    requires { out.old.items ≡ [] }
    ensures bytes { out.new.items ≡ spelled seqno item.now verdict }
    ensures size { length out.new.items ≤ MAX_RECORD }
    ensures spelled { HasSpelling item.now }
{
    put_u16(out, item_len(item) as u16);
    put_labels(out, &labels_of(seqno, item));
    put_verdict(out, verdict);
    put_content(out, item);
}

/// Puts the bytes of a record where nothing was put yet, and says whether that is its spelling: whether it has one.
#[tactic(auto, using(crate::proofs::Records::suits_is, crate::proofs::Records::is_suited))]
pub(crate) fn put_spelling(out: &mut Bytes, judged: &Judged) -> bool
    requires { out.old.items ≡ [] }
    ensures placed { result ≡ is_placed judged.now }
    ensures record { result ≡ true → IsRecord judged.now }
    ensures bytes { out.new.items ≡ record_bytes judged.now }
    ensures size { length (record_bytes judged.now) ≤ MAX_RECORD }
{
    put_item(out, judged.seqno, &judged.item, judged.verdict);
    is_placed(judged)
}

/// The bytes of a record, at most 1,229: a delivered item with its seqno and its verdict. None where
/// it has no spelling: where its seqno is not from 1 to 2^60, a conflict is not with an item before it,
/// or a change of the window's size has not committed.
pub fn put_record(judged: &Judged) -> Option<ArrayVec<u8, MAX_RECORD>>
    ensures placed { IsSome result ↔ (is_placed judged.now ≡ true) }
    // What is put has a spelling, and that is it: so it is read again.
    ensures bytes { IfSome result (λ b. IsRecord judged.now × (b.items ≡ record_bytes judged.now)) }
    ensures size { length (record_bytes judged.now) ≤ MAX_RECORD }
{
    let mut out = ArrayVec::new();
    if !put_spelling(&mut out, judged) {
        return None;
    }
    Some(out)
}

/// The numbers of a record, and the bytes behind them.
fn read_labels(bytes: &[u8]) -> Option<(Labels, &[u8])>
    ensures { option_map (λ x. (x.0, x.1.now)) result ≡ label_fields.read bytes.now }
{
    let (seqno, rest) = read_u64(bytes)?;
    let (last_seen, rest) = read_u64(rest)?;
    let (source, rest) = read_u64(rest)?;
    let (trx, rest) = read_u64(rest)?;
    let labels = Labels {
        seqno,
        last_seen,
        source,
        trx,
    };
    Some((labels, rest))
}

/// The verdict of this number, with the seqno of a conflict.
fn verdict_from(code: u8, seqno: u64) -> Option<Verdict>
    ensures { result ≡ verdict_of code seqno }
{
    match code {
        0 => Some(Verdict::Commit),
        1 => Some(Verdict::Conflict(seqno)),
        2 => Some(Verdict::Stale),
        3 => Some(Verdict::Future),
        4 => Some(Verdict::BadKey),
        _ => None,
    }
}

/// A verdict, and the bytes behind it.
fn read_verdict(bytes: &[u8]) -> Option<(Verdict, &[u8])>
    ensures { option_map (λ x. (x.0, x.1.now)) result ≡ verdict_fields.read bytes.now }
{
    let (code, rest) = read_u8(bytes)?;
    let (seqno, rest) = read_u64(rest)?;
    let verdict = verdict_from(code, seqno)?;
    Some((verdict, rest))
}

/// What an item says: its reads and its writes or, where there is no write, the size.
#[derive(Drop)]
struct Content {
    reads: ArrayVec<Key, MAX_READS>,
    writes: ArrayVec<Write, MAX_WRITES>,
    size: u16,
}

/// The size, which stands behind no write alone, else 0, and the bytes behind it.
fn read_size(bytes: &[u8], writes: u8) -> Option<(u16, &[u8])>
    ensures { option_map (λ x. (x.0, x.1.now)) result ≡ (number (size_width writes)).read bytes.now }
{
    if writes == 0 {
        return read_u16(bytes);
    }
    Some((0, bytes))
}

/// What an item says, and the bytes behind it.
fn read_content(bytes: &[u8]) -> Option<(Content, &[u8])>
    ensures { option_map (λ x. ((x.0.reads.items, (x.0.writes.items, x.0.size)), x.1.now)) result ≡ list_fields.read bytes.now }
{
    let (read_count, rest) = read_u8(bytes)?;
    let (write_count, rest) = read_u8(rest)?;
    let (reads, rest) = read_run::<Key, MAX_READS>(rest, usize::from(read_count))?;
    let (writes, rest) = read_run::<Write, MAX_WRITES>(rest, usize::from(write_count))?;
    let (size, rest) = read_size(rest, write_count)?;
    let content = Content {
        reads,
        writes,
        size,
    };
    Some((content, rest))
}

/// The item of these labels that says this: without a write it is a change of the window's size.
fn item_from(labels: &Labels, content: &Content) -> Option<Item>
    ensures { result ≡ item_of labels.now (content.now.reads.items, (content.now.writes.items, content.now.size)) }
{
    if content.writes.is_empty() {
        let size = WindowSize::new(u64::from(content.size)).ok()?;
        return Some(Item::SetWindow(SetWindow {
            size,
            source: labels.source,
            trx: labels.trx,
        }));
    }
    let write_set = WriteSet::new(
        labels.source,
        labels.trx,
        labels.last_seen,
        content.reads.as_slice(),
        content.writes.as_slice(),
    )
    .ok()?;
    Some(Item::WriteSet(write_set))
}

/// A judged item as it is read. It is a type of its own because a form belongs to a type of the crate
/// that states it.
#[derive(Drop)]
pub(crate) struct Record {
    judged: Judged,
}

impl Model for Record {
    ghost use Rattle.rep_types.specs.declared.judged.Judged.{Judged};

    ghost Value = { Judged };

    ghost view = { λ r. r.judged };
}

impl Record {
    /// The item.
    pub(crate) fn judged(&self) -> &Judged
        ensures { result.now ≡ self.now }
    {
        &self.judged
    }

    /// The item itself.
    pub(crate) fn into_judged(self) -> Judged
        ensures { result ≡ self }
    {
        self.judged
    }
}

impl Form for Record {
    ghost use Rattle.rep_record.specs.RecordLaws.{record_is_form};
    ghost use Rattle.rep_record.specs.declared.limits.TheConstants.{MAX_RECORD};

    ghost form = { record_form };

    ghost most = { MAX_RECORD };

    fn read(bytes: &[u8]) -> Option<(Record, &[u8])> {
        let (_, rest) = read_u16(bytes)?;
        let (labels, rest) = read_labels(rest)?;
        let (verdict, rest) = read_verdict(rest)?;
        let (content, rest) = read_content(rest)?;
        let judged = Judged {
            seqno: labels.seqno,
            item: item_from(&labels, &content)?,
            verdict,
        };
        Some((Record { judged }, rest))
    }

    ghost is_form = { record_is_form };
}

impl Exact for Record {
    fn strip<'a>(&self, bytes: &'a [u8]) -> Option<&'a [u8]> {
        let spelling = put_record(&self.judged)?;
        strip_front(bytes, spelling.as_slice())
    }
}

/// Reads one record from the front of the bytes, and says how many bytes it takes. What follows them
/// is not looked at.
///
/// Refuses with `Malformed`, `at` being 0, bytes that do not begin with the spelling of a record:
/// the length of all of it in 2 bytes; the seqno, from 1 to 2^60, last_seen, source and trx in 8
/// bytes each; the number of the verdict, 0 for commit, 1 for conflict, 2 for stale, 3 for future
/// and 4 for badkey, in 1 byte; in 8 bytes the seqno of a conflict, from 1 to the one before the
/// record's own, and zero for the others; how many reads, 0 to 16, and how many writes, 1 to 16, in
/// 1 byte each; the keys that are read, each its table in 1 byte and its row in 4; and the writes,
/// each its key, 1 byte that is 0 for a delete and 1 for a put, the length of the value in 1 byte, 0
/// to 62 and 0 for a delete, and the value. A change of the window's size has last_seen 0, commits, and
/// has no read, no write, and behind these numbers the size in 2 bytes, 1 to 256. The highest byte of a
/// number stands first, and the keys of the reads and of the writes ascend strictly.
pub fn read_record(bytes: &[u8]) -> Result<(Judged, usize), Refusal>
    // What is read is spelled so.
    ensures found { IfOk result (λ r. IsFront bytes.now r.0 r.1) }
    // What is spelled so is read, whatever follows.
    ensures only { (j : Judged) (rest : List ℕ) → IsRecord j → bytes.now ≡ record_bytes j ++ rest → result ≡ Ok (j, length (record_bytes j)) }
    // Anything else is refused.
    ensures refused { IfErr result (λ e. e ≡ Refusal.Malformed 0) }
{
    match read_front::<Record>(bytes) {
        Some((record, rest)) => Ok((record.into_judged(), bytes.len() - rest.len())),
        None => Err(Refusal::Malformed { at: 0 }),
    }
}

/// The spelling of a record tells the record and where it ends: none begins that of another.
pub fn records_are_told()
    ensures { RecordsAreTold }
{
    spellings_are_told::<Record>();
}
