//! A transfer, written part by part.

ghost use Rattle.std.specs.Prelude.{◌≡◌, ◌<◌, ◌^◌, ◌∷◌, ◌++◌, List, true, Err, OnOk};
ghost use Rattle.rep_types.specs.Entries.{Entry};
ghost use Rattle.std.specs.Io.KnownBytes.{Keeps};
ghost use Rattle.rep_streams.specs.Streams.{Notes};
ghost use Rattle.rep_layout.specs.Supers.{IsNil};
ghost use Rattle.rep_forms.specs.Forms.{number_bytes};
ghost use Rattle.rep_forms.specs.Entries.{EntryFits, entry_bytes};
ghost use Rattle.rep_record.specs.Records.{IsRecord, is_placed};
ghost use Rattle.rep_transfer.specs.Haves.{IsHeader, header_bytes};
ghost use Rattle.rep_layout.specs.declared.format.Format.TheVariants.{Two};
ghost use Rattle.rep_transfer.specs.Pieces.{PageFits, page_bytes};
ghost use Rattle.rep_transfer.specs.Transfers.{reach_bytes, record_part, end_bytes};
ghost use Rattle.rep_transfer.specs.Writing.{Wrote};

use crate::header::Header;
use crate::part::{END, RECORD, SNAPSHOT};
use crate::pieces::{NumberedPage, PIECE};
use arrayvec::ArrayVec;
use rep_forms::{MAX_ENTRY, Put, put_bytes, put_u8, put_u16, put_u64};
use rep_record::{MAX_RECORD, put_record};
use rep_streams::Sink;
use rep_types::{Entry, Judged, Refusal, WindowSize};

/// The number of bytes of the longest record behind its letter.
const RECORD_PART: usize = MAX_RECORD + 1;

/// Writes the header.
///
/// Refuses with `Undefined` one of the nil UUID, and writes nothing; and with `StreamFault` exactly where the sink fails, which has
/// then taken a front of it, and not all.
pub fn write_header<W: Sink>(writer: &mut W, header: &Header) -> Result<(), Refusal>
    ensures undefined { IsNil header.now.uuid → (result ≡ Err Refusal.Undefined) × Keeps (W.contents writer.old) (W.contents writer.new) }
    ensures written { (IsNil header.now.uuid → ⊥) → Wrote (W.contents writer.old) (W.contents writer.new) (header_bytes header.now) result }
    ensures fits { OnOk result (IsHeader header.now) }
    ensures form { (IsNil header.now.uuid → ⊥) → IsHeader header.now }
    ensures notes { Notes (W.failed writer.old) (W.failed writer.new) result }
{
    match header.write_bytes() {
        Some(bytes) => writer.put(bytes.as_slice()),
        None => Err(Refusal::Undefined),
    }
}

/// Writes what a snapshot begins with, in format 2: its position, and how far its window reaches back. How many entries that has is
/// written next, and these, and then the pages.
///
/// Refuses with `StreamFault` exactly where the sink fails, which has then taken a front of it, and not all.
#[tactic(auto, using(rep_forms::specs::FormLaws::sizes, std::proofs::Common::append_assoc))]
pub fn write_front<W: Sink>(
    writer: &mut W,
    position: u64,
    size: WindowSize,
    floor: u64,
) -> Result<(), Refusal>
    ensures written { (entries : List Entry) → Wrote (W.contents writer.old) (W.contents writer.new) (83 ∷ (number_bytes 8 position ++ reach_bytes Two (record { size = size; floor = floor; entries = entries }))) result }
    ensures size { size < 2 ^ 16 }
    ensures notes { Notes (W.failed writer.old) (W.failed writer.new) result }
{
    let mut out: ArrayVec<u8, 19> = ArrayVec::new();
    put_u8(&mut out, SNAPSHOT);
    put_u64(&mut out, position);
    put_u16(&mut out, size.get() as u16);
    put_u64(&mut out, floor);
    writer.put(out.as_slice())
}

/// Writes an entry of a snapshot's window.
///
/// Refuses with `StreamFault` exactly where the sink fails, which has then taken a front of it, and not all.
pub fn write_entry<W: Sink>(writer: &mut W, entry: &Entry) -> Result<(), Refusal>
    ensures written { Wrote (W.contents writer.old) (W.contents writer.new) (entry_bytes entry.now) result }
    ensures fits { EntryFits entry.now }
    ensures notes { Notes (W.failed writer.old) (W.failed writer.new) result }
{
    let mut out: ArrayVec<u8, MAX_ENTRY> = ArrayVec::new();
    entry.put(&mut out);
    writer.put(out.as_slice())
}

/// Writes how many entries the window of a snapshot has, or how many pages the snapshot has: they are written next.
///
/// Refuses with `StreamFault` exactly where the sink fails, which has then taken a front of it, and not all.
pub fn write_count<W: Sink>(writer: &mut W, count: u16) -> Result<(), Refusal>
    ensures written { Wrote (W.contents writer.old) (W.contents writer.new) (number_bytes 2 count) result }
    ensures notes { Notes (W.failed writer.old) (W.failed writer.new) result }
{
    let mut out: ArrayVec<u8, 2> = ArrayVec::new();
    put_u16(&mut out, count);
    writer.put(out.as_slice())
}

/// Writes a page of a snapshot.
///
/// Refuses with `StreamFault` exactly where the sink fails, which has then taken a front of it, and not all.
pub fn write_page<W: Sink>(writer: &mut W, page: &NumberedPage) -> Result<(), Refusal>
    ensures written { Wrote (W.contents writer.old) (W.contents writer.new) (page_bytes page.now) result }
    ensures fits { PageFits page.now }
    ensures notes { Notes (W.failed writer.old) (W.failed writer.new) result }
{
    let mut out: ArrayVec<u8, PIECE> = ArrayVec::new();
    page.put(&mut out);
    writer.put(out.as_slice())
}

/// Writes an item with its seqno and its verdict, which has a place in a record: `is_placed` of rep_record says whether it has.
///
/// Refuses with `StreamFault` exactly where the sink fails, which has then taken a front of it, and not all.
pub fn write_record<W: Sink>(writer: &mut W, judged: &Judged) -> Result<(), Refusal>
    requires { is_placed judged.now ≡ true }
    ensures written { Wrote (W.contents writer.old) (W.contents writer.new) (record_part judged.now) result }
    ensures fits { IsRecord judged.now }
    ensures notes { Notes (W.failed writer.old) (W.failed writer.new) result }
{
    match put_record(judged) {
        Some(record) => {
            let mut out: ArrayVec<u8, RECORD_PART> = ArrayVec::new();
            put_u8(&mut out, RECORD);
            put_bytes(&mut out, record.as_slice());
            writer.put(out.as_slice())
        }
        None => unreachable!(),
    }
}

/// Writes the end of a transfer, at this position.
///
/// Refuses with `StreamFault` exactly where the sink fails, which has then taken a front of it, and not all.
pub fn write_end<W: Sink>(writer: &mut W, last: u64) -> Result<(), Refusal>
    ensures written { Wrote (W.contents writer.old) (W.contents writer.new) (end_bytes last) result }
    ensures notes { Notes (W.failed writer.old) (W.failed writer.new) result }
{
    let mut out: ArrayVec<u8, 9> = ArrayVec::new();
    put_u8(&mut out, END);
    put_u64(&mut out, last);
    writer.put(out.as_slice())
}
