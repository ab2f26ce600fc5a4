//! The parts of a transfer behind its header.

ghost use Rattle.std.specs.Prelude.{◌≡◌, length, IfSome, IfOk, IfErr};
ghost use Rattle.rep_streams.specs.Streams.{Notes};
ghost use Rattle.rep_transfer.specs.Taking.{counted, TakesOne};
ghost use Rattle.rep_transfer.specs.Transfers.{PartFits, part_bytes};

use crate::reader::TransferReader;
use rep_streams::Source;
use rep_types::{Judged, Refusal};

/// The letter of a snapshot.
pub(crate) const SNAPSHOT: u8 = b'S';

/// The letter of a record.
pub(crate) const RECORD: u8 = b'I';

/// The letter of the end.
pub(crate) const END: u8 = b'E';

/// A part of a transfer.
#[derive(Debug, Drop)]
pub enum Part {
    /// A snapshot begins: its position. Its window follows, then how many pages there are, and the pages.
    Snapshot(u64),
    /// An item, with its seqno and its verdict.
    Record(Judged),
    /// The end, at this position.
    End(u64),
}

/// Takes the next part, of a snapshot its position; None where the stream has ended before its end, or does not have one there.
///
/// Refuses with `StreamFault` exactly where the source fails. After a refusal, and after None, the rest of the stream is not to be read.
pub fn next_part<R: Source>(
    transfer: &mut TransferReader,
    reader: &mut R,
) -> Result<Option<Part>, Refusal>
    // Where the bytes are known.
    ensures known { IfSome (R.remaining reader.old) (λ bytes. TakesOne PartFits part_bytes bytes (R.remaining reader.new) result) }
    // At any reader.
    ensures fits { IfOk result (λ found. IfSome found PartFits) }
    ensures taken { IfOk result (λ found. IfSome found (λ p. transfer.new ≡ counted transfer.old (length (part_bytes p)))) }
    ensures notes { Notes (R.failed reader.old) (R.failed reader.new) result }
    ensures refused { IfErr result (λ e. e ≡ Refusal.StreamFault) }
{
    let Some(letter) = transfer.next::<u8, R>(reader)? else {
        return Ok(None);
    };
    match letter {
        SNAPSHOT => Ok(transfer.next::<u64, R>(reader)?.map(Part::Snapshot)),
        RECORD => Ok(transfer.next::<Judged, R>(reader)?.map(Part::Record)),
        END => Ok(transfer.next::<u64, R>(reader)?.map(Part::End)),
        _ => Ok(None),
    }
}
