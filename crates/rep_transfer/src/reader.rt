//! A transfer, read piece by piece.

ghost use Rattle.std.specs.Prelude.{◌≡◌, ◌+◌, ◌<◌, ◌≤◌, ℕ, length, take, true, false, None, IfSome, IfOk, IfErr};
ghost use Rattle.std.specs.Io.KnownBytes.{Consumes};
ghost use Rattle.rep_streams.specs.Streams.{Notes};
ghost use Rattle.rep_transfer.specs.Taking.{counted, TakesOne, BeginWithNone};

use crate::pieces::{PIECE, Piece};
use rep_streams::Source;
use rep_types::Refusal;
use std::marker::Model;

/// Reads until the room is full, and answers whether it is; else the stream has ended before.
///
/// Refuses with `StreamFault` where the source fails.
pub(crate) fn read_into<R: Source>(reader: &mut R, room: &mut [u8]) -> Result<bool, Refusal>
    ensures full { IfOk result (λ full. full ≡ true → Consumes (R.remaining reader.old) (R.remaining reader.new) room.new) }
    ensures short { IfOk result (λ full. full ≡ false → IfSome (R.remaining reader.old) (λ bytes. length bytes < length room.new)) }
    ensures notes { Notes (R.failed reader.old) (R.failed reader.new) result }
    ensures refused { IfErr result (λ e. e ≡ Refusal.StreamFault) }
{
    let mut count = 0;
    while count < room.len() {
        let taken = reader.read(&mut room[count..])?;
        if taken == 0 {
            return Ok(false);
        }
        count += taken;
    }
    Ok(true)
}

/// Reads as many bytes into the room as the first of them say that a piece has, and answers how many; None where the stream has fewer,
/// or the room.
///
/// Refuses with `StreamFault` where the source fails.
fn fill<T: Piece, R: Source>(
    reader: &mut R,
    room: &mut [u8; PIECE],
) -> Result<Option<usize>, Refusal>
    ensures found { IfOk result (λ found. IfSome found (λ size. Consumes (R.remaining reader.old) (R.remaining reader.new) (take size room.new))) }
    ensures size { IfOk result (λ found. IfSome found (λ size. (size ≡ T.HEAD + T.more (take T.HEAD room.new)) × (size ≤ PIECE))) }
    ensures none { IfOk result (λ found. found ≡ None → IfSome (R.remaining reader.old) (BeginWithNone T.piece.Fits T.piece.spell)) }
    ensures notes { Notes (R.failed reader.old) (R.failed reader.new) result }
    ensures refused { IfErr result (λ e. e ≡ Refusal.StreamFault) }
{
    let head = T::HEAD;
    if !read_into(reader, &mut room[..head])? {
        return Ok(None);
    }
    let size = head + T::more_size(&room[..head]);
    if size > PIECE {
        return Ok(None);
    }
    if !read_into(reader, &mut room[head..size])? {
        return Ok(None);
    }
    Ok(Some(size))
}

/// A transfer as it is read: it knows how many bytes were taken, and has room for a piece.
#[derive(Drop)]
pub struct TransferReader {
    room: [u8; PIECE],
    taken: u64,
}

impl Model for TransferReader {
    ghost use Rattle.std.specs.Prelude.{ℕ};

    ghost Value = { ℕ };

    ghost view = { λ r. r.taken };
}

impl TransferReader {
    /// A reader that stands at the beginning.
    pub fn new() -> TransferReader
        ensures { result ≡ 0 }
    {
        TransferReader {
            room: [0; PIECE],
            taken: 0,
        }
    }

    /// How many bytes were taken; 2^64 - 1 where they are more.
    pub fn taken(&self) -> u64
        ensures { result ≡ self.now }
    {
        self.taken
    }

    /// Takes the next piece; None where the stream has ended before its end, or does not have one there. What follows it is not read.
    ///
    /// Refuses with `StreamFault` exactly where the source fails. After a refusal, and after None, the rest of the stream is not to be
    /// read.
    pub fn next<T: Piece, R: Source>(&mut self, reader: &mut R) -> Result<Option<T>, Refusal>
        // Where the bytes are known.
        ensures known { IfSome (R.remaining reader.old) (λ bytes. TakesOne T.piece.Fits T.piece.spell bytes (R.remaining reader.new) result) }
        // At any reader.
        ensures fits { IfOk result (λ found. IfSome found T.piece.Fits) }
        ensures taken { IfOk result (λ found. IfSome found (λ x. self.new ≡ counted self.old (length (T.piece.spell x)))) }
        ensures notes { Notes (R.failed reader.old) (R.failed reader.new) result }
        ensures refused { IfErr result (λ e. e ≡ Refusal.StreamFault) }
    {
        let Some(size) = fill::<T, R>(reader, &mut self.room)? else {
            return Ok(None);
        };
        let Some(piece) = T::of(&self.room[..size]) else {
            return Ok(None);
        };
        self.taken = self.taken.saturating_add(size as u64);
        Ok(Some(piece))
    }
}
