//! Reading a saved state from a stream.

ghost use Rattle.std.specs.Prelude.{◌≡◌, ◌⊎◌, ◌<◌, length, take, Err, IfSome, IfOk, IfErr};
ghost use Rattle.rep_streams.specs.Streams.{Notes};
ghost use Rattle.rep_record.specs.Lines.{IsLongText, NotesText};
ghost use Rattle.rep_script.specs.SavedTexts.{ended_lines, fault_of_long, saved_within, ReadsAs};

use rep_record::MAX_TEXT;
use rep_saved::SavedState;
use rep_streams::Source;
use rep_types::Refusal;
use std::alloc::Global;

/// How many bytes are asked for at once.
const CHUNK: usize = 8192;

/// The lines of these bytes that end there with their line feeds.
fn ended_lines(bytes: &[u8]) -> &[u8]
    ensures { result.now ≡ ended_lines bytes.now }
{
    let mut lines = bytes;
    while let [before @ .., byte] = lines {
        if *byte == b'\n' {
            return lines;
        }
        lines = before;
    }
    lines
}

/// The fault of a text that is too long, by those of its lines that count.
fn fault_of_long(lines: &[u8]) -> Refusal
    ensures { Err result ≡ fault_of_long lines.now }
{
    match SavedState::parse(lines) {
        Err(Refusal::Malformed { at }) if at < lines.len() as u64 => Refusal::Malformed { at },
        _ => Refusal::StreamFault,
    }
}

/// The saved state that the text is. Of a text of more than 67,108,864 bytes only the first ones are looked at.
///
/// Refuses with `Malformed` as `SavedState::parse` does; a longer text with the first of its lines that have a bad value
/// and end, with their line feeds, within these bytes, and with `StreamFault` where there is none.
fn parse_within(text: &[u8]) -> Result<SavedState, Refusal>
    ensures value { result ≡ saved_within text.now }
    // Only a longer text is refused as a stream that has failed.
    ensures long { result ≡ Err Refusal.StreamFault → 67108864 < length text.now }
{
    if text.len() as u64 <= MAX_TEXT {
        return SavedState::parse(text);
    }
    let front = &text[..MAX_TEXT as usize];
    Err(fault_of_long(ended_lines(front)))
}

/// Reads the first bytes of a text, up to so many.
///
/// Refuses with `StreamFault` a source that fails, which it notes, and with `OutOfMemory`.
#[tactic(auto, using(crate::proofs::SavedTexts::front_full, crate::proofs::SavedTexts::front_whole))]
fn read_front<R: Source>(alloc: Global, source: &mut R, most: usize) -> Result<Vec<u8>, Refusal>
    ensures front { IfSome (R.remaining source.old) (λ text. IfOk result (λ front. front.items ≡ take most text)) }
    ensures notes { Notes (R.failed source.old) (R.failed source.new) result }
    ensures refused { IfErr result (λ refusal. (refusal ≡ Refusal.OutOfMemory) ⊎ (refusal ≡ Refusal.StreamFault)) }
{
    let mut front = Vec::new(alloc);
    let mut room = [0; CHUNK];
    while front.len() < most {
        let wanted = CHUNK.min(most - front.len());
        let count = source.read(&mut room[..wanted])?;
        if count == 0 {
            break;
        }
        front.extend_from_slice(&room[..count])?;
    }
    Ok(front)
}

/// Reads a saved state, a text of at most 67,108,864 bytes.
///
/// Refuses with `Malformed` a text that is none, as `SavedState::parse` does; with `StreamFault` a source that fails, which it notes, and a
/// longer text none of whose lines has a bad value and ends, with its line feed, within these bytes; and with
/// `OutOfMemory`.
pub fn read_saved<R: Source>(alloc: Global, source: &mut R) -> Result<SavedState, Refusal>
    ensures read { IfSome (R.remaining source.old) (λ text. ReadsAs text result) }
    ensures notes { NotesText (IsLongText (R.remaining source.old)) (R.failed source.old) (R.failed source.new) result }
{
    let text = read_front(alloc, source, MAX_TEXT as usize + 1)?;
    parse_within(&text)
}
