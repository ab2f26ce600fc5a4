//! The first line of a text that a node follows.

ghost use Rattle.std.specs.Prelude.{◌≡◌};
ghost use Rattle.rep_requests.specs.Requests.{with_seqno, order_in, order_said};

use rep_record::{MAX_LINE, Words, is_blank};
use rep_types::{Gtid, Refusal};

/// The GTID, where it has a seqno.
fn with_seqno(gtid: Gtid) -> Option<Gtid>
    ensures { result ≡ with_seqno gtid }
{
    if gtid.seqno() < 0 {
        return None;
    }
    Some(gtid)
}

/// The position that the words say: `order` and a GTID that has a seqno.
fn read_position(mut words: Words) -> Option<Gtid>
    ensures { result ≡ order_in words.entry }
{
    if !words.skip(b"order") {
        return None;
    }
    let gtid = Gtid::parse(words.next_word()?).ok()?;
    if !words.is_empty() {
        return None;
    }
    with_seqno(gtid)
}

/// The position behind which the items of an order come, which the line with this number says: `order` and a GTID. `None` where the line has no
/// words.
///
/// Refuses with `Malformed`, `at` being the line's number, any other line, and a GTID without a seqno.
pub fn read_order(line: &[u8], number: u64) -> Result<Option<Gtid>, Refusal>
    ensures { result ≡ order_said number line.now }
{
    if line.len() > MAX_LINE {
        return Err(Refusal::Malformed { at: number });
    }
    if is_blank(line) {
        return Ok(None);
    }
    match read_position(Words::new(line)) {
        Some(gtid) => Ok(Some(gtid)),
        None => Err(Refusal::Malformed { at: number }),
    }
}
