//! The saved state.

ghost use Rattle.std.specs.Prelude.{◌≡◌, ◌≢◌, ◌<◌, ◌≤◌, ℕ, take, IfSome, IfErr, OnOk, OnErr, IsTrue, Ok};
ghost use Rattle.std.specs.Io.KnownBytes.{Appends};
ghost use Rattle.std.specs.Fmt.{signed_decimal};
ghost use Rattle.arrayvec.specs.ArrayString.{array_string_len};
ghost use Rattle.rep_types.specs.Gtids.{is_seqno};
ghost use Rattle.rep_streams.specs.Streams.{Notes};
ghost use Rattle.rep_saved.specs.Saved.{saved_text, bit_text, saved_in, IsWithin, found_with, whole};

use crate::line::{Said, read_line, without_return};
use arrayvec::ArrayString;
use rep_record::{cut_at, push_decimal};
use rep_streams::Sink;
use rep_types::{Gtid, Refusal, gtids_read_back};
use uuid::Uuid;

/// What a node was at when it stopped, as a text that operators and tools read: its GTID, and whether it
/// may be the first of its group to start.
#[derive(Clone, Copy, Debug, PartialEq, Eq)]
pub struct SavedState {
    /// The state UUID and the seqno.
    pub gtid: Gtid,
    /// Whether the node may be the first one to start.
    pub safe_to_bootstrap: bool,
}

/// What the lines so far said.
#[derive(Clone, Copy, Debug)]
pub(crate) struct Found {
    uuid: Option<Uuid>,
    seqno: Option<i64>,
    safe: Option<bool>,
}

impl Found {
    /// What is found with what one more line says, or `None` where that is bad.
    fn with(self, said: Said) -> Option<Found>
        requires before { IfSome self.seqno (λ n. IsTrue (is_seqno n)) }
        requires now { IsWithin said }
        ensures value { result ≡ found_with self said }
        ensures limit { IfSome result (λ f. IfSome f.seqno (λ n. IsTrue (is_seqno n))) }
    {
        match said {
            Said::Nothing => Some(self),
            Said::Uuid(uuid) => Some(Found {
                uuid: Some(uuid),
                ..self
            }),
            Said::Seqno(seqno) => Some(Found {
                seqno: Some(seqno),
                ..self
            }),
            Said::Safe(safe) => Some(Found {
                safe: Some(safe),
                ..self
            }),
            Said::Bad => None,
        }
    }

    /// The saved state, where a UUID and a seqno are there; else the fault of a text of this size.
    fn whole(self, size: usize) -> Result<SavedState, Refusal>
        requires { IfSome self.seqno (λ n. IsTrue (is_seqno n)) }
        ensures value { result ≡ whole size self.uuid self.seqno self.safe }
        ensures own { IfErr result (λ refusal. refusal ≢ Refusal.StreamFault) }
    {
        let fault = Err(Refusal::Malformed { at: size as u64 });
        let Some(uuid) = self.uuid else {
            return fault;
        };
        let Some(seqno) = self.seqno else {
            return fault;
        };
        match Gtid::new(uuid, seqno) {
            Some(gtid) => Ok(SavedState {
                gtid,
                safe_to_bootstrap: self.safe.unwrap_or(false),
            }),
            None => unreachable!(),
        }
    }
}

/// The seqno as a text.
#[tactic(auto, using(std::proofs::lemmas::Fmt::decimal_digit, rep_types::proofs::Lists::decimal_fits))]
fn seqno_text(gtid: Gtid) -> ArrayString<64>
    ensures text { result.bytes ≡ signed_decimal gtid.seqno }
    ensures short { array_string_len result ≤ 20 }
{
    let mut text = ArrayString::new();
    let seqno = gtid.seqno();
    match u64::try_from(seqno) {
        Ok(number) => push_decimal(&mut text, number),
        Err(_) => text.push_str("-1"),
    }
    text
}

/// The digit for yes or no.
fn bit_text(yes: bool) -> &'static str
    ensures { result.now ≡ bit_text yes }
{
    if yes { "1" } else { "0" }
}

/// The state as a text.
fn text_of(saved: SavedState) -> ArrayString<160>
    ensures { result.bytes ≡ saved_text saved }
{
    let mut room = [0; 36];
    let hyphenated = saved.gtid.uuid().hyphenated();
    let mut text = ArrayString::new();
    text.push_str("# GALERA saved state\nversion: 2.1\nuuid:    ");
    text.push_str(hyphenated.encode_lower(&mut room));
    text.push_str("\nseqno:   ");
    text.push_str(seqno_text(saved.gtid).as_str());
    text.push_str("\nsafe_to_bootstrap: ");
    text.push_str(bit_text(saved.safe_to_bootstrap));
    text.push_str("\n");
    text
}

impl SavedState {
    /// The saved state that the text is. It is read line by line, a carriage return before a line feed
    /// and spaces and tabs at either end of a line left out. What stands before a line's first colon is
    /// its key, what stands behind it the value:
    ///
    /// - `uuid`: 36 characters of a UUID, in either case (RFC 9562);
    /// - `seqno`: `-1`, or 1 to 19 digits of a number below 2^63;
    /// - `safe_to_bootstrap`: `0` or `1`; where it is missing, it is 0.
    ///
    /// Any other line counts for nothing. Of a repeated key the last line counts.
    ///
    /// Refuses with `Malformed`, `at` being the offset of the first line with a bad value, also where a
    /// later line repeats the key; or the size of the text where the UUID or the seqno is missing.
    pub fn parse(text: &[u8]) -> Result<SavedState, Refusal>
        ensures value { result ≡ saved_in text.now }
        // No text is refused as a stream that has failed.
        ensures own { IfErr result (λ refusal. refusal ≢ Refusal.StreamFault) }
    {
        let mut found = Found {
            uuid: None,
            seqno: None,
            safe: None,
        };
        let mut rest = text;
        while let Some((line, behind)) = cut_at(rest, b'\n') {
            match found.with(read_line(without_return(line))) {
                Some(more) => found = more,
                None => {
                    return Err(Refusal::Malformed {
                        at: (text.len() - rest.len()) as u64,
                    });
                }
            }
            rest = behind;
        }
        // The last line, which no line feed ends.
        match found.with(read_line(rest)) {
            Some(all) => all.whole(text.len()),
            None => Err(Refusal::Malformed {
                at: (text.len() - rest.len()) as u64,
            }),
        }
    }

    /// Writes the state as a text, which reads back as it.
    ///
    /// Refuses with `StreamFault` where the writer fails, which it notes; it has then taken a front of the text.
    pub fn write_to<W: Sink>(&self, writer: &mut W) -> Result<(), Refusal>
        ensures ok { OnOk result (Appends (W.contents writer.old) (W.contents writer.new) (saved_text self.now)) }
        ensures cut { OnErr result ((k : ℕ) × Appends (W.contents writer.old) (W.contents writer.new) (take k (saved_text self.now))) }
        ensures notes { Notes (W.failed writer.old) (W.failed writer.new) result }
        ensures err { IfErr result (λ e. e ≡ Refusal.StreamFault) }
        // What is written reads back.
        ensures back { saved_in (saved_text self.now) ≡ Ok self.now }
    {
        // Brings the law that what is written here reads back.
        saved_states_read_back(*self);
        writer.put(text_of(*self).as_bytes())
    }
}

/// What a saved state is written as reads back as that state. A law, as the contract of a function that
/// does nothing: it holds by its proof, and calling the function brings it to the caller.
#[tactic(auto, using(crate::proofs::ReadBack::saved_back))]
pub fn saved_states_read_back(saved: SavedState)
    ensures { saved_in (saved_text saved) ≡ Ok saved }
{
    // Brings the law of the GTID's own text, and the limit of its seqno.
    gtids_read_back(saved.gtid);
    let _seqno = saved.gtid.seqno();
}
