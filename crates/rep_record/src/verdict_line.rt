//! How verdicts are written.

ghost use Rattle.std.specs.Prelude.{◌≡◌, ℕ, ◌+◌, ◌<◌, ◌≤◌, [], ◌∷◌, ◌++◌, length, take, OnOk, OnErr, IfErr};
ghost use Rattle.std.specs.Fmt.{decimal};
ghost use Rattle.std.specs.Io.KnownBytes.{Appends};
ghost use Rattle.arrayvec.specs.ArrayString.{array_string_len};
ghost use Rattle.rep_streams.specs.Streams.{Notes};
ghost use Rattle.rep_record.specs.Texts.{verdict_line};

use arrayvec::ArrayString;
use rep_streams::Sink;
use rep_types::{Refusal, Verdict};

/// Puts the digit behind the text.
#[tactic(auto, using(std::proofs::lemmas::Str::encode_ascii))]
fn push_digit(text: &mut ArrayString<64>, digit: u8)
    requires small { digit < 10 }
    requires room { array_string_len text.old < 64 }
    ensures { text.new.bytes ≡ text.old.bytes ++ (48 + digit) ∷ [] }
{
    text.push((b'0' + digit) as char);
}

/// Puts the number in decimal behind the text, where there is room for it.
#[tactic(auto, using(crate::proofs::Writing::decimal_longer, crate::proofs::Writing::digits_pushed, rep_forms::specs::FormLaws::sizes, std::proofs::lemmas::Fmt::decimal_digit))]
pub fn push_decimal(text: &mut ArrayString<64>, number: u64)
    requires { array_string_len text.old + length (decimal number) ≤ 64 }
    ensures bytes { text.new.bytes ≡ text.old.bytes ++ decimal number }
    ensures len { array_string_len text.new ≡ array_string_len text.old + length (decimal number) }
{
    if number < 10 {
        push_digit(text, number as u8);
    } else {
        push_decimal(text, number / 10);
        push_digit(text, (number % 10) as u8);
    }
}

/// The line of the verdict on the item with this seqno.
#[tactic(auto, using(rep_types::proofs::Lists::decimal_fits))]
fn line_of(seqno: u64, verdict: Verdict) -> ArrayString<64>
    ensures { result.bytes ≡ verdict_line seqno verdict }
{
    let mut line = ArrayString::new();
    push_decimal(&mut line, seqno);
    match verdict {
        Verdict::Commit => line.push_str(" commit\n"),
        Verdict::Conflict(last) => {
            line.push_str(" conflict ");
            push_decimal(&mut line, last);
            line.push_str("\n");
        }
        Verdict::Stale => line.push_str(" stale\n"),
        Verdict::Future => line.push_str(" future\n"),
        Verdict::BadKey => line.push_str(" badkey\n"),
    }
    line
}

/// Writes the line of the verdict on the item with this seqno: the seqno, a space, the verdict and
/// a line feed.
///
/// Refuses with `StreamFault` where the writer fails, which it notes; it has then taken a front of the line.
pub fn write_verdict<W: Sink>(writer: &mut W, seqno: u64, verdict: Verdict) -> Result<(), Refusal>
    ensures ok { OnOk result (Appends (W.contents writer.old) (W.contents writer.new) (verdict_line seqno verdict)) }
    // A writer that fails has taken a front of the line.
    ensures cut { OnErr result ((k : ℕ) × Appends (W.contents writer.old) (W.contents writer.new) (take k (verdict_line seqno verdict))) }
    ensures notes { Notes (W.failed writer.old) (W.failed writer.new) result }
    ensures err { IfErr result (λ e. e ≡ Refusal.StreamFault) }
{
    writer.put(line_of(seqno, verdict).as_bytes())
}
