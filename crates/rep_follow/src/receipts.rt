//! The lines of receipts.

ghost use Rattle.std.specs.Prelude.{◌≡◌, ℕ, ◌+◌, ◌<◌, ◌≤◌, ◌++◌, length, take, IfErr, OnOk, OnErr};
ghost use Rattle.std.specs.Fmt.{decimal};
ghost use Rattle.std.specs.Io.KnownBytes.{Appends};
ghost use Rattle.rep_types.specs.Texts.{verdict_text};
ghost use Rattle.rep_streams.specs.Streams.{Notes};
ghost use Rattle.rep_follow.specs.Receipts.{receipt_line, receipt_lines};

use arrayvec::{ArrayString, ArrayVec};
use rep_record::push_decimal;
use rep_streams::Sink;
use rep_types::{Refusal, Reply, Verdict};

/// As many bytes as the lines of a block's receipts may have: 64 of at most 93.
const ROOM: usize = 5952;

/// Puts the text behind the lines.
fn put_text(lines: &mut ArrayVec<u8, ROOM>, text: &[u8])
    requires { length lines.old.items + length text.now ≤ 5952 }
    ensures text { lines.new.items ≡ lines.old.items ++ text.now }
    ensures len { length lines.new.items ≡ length lines.old.items + length text.now }
{
    let fitted = lines.try_extend_from_slice(text);
    prove!(fitted.is_ok());
    let _ = fitted;
}

/// Puts the number in decimal behind the lines.
#[tactic(auto, using(rep_types::proofs::Lists::decimal_fits))]
fn put_number(lines: &mut ArrayVec<u8, ROOM>, number: u64)
    requires { length lines.old.items + 20 ≤ 5952 }
    ensures text { lines.new.items ≡ lines.old.items ++ decimal number }
    ensures few { length lines.new.items ≤ length lines.old.items + 20 }
{
    let mut text = ArrayString::<64>::new();
    push_decimal(&mut text, number);
    put_text(lines, text.as_bytes());
}

/// Puts the verdict behind the lines.
fn put_verdict(lines: &mut ArrayVec<u8, ROOM>, verdict: Verdict)
    requires { length lines.old.items + 29 ≤ 5952 }
    ensures text { lines.new.items ≡ lines.old.items ++ verdict_text verdict }
    ensures few { length lines.new.items ≤ length lines.old.items + 29 }
{
    match verdict {
        Verdict::Commit => put_text(lines, b"commit"),
        Verdict::Conflict(last) => {
            put_text(lines, b"conflict ");
            put_number(lines, last);
        }
        Verdict::Stale => put_text(lines, b"stale"),
        Verdict::Future => put_text(lines, b"future"),
        Verdict::BadKey => put_text(lines, b"badkey"),
    }
}

/// Puts the line of a receipt behind the others.
fn put_receipt(lines: &mut ArrayVec<u8, ROOM>, reply: &Reply)
    requires { length lines.old.items + 93 ≤ 5952 }
    ensures line { lines.new.items ≡ lines.old.items ++ receipt_line reply.now }
    ensures few { length lines.new.items ≤ length lines.old.items + 93 }
{
    put_number(lines, reply.seqno);
    put_text(lines, b" ");
    put_verdict(lines, reply.verdict);
    put_text(lines, b" ");
    put_number(lines, reply.source);
    put_text(lines, b":");
    put_number(lines, reply.trx);
    put_text(lines, b"\n");
}

/// Writes the lines of these receipts, at most 64, together: of each its seqno, its verdict and its labels,
/// `<seqno> <verdict> <source>:<trx>`.
///
/// Refuses with `StreamFault` where the writer fails, which it notes, and has then taken a front of the lines, and not all.
pub fn write_receipts<W: Sink>(writer: &mut W, replies: &[Reply]) -> Result<(), Refusal>
    requires { length replies.now ≤ 64 }
    ensures ok { OnOk result (Appends (W.contents writer.old) (W.contents writer.new) (receipt_lines replies.now)) }
    ensures cut { OnErr result ((k : ℕ) × (k < length (receipt_lines replies.now)) × Appends (W.contents writer.old) (W.contents writer.new) (take k (receipt_lines replies.now))) }
    ensures notes { Notes (W.failed writer.old) (W.failed writer.new) result }
    ensures err { IfErr result (λ e. e ≡ Refusal.StreamFault) }
{
    let mut lines = ArrayVec::new();
    for reply in replies {
        put_receipt(&mut lines, reply);
    }
    writer.put(lines.as_slice())
}
