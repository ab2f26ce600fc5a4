//! The line of a refusal that a script or a running node goes on behind.

ghost use Rattle.std.specs.Prelude.{◌≡◌, IfErr};
ghost use Rattle.rep_streams.specs.Streams.{Notes};
ghost use Rattle.rep_script.specs.Answering.{Tells};
ghost use Rattle.rep_script.specs.Refusing.{refused_line};

use crate::answers::write_line;
use rep_streams::Sink;
use rep_types::Refusal;

/// Writes the line of a refusal that a script goes on behind: `refused`, its number, its name, and its data where it has some.
///
/// Refuses with `StreamFault` a writer that fails, which it notes, and has then taken a front of the line.
pub fn write_refused<W: Sink>(writer: &mut W, refusal: Refusal) -> Result<(), Refusal>
    ensures told { Tells (refused_line refusal) (W.contents writer.old) (W.contents writer.new) result }
    ensures notes { Notes (W.failed writer.old) (W.failed writer.new) result }
    ensures refused { IfErr result (λ refusal. refusal ≡ Refusal.StreamFault) }
{
    let number = refusal.number();
    write_line(writer, format_args!("refused {number} {refusal}"))
}
