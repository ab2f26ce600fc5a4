//! The entries of a window.

ghost use Rattle.std.specs.Prelude.{◌≡◌, ◌++◌, ◌&&◌, nat_le, OnOk, IfErr};
ghost use Rattle.rep_types.specs.Order.{recent};
ghost use Rattle.rep_cert.specs.Holdings.{upto};

use rep_types::{Entry, Refusal};

/// Whether the seqno is from the floor on and up to the position.
pub(crate) fn is_of_window(seqno: u64, floor: u64, position: u64) -> bool
    ensures { result ≡ (nat_le floor seqno && nat_le seqno position) }
{
    floor <= seqno && seqno <= position
}

/// Adds to these the copies of the entries from the floor on and up to the position.
pub(crate) fn push_window(
    kept: &mut Vec<Entry>,
    entries: &[Entry],
    floor: u64,
    position: u64,
) -> Result<(), Refusal>
    ensures window { OnOk result (kept.new.items ≡ kept.old.items ++ recent floor (upto position entries.now)) }
    ensures refused { IfErr result (λ refusal. refusal ≡ Refusal.OutOfMemory) }
{
    for entry in entries {
        if is_of_window(entry.seqno(), floor, position) {
            kept.push(entry.copied())?;
        }
    }
    Ok(())
}
