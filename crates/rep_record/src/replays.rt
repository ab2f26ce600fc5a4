//! Who records are given to.

ghost use Rattle.std.specs.Prelude.{◌≡◌, ◌≤◌, ◌++◌, [], ◌∷◌, OnOk, IfErr};
ghost use Rattle.rep_types.specs.declared.limits.TheConstants.{MAX_SEQNO};
ghost use Rattle.rep_types.specs.declared.judged.Judged.{Judged};
ghost use Rattle.rep_record.specs.Blocks.{RefusesRecords};

use rep_types::{Judged, Refusal};

/// Who the records of a log are given to, one by one, in the order of their seqnos.
pub trait Replays {
    /// What it is behind a record that it takes.
    ghost takes: { Self → Judged → Self → Type 0 };

    /// Why it does not take one.
    ghost rejects: { Self → Judged → Type 0 };

    /// Takes the next record.
    ///
    /// Refuses with `Corrupt` of the log a record that cannot stand behind those before it, and with `OutOfMemory`.
    fn replay(&mut self, judged: &Judged) -> Result<(), Refusal>
        requires { judged.now.seqno ≤ MAX_SEQNO }
        ensures taken { OnOk result (takes self.old judged.now self.new) }
        ensures refused { IfErr result (RefusesRecords (rejects self.old judged.now)) };
}

/// A vector keeps them all.
impl Replays for Vec<Judged> {
    ghost takes = { λ kept judged more. more.items ≡ kept.items ++ judged ∷ [] };

    ghost rejects = { λ _ _. ⊥ };

    fn replay(&mut self, judged: &Judged) -> Result<(), Refusal> {
        self.push(Judged {
            seqno: judged.seqno,
            item: judged.item.copied(),
            verdict: judged.verdict,
        })?;
        Ok(())
    }
}
