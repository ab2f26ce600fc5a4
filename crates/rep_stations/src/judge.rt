//! The certifier's station: the next item of the history.

ghost use Rattle.std.specs.Prelude.{◌≡◌, ◌≤◌, ◌↔◌, ◌++◌, ◌∷◌, [], List, Some, true, IsErr, IfOk, IfErr, OnOk, OnErr};
ghost use Rattle.rep_types.specs.declared.judged.Judged.{Judged as Entry};
ghost use Rattle.rep_record.specs.Records.{is_placed};
ghost use Rattle.rep_cert.specs.Holdings.{Holding, Admits};
ghost use Rattle.rep_stations.specs.Judging.{Legal, HasJudged, next_of};

use rep_cert::Certifier;
use rep_engine::certifiers_hold_windows;
use rep_steps::{judging_goes_on, verdicts_have_a_place};
use rep_types::{Item, Judged, MAX_SEQNO, Refusal};

/// Judges the next item of the history, of either kind, and gives it with its seqno, the one behind the last, and its verdict.
/// It takes no memory.
///
/// Where the certifier has judged a list of items, and nothing else, it has then judged that list with this item at its end; and
/// where that list is legal, so is the longer one. The item has a place in a block of the log then. Until another call changes
/// the certifier, `Certifier::undo_last` takes the item back.
///
/// Refuses with `Exhausted` where no seqno is left, at `MAX_SEQNO` and above it; the certifier is then as it was, and the item is
/// let go.
pub fn judge_next(certifier: &mut Certifier, item: Item) -> Result<Judged, Refusal>
    ensures judged { IfOk result (λ judged. judged ≡ next_of certifier.old.current item) }
    ensures admitted { OnOk result (Admits certifier.old.current item certifier.new.current) }
    // The history that it has judged goes on by this item, and is legal as it was.
    ensures goes_on { (first : Holding) → (items : List Entry) → HasJudged first items certifier.old.current → IfOk result (λ judged. HasJudged first (items ++ judged ∷ []) certifier.new.current) }
    ensures legal { (first : Holding) → (items : List Entry) → HasJudged first items certifier.old.current → Legal first items → IfOk result (λ judged. Legal first (items ++ judged ∷ [])) }
    ensures placed { IfOk result (λ judged. is_placed judged ≡ true) }
    // What stood before can be had back.
    ensures undoable { OnOk result (certifier.new.before ≡ Some certifier.old.current) }

    ensures exhausted { IsErr result ↔ (MAX_SEQNO ≤ certifier.old.current.delivered) }
    ensures refused { IfErr result (λ refusal. refusal ≡ Refusal.Exhausted) }
    ensures unchanged { OnErr result (certifier.new ≡ certifier.old) }
{
    judging_goes_on();
    verdicts_have_a_place();
    certifiers_hold_windows();
    item.limits();
    let (seqno, verdict) = certifier.admit_item(&item)?;
    Ok(Judged {
        seqno,
        item,
        verdict,
    })
}
