//! The items of a log, judged again.

ghost use Rattle.std.specs.Prelude.{◌≡◌, [], IfOk, IfErr};
ghost use Rattle.rep_types.specs.declared.refusal.Refusal.TheVariants.{OutOfMemory};
ghost use Rattle.rep_layout.specs.Windows.{IsWindowAt};
ghost use Rattle.rep_engine.specs.Checking.{HoldsWindows};
ghost use Rattle.rep_recover.specs.Judging.{bare, HasJudged};

use rep_cert::Certifier;
use rep_engine::certifiers_hold_windows;
use rep_record::Replays;
use rep_types::{Judged, Params, Part, Refusal, Window};
use rep_versions::{Versions, versions_follow_the_items};
use std::alloc::Global;

/// What is answered where an item is not the next.
pub(crate) const CORRUPT: Refusal = Refusal::Corrupt { part: Part::Log };

/// The items of a log so far, judged again behind a base: it takes an item whose seqno and whose verdict are those that judging
/// it as the next one gives.
#[derive(Drop)]
pub(crate) struct Judging {
    /// A certifier to which they were delivered.
    pub(crate) certifier: Certifier,
    /// What those of them that commit wrote.
    pub(crate) versions: Versions,
}

impl Judging {
    /// No item yet, behind a base whose window is that of the position. Refuses with `OutOfMemory`.
    pub(crate) fn new(
        alloc: Global,
        params: Params,
        position: u64,
        window: Window,
    ) -> Result<Judging, Refusal>
        requires { IsWindowAt params position window }
        ensures judged { IfOk result (λ x. HasJudged params (bare position window) [] x.certifier.current x.versions) }
        ensures windows { IfOk result (λ x. HoldsWindows x.certifier.current) }
        ensures refused { IfErr result (λ e. e ≡ OutOfMemory) }
    {
        versions_follow_the_items();
        certifiers_hold_windows();
        let certifier = Certifier::new(alloc, params, position, window)?;
        let versions = Versions::new(alloc);
        Ok(Judging {
            certifier,
            versions,
        })
    }
}

impl Replays for Judging {
    ghost use Rattle.rep_recover.specs.Judging.{IsNext, Judges};

    ghost takes = { λ old judged new. Judges old.certifier.current old.versions judged new.certifier.current new.versions };

    ghost rejects = { λ now judged. IsNext now.certifier.current judged → ⊥ };

    fn replay(&mut self, judged: &Judged) -> Result<(), Refusal> {
        certifiers_hold_windows();
        judged.item.limits();
        let Ok((seqno, verdict)) = self.certifier.admit_item(&judged.item) else {
            return Err(CORRUPT);
        };
        if seqno != judged.seqno || verdict != judged.verdict {
            return Err(CORRUPT);
        }
        if verdict.is_commit() {
            self.versions.add(seqno, &judged.item)?;
        }
        Ok(())
    }
}
