//! Changes that are added and not shown yet.

ghost use Rattle.std.specs.Prelude.{◌≡◌, [], ◌∷◌, ◌++◌, drop, fold, map, IfOk, MatchResult, Some};
ghost use Rattle.rep_types.specs.declared.refusal.Refusal.TheVariants.{OutOfMemory};
ghost use Rattle.rep_snap.specs.declared.change.Change.TheVariants.{Publish};
ghost use Rattle.rep_snap.specs.Book.{head_of};
ghost use Rattle.rep_snap.specs.Lists.{published, front_of, Ascends, Follows};
ghost use Rattle.rep_snap.specs.Shelves.{changed};
ghost use Rattle.rep_snap.specs.Rule.{Leads, Sound};
ghost use Rattle.rep_snap.specs.Views.{Later};

use crate::change::{Change, Pair};
use crate::history::{Law, Told, extend};
use crate::rule::{Admits, Published, Sees};
use crate::shelf::{Shelf, Sight, Step};
use left_right::writer::Writer;
use logbook::Word;
use rep_types::Refusal;
use std::sync::Wait;

/// Adds a change to those that are not shown yet, and says what the history is with it. What was told is the history with those before.
pub(crate) fn add<A: Admits + Drop>(
    writer: &mut Writer<Shelf<A>, Step, Option<Sight<A>>, Published<A>>,
    head: &Word<Change, u64, Law>,
    told: Told,
    change: Change,
) -> Result<Told, Refusal>
    requires head { head.now ≡ head_of told.book }
    requires leads { let x = writer.old.desk.shown.value in Leads x (fold changed x (drop writer.old.behind writer.old.log.items)) told }
    requires follows { Follows writer.old.desk.shown.value.sight.start told.list change }
    ensures desk { writer.new.desk ≡ writer.old.desk }
    ensures told { IfOk result (λ longer. longer ≡ record told { list = told.list ++ change ∷ [] }) }
    ensures leads { let x = writer.new.desk.shown.value in IfOk result (Leads x (fold changed x (drop writer.new.behind writer.new.log.items))) }
{
    let Told { count, mut seen } = told;
    if count == u64::MAX || !extend(head, &mut seen, count, &change) {
        return Err(Refusal::OutOfMemory);
    }
    let longer = Told {
        count: count + 1,
        seen: seen.again(),
    };
    match writer.append(Step { change, seen }) {
        Ok(()) => Ok(longer),
        Err(_) => Err(Refusal::OutOfMemory),
    }
}

/// Adds these pairs so, one after another.
#[tactic(auto, using(crate::proofs::Lists::next_follows, crate::proofs::Lists::more_published))]
pub(crate) fn add_all<A: Admits + Drop>(
    writer: &mut Writer<Shelf<A>, Step, Option<Sight<A>>, Published<A>>,
    head: &Word<Change, u64, Law>,
    told: Told,
    pairs: &[Pair],
) -> Result<Told, Refusal>
    requires head { head.now ≡ head_of told.book }
    requires leads { let x = writer.old.desk.shown.value in Leads x (fold changed x (drop writer.old.behind writer.old.log.items)) told }
    requires ascends { Ascends (front_of writer.old.desk.shown.value.sight.start (published told.list)) pairs.now }
    ensures desk { writer.new.desk ≡ writer.old.desk }
    ensures told { IfOk result (λ longer. longer ≡ record told { list = told.list ++ map Publish pairs.now }) }
    ensures leads { let x = writer.new.desk.shown.value in IfOk result (Leads x (fold changed x (drop writer.new.behind writer.new.log.items))) }
{
    let mut told = told;
    for pair in pairs {
        told = add(writer, head, told, Change::Publish(pair.copied()))?;
    }
    Ok(told)
}

/// Shows what was added. It waits for readers that still look at the other copy.
pub(crate) fn show<A: Admits + Drop, R: Wait>(
    writer: Writer<Shelf<A>, Step, Option<Sight<A>>, Published<A>>,
    rt: &R,
) -> (
    Writer<Shelf<A>, Step, Option<Sight<A>>, Published<A>>,
    Result<(), Refusal>,
)
    requires sound { Sound A.allows writer.desk.shown.value }
    requires seen { writer.desk.place.me.0.client ≡ Some writer.desk.shown.value.sight }
    requires next { let x = writer.desk.shown.value in Sound A.allows (fold changed x (drop writer.behind writer.log.items)) }
    requires later { let x = writer.desk.shown.value in Later x.sight (fold changed x (drop writer.behind writer.log.items)).sight }
    ensures sound { Sound A.allows result.0.desk.shown.value }
    ensures seen { result.0.desk.place.me.0.client ≡ Some result.0.desk.shown.value.sight }
    ensures later { Later writer.desk.shown.value.sight result.0.desk.shown.value.sight }
    ensures shown { let x = writer.desk.shown.value in MatchResult result.1 (λ _. (result.0.desk.shown.value ≡ fold changed x (drop writer.behind writer.log.items)) × (drop result.0.behind result.0.log.items ≡ [])) (λ e. (e ≡ OutOfMemory) × (result.0.desk.shown.value ≡ x)) }
{
    let (writer, shown) = writer.publish_as::<Sees<A>, R>(rt);
    match shown {
        Ok(()) => (writer, Ok(())),
        Err(_) => (writer, Err(Refusal::OutOfMemory)),
    }
}
