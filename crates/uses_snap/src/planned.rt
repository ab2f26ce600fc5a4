//! A publisher of a list that is known only at run time, and what its readers find.

ghost use Rattle.std.specs.Prelude.{◌≡◌, ◌≤◌};
ghost use Rattle.rep_snap.specs.Lists.{published, front_of, Ascends};
ghost use Rattle.rep_snap.specs.Doors.{FoundShut};
ghost use Rattle.uses_snap.specs.Folding.{FindsTheRow};

use logbook::{Opening, Seen, Start};
use rep_snap::{
    Admits, Again, Door, Fixed, Pair, Peek, Reader, Told, histories_grow, peeks_follow_the_fold,
};
use rep_types::{Key, Refusal};

/// The book opens with the pairs.
struct Whole;

impl Opening<Vec<Pair>, Pair> for Whole {
    ghost log = { λ count pairs. pairs.items };
}

/// A list of pairs as contracts see it: it has no bytes, and can be had again. It allows what begins the
/// list.
#[derive(Drop)]
pub struct Plan {
    pub pairs: Seen<Pair, u64, Fixed>,
}

impl Plan {
    /// The plan of these pairs.
    pub fn of(pairs: &Vec<Pair>) -> Plan
        ensures { result.pairs.log ≡ pairs.now.items }
    {
        let (pairs, _pens) = Seen::open_row::<Vec<Pair>, Whole>(pairs, Start::alone(), 0);
        Plan { pairs }
    }
}

impl Again for Plan {
    fn again(&self) -> Plan {
        Plan {
            pairs: self.pairs.again(),
        }
    }
}

impl Admits for Plan {
    ghost use Rattle.std.specs.Prelude.{refl};
    ghost use mathlib.Core.List.{IsPrefix};

    ghost allows = { λ plan start pairs. IsPrefix pairs plan.pairs.log };

    ghost empty = { λ plan start. (plan.pairs.log, refl) };
}

/// Peeks a row at a snapshot that was told of: it finds the row that a plain fold over the whole plan has
/// there, unless the door was found shut.
pub fn planned_row_at<D: Door<Plan> + Drop>(
    mut reader: Reader<Plan, D>,
    told: &Told,
    key: Key,
    snapshot: u64,
) -> (Reader<Plan, D>, Result<Peek, Refusal>)
    requires own { told.now.book ≡ reader.book }
    requires told { snapshot ≤ front_of reader.start (published told.now.list) }
    requires plan { Ascends reader.start reader.basis.pairs.log }
    ensures { FindsTheRow (FoundShut D.knows D.shut) reader.basis.pairs.log key snapshot result.0 result.1 }
{
    histories_grow();
    peeks_follow_the_fold();
    reader.learn(told);
    reader.peek(key, snapshot)
}
