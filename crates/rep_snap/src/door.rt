//! What readers look through.

ghost use Rattle.std.specs.Prelude.{◌≡◌, MatchResult};
ghost use Rattle.rep_snap.specs.declared.shelf.Sight.{Sight};
ghost use Rattle.rep_snap.specs.declared.shelf.Shelf.{Shelf};
ghost use Rattle.rep_snap.specs.Doors.{IsTold, StillKnows, Opens};

use crate::history::Told;
use crate::rule::Admits;
use crate::shelf::{Shelf, Sight};

/// One reader's way to what its publisher shows.
///
/// A reader is proved for every door. So it says that the publisher is closed only where its door was
/// found shut, since nothing but `enter` tells that.
pub trait Door<A: Admits>: Sized {
    /// The door, as long as the reader is inside.
    type Inside;

    /// It is known here that the publisher has come so far.
    ghost knows: { Self → Sight A → Type 0 };

    /// What is shown inside.
    ghost shown: { Self.Inside → Shelf A };

    /// The one was found shut, and the other came back.
    ghost shut: { Self → Self → Type 0 };

    /// Goes in. What is shown there goes on from what is known and from what was told. A door that is
    /// found shut comes back, and what was known is known still.
    fn enter(self, told: &Told) -> Result<Self::Inside, Self>
        requires { IsTold (knows self) told.now }
        ensures { MatchResult result (λ inside. Opens (knows self) A.allows told.now (shown inside)) (λ back. StillKnows (knows self) (knows back) × shut self back) };

    /// What is shown. It stays until the reader leaves.
    fn look(inside: &Self::Inside) -> &Shelf<A>
        ensures { result.now ≡ shown inside.now };

    /// Leaves. What was shown is known from then on.
    fn leave(inside: Self::Inside) -> Self
        ensures { knows result (shown inside).sight };
}
