//! Which published lists are allowed, and the rule that the two copies keep.

ghost use Rattle.std.specs.Prelude.{◌≡◌, ℕ, List, [], None};
ghost use Rattle.rep_snap.specs.declared.change.Pair.{Pair};

use crate::shelf::{Shelf, Sight};
use atomic_table::{Join, Split};
use crossbeam_utils::rule::{Outcome, Protocol};
use std::marker::PhantomData;

/// Says which published lists are allowed, for a value that the publisher is started with, its basis, and
/// the position that it starts at. The trait has no functions: it is for contracts alone.
pub trait Admits {
    // Of the basis, the start position and the pairs.
    ghost allows: { Self → ℕ → List Pair → Type 0 };

    // The empty list is allowed.
    ghost empty: { (basis : Self) (start : ℕ) → allows basis start [] };
}

/// What can be had again at any time, with no memory.
pub trait Again: Sized {
    /// It once more.
    fn again(&self) -> Self
        ensures { result ≡ self.now };
}

/// The rule of the two copies: what a reader finds is what some allowed list makes, and the list begins
/// with what anyone has seen.
pub struct Published<A> {
    basis: PhantomData<A>,
}

impl<A: Admits> Protocol<Shelf<A>, Option<Sight<A>>> for Published<A> {
    ghost use Rattle.rep_snap.specs.Rule.{Keeps};

    ghost holds = { Keeps A.allows };

    ghost first = { None };
}

/// The step of a reader, and that of a publisher: afterwards it has seen what is shown.
pub(crate) struct Sees<A> {
    basis: PhantomData<A>,
}

impl<A: Admits> Outcome<Shelf<A>, Option<Sight<A>>> for Sees<A> {
    ghost use Rattle.rep_snap.specs.Rule.{Shown};

    ghost then = { Shown A.allows };
}

/// A note is a copy of what the publisher has seen.
pub(crate) struct Copied;

impl<A> Split<Option<Sight<A>>> for Copied {
    ghost left = { λ view. view };

    ghost right = { λ view. view };
}

/// A new reader, which has seen nothing, takes what the note says.
pub(crate) struct Taken;

impl<A> Join<Option<Sight<A>>> for Taken {
    ghost both = { λ view note. note };

    ghost spent = { None };
}
