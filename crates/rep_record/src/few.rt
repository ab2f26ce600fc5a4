//! Lists of which only the front is kept.

ghost use Rattle.std.specs.Prelude.{◌≡◌, [], ◌∷◌, ◌++◌, take};

use arrayvec::ArrayVec;

/// Puts the element at the end where there is room. So of all that comes the first `N` are kept.
pub(crate) fn keep<T: Drop, const N: usize>(kept: &mut ArrayVec<T, N>, element: T)
    ensures { kept.new.items ≡ take N (kept.old.items ++ element ∷ []) }
{
    if !kept.is_full() {
        kept.push(element);
    }
}
