//! What a form is, to code that is generic in it.

ghost use Rattle.std.specs.Prelude.{◌≡◌, ◌+◌, ◌≤◌, ℕ, length, Option, Some, None, MatchBool, option_map};
ghost use Rattle.rep_forms.specs.Forms.{Form as form_of, IsForm, TakesFront, StripsFront, Puts};

use arrayvec::ArrayVec;

/// A value that is spelled as bytes.
pub trait Form: Sized + Drop {
    /// Its form.
    ghost form: { form_of Self };

    /// How many bytes its longest spelling has.
    ghost most: { ℕ };

    /// Reads the value whose spelling the bytes begin with, and the bytes behind it. It may read more
    /// than is spelled: `read_front` reads exactly that.
    fn read(bytes: &[u8]) -> Option<(Self, &[u8])>
        ensures { option_map (λ x. (x.0, x.1.now)) result ≡ form.read bytes.now };

    ghost is_form: { IsForm form };
}

/// A value that is put into a buffer of `N` bytes.
pub trait Put<const N: usize>: Form {
    /// Puts the spelling at the end. There is room for the longest one.
    fn put(&self, out: &mut ArrayVec<u8, N>)
        requires { length out.old.items + Self.most ≤ N }
        ensures put { Puts Self.form self.now out.old.items out.new.items }
        ensures size { length (Self.form.spell self.now) ≤ Self.most };
}

/// A value that can be compared with its spelling.
pub trait Exact: Form {
    /// What stands behind the value's spelling, where the bytes begin with it.
    fn strip<'a>(&self, bytes: &'a [u8]) -> Option<&'a [u8]>
        ensures { StripsFront Self.form self.now bytes.now (option_map (λ rest. rest.now) result) };
}

/// Which values may stand behind which.
pub trait Chain<T>: Drop {
    /// Where a value leads, if it is allowed here.
    ghost step: { Self → T → Option Self };

    /// Whether the value is allowed here, and then goes on behind it.
    fn admits(&mut self, value: &T) -> bool
        ensures { MatchBool result (step self.old value.now ≡ Some self.new) (step self.old value.now ≡ None) };
}

/// Reads from the front of the bytes exactly what is spelled there: the value whose spelling they
/// begin with, and the bytes behind it.
pub fn read_front<T: Exact>(bytes: &[u8]) -> Option<(T, &[u8])>
    ensures { TakesFront T.form bytes.now (option_map (λ x. (x.0, x.1.now)) result) }
{
    let (value, _) = T::read(bytes)?;
    let rest = value.strip(bytes)?;
    Some((value, rest))
}
