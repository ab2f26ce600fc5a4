//! What certification says of an item.

use std::fmt;

/// What certification says of a delivered item. Every item takes the next seqno, whatever its
/// verdict; one that commits takes effect, and the others are dropped. A change of the window's size
/// always commits.
#[derive(Clone, Copy, Debug, PartialEq, Eq)]
pub enum Verdict {
    /// The item takes effect.
    Commit,
    /// A committed write set that the transaction had not seen wrote a key that it read or wrote:
    /// the greatest seqno of such a one.
    Conflict(u64),
    /// The transaction saw too old a state for the window to tell.
    Stale,
    /// The transaction claims to have seen its own seqno or a later one.
    Future,
    /// A key that it read or wrote is outside the schema.
    BadKey,
}

impl Verdict {
    ghost use Rattle.std.specs.Prelude.{◌≡◌};
    ghost use Rattle.rep_types.specs.Order.{is_commit};

    /// Whether the item takes effect.
    pub fn is_commit(self) -> bool
        ensures { result ≡ is_commit self }
    {
        match self {
            Verdict::Commit => true,
            Verdict::Conflict(_) | Verdict::Stale | Verdict::Future | Verdict::BadKey => false,
        }
    }
}

impl Default for Verdict {
    ghost use Rattle.std.specs.Prelude.{◌≡◌};
    ghost use Rattle.rep_types.specs.declared.verdict.Verdict.TheVariants.{Stale};

    ghost is_default = { λ verdict. verdict ≡ Stale };

    /// A verdict that drops the item and says nothing of others, so that none commits by a value
    /// that was never filled in.
    fn default() -> Verdict {
        Verdict::Stale
    }
}

impl fmt::Display for Verdict {
    ghost use Rattle.std.specs.Prelude.{Some};
    ghost use Rattle.rep_types.specs.Texts.{verdict_text};

    ghost output = { λ verdict. Some (verdict_text verdict) };

    fn fmt<W: fmt::Write>(&self, f: &mut fmt::Formatter<W>) -> fmt::Result {
        match self {
            Verdict::Commit => write!(f, "commit"),
            Verdict::Conflict(seqno) => write!(f, "conflict {seqno}"),
            Verdict::Stale => write!(f, "stale"),
            Verdict::Future => write!(f, "future"),
            Verdict::BadKey => write!(f, "badkey"),
        }
    }
}
