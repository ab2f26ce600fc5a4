//! What a peek finds.

ghost use Rattle.rep_versions.specs.Versions.{version_at};
ghost use Rattle.rep_snap.specs.Lists.{Answers};

use rep_types::{Key, Refusal, Value};
use rep_versions::{At, Versions};

/// What a row is at a snapshot, of what was published.
#[derive(Debug, Drop, PartialEq, Eq)]
pub enum Peek {
    /// The newest write at most at the snapshot put this value.
    Value(Value),
    /// The newest write at most at the snapshot deleted the row.
    Absent,
    /// No write at most at the snapshot is left: the row is as it was before all that is left.
    Cold,
}

impl Peek {
    /// What the row is at the snapshot, of the versions that are kept. It is refused above the front with
    /// `NotYet`, and below the oldest snapshot with `TooOld`.
    pub fn among(
        kept: &Versions,
        front: u64,
        oldest: u64,
        key: Key,
        snapshot: u64,
    ) -> Result<Peek, Refusal>
        ensures { Answers front oldest (version_at kept.now key) snapshot result }
    {
        if front < snapshot {
            return Err(Refusal::NotYet { durable: front });
        }
        if snapshot < oldest {
            return Err(Refusal::TooOld { oldest });
        }
        match kept.at(key, snapshot) {
            At::Found(value) => Ok(Peek::Value(value.copied())),
            At::Deleted => Ok(Peek::Absent),
            At::Below => Ok(Peek::Cold),
        }
    }
}
