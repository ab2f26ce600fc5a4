//! What a publisher does to its list.

ghost use Rattle.std.specs.Prelude.{◌≡◌, ◌<◌, ◌≤◌, length, MatchResult};
ghost use Rattle.rep_types.specs.declared.refusal.Refusal.TheVariants.{TooManyWrites};

use arrayvec::ArrayVec;
use rep_types::{MAX_WRITES, Refusal, Write};

/// A pair of the published list: a seqno, and what was written at it, which may be nothing.
#[derive(Drop)]
pub struct Pair {
    pub seqno: u64,
    pub writes: ArrayVec<Write, MAX_WRITES>,
}

impl Pair {
    ghost use Rattle.rep_snap.specs.Lists.{pair_of};

    /// The pair of these writes, which are copied, at the seqno.
    ///
    /// Refuses more than 16 writes with `TooManyWrites`.
    pub fn new(seqno: u64, writes: &[Write]) -> Result<Pair, Refusal>
        ensures { MatchResult result (λ pair. (length writes.now ≤ MAX_WRITES) × (pair ≡ pair_of seqno writes.now)) (λ e. (e ≡ TooManyWrites) × (MAX_WRITES < length writes.now)) }
    {
        if writes.len() > MAX_WRITES {
            return Err(Refusal::TooManyWrites);
        }
        let mut copies = ArrayVec::new();
        for write in writes {
            copies.push(write.copied());
        }
        Ok(Pair {
            seqno,
            writes: copies,
        })
    }

    /// A copy, which takes no memory.
    pub(crate) fn copied(&self) -> Pair
        ensures { result ≡ self.now }
    {
        match Pair::new(self.seqno, self.writes.as_slice()) {
            Ok(pair) => pair,
            Err(_) => unreachable!(),
        }
    }
}

/// What a publisher does: it makes the list one pair longer, or lets what is at and below a position go.
#[derive(Drop)]
pub enum Change {
    Publish(Pair),
    Prune(u64),
}
