//! The name of a row.

ghost use Rattle.std.specs.Prelude.{◌≡◌, ◌+◌, ◌*◌, ◌^◌};
ghost use Rattle.std.proofs.Common.{rules};
ghost use Rattle.std.specs.Cmp.{partial_order_from_own_ties};
ghost use Rattle.std.specs.Cmp.Rules.{comparing};
ghost use Rattle.std.specs.Ordering.{as_partial_cmp};
ghost use Rattle.rep_types.specs.Keys.{key_cmp, key_eq};

use std::cmp::Ordering;

/// The name of a row: the number of its table, and its number in that table. Keys are ordered by
/// table, then by row.
#[derive(Clone, Copy, Debug, Default, PartialEq, Eq, Hash)]
pub struct Key {
    /// The table, counted from 0.
    pub table: u8,
    /// The row of the table, counted from 0.
    pub row: u32,
}

impl Key {
    /// The key as a number: the table stands before the row.
    fn number(self) -> u64
        ensures { result ≡ 2 ^ 32 * self.table + self.row }
    {
        (1 << 32) * u64::from(self.table) + u64::from(self.row)
    }

    /// Whether it is the other key. Both are compared by one number: whether two keys are of one table can't be foreseen, which costs a
    /// processor more than the comparison, and that they are one key nearly never holds.
    #[tactic(auto, using(crate::proofs::KeyNumbers::same_number))]
    pub(crate) fn is(self, other: Key) -> bool
        ensures { result ≡ key_eq self other }
    {
        self.number() == other.number()
    }
}

impl Ord for Key {
    ghost cmp = { key_cmp };

    ghost total = { Prim.search (comparing, rules) };

    ghost matches_partial_cmp = { Prim.search (comparing, rules) };

    ghost matches_eq = { Prim.search (comparing, rules) };

    fn cmp(&self, other: &Key) -> Ordering {
        self.table.cmp(&other.table).then(self.row.cmp(&other.row))
    }
}

impl PartialOrd for Key {
    ghost partial_cmp = { as_partial_cmp key_cmp };

    ghost laws = { partial_order_from_own_ties (Prim.search (comparing, rules)) (Prim.search (comparing, rules)) };

    fn partial_cmp(&self, other: &Key) -> Option<Ordering> {
        Some(self.cmp(other))
    }
}
