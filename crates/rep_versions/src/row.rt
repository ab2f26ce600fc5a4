//! The versions of one row.

ghost use Rattle.std.specs.Prelude.{◌≡◌, ℕ, ◌≤◌, cond, not, ◌==◌, nat_le, [], ◌∷◌, OnOk, IfOk, IfErr, IfSome, IsNone, IsOk, IsSome, IsFalse, Some, None};
ghost use Rattle.std.specs.List.{filter};
ghost use Rattle.rep_types.specs.declared.refusal.Refusal.TheVariants.{OutOfMemory};
ghost use Rattle.rep_versions.specs.Rows.{made_at, IsNewestOf, SplitsAt, IsPlace, IsGap};

use rep_types::{Refusal, Value};
use std::alloc::{AllocError, Global};
use std::marker::Model;
use std::mem::replace;

/// A version of a row: the seqno of the item that wrote it, and what the item put, or `None` where it deleted the row.
pub(crate) type Version = (u64, Option<Value>);

/// The versions of a row, in the order of their seqnos.
#[derive(Drop)]
pub(crate) struct Row {
    versions: Vec<Version>,
}

impl Model for Row {
    ghost use Rattle.std.specs.Prelude.{ℕ};
    ghost use Rattle.std.specs.Coded.{coded_option, coded_list, coded_ℕ, coded×};
    ghost use Rattle.std.specs.List.Sorted.{IsStrictlySortedBy};
    ghost use Rattle.std.specs.Map.{keys_of};
    ghost use Rattle.std.specs.Ordering.{nat_cmp};
    ghost use Rattle.rep_versions.specs.Rows.{RowVersions};

    ghost Value = { RowVersions };

    ghost coded = { coded_list (coded× coded_ℕ (coded_option (coded_list coded_ℕ))) };

    ghost view = { λ row. row.versions.items };

    ghost invariant = { λ row. IsStrictlySortedBy nat_cmp (keys_of row.versions.items) };
}

impl Row {
    /// A row with this version alone.
    pub(crate) fn new(alloc: Global, seqno: u64, value: Option<Value>) -> Result<Row, AllocError>
        ensures { IfOk result (λ row. row ≡ (seqno, value) ∷ []) }
    {
        Ok(Row {
            versions: vec![in alloc; (seqno, value)]?,
        })
    }

    /// How many versions are at most at the seqno: they stand before the others. Mostly that is all of them, which is tried first.
    fn up_to(&self, seqno: u64) -> usize
        ensures { SplitsAt self.now seqno result }
    {
        let Some(newest) = self.versions.last() else {
            return 0;
        };
        if newest.0 <= seqno {
            return self.versions.len();
        }
        self.versions.partition_point(|version| version.0 <= seqno)
    }

    /// The newest version at most at the seqno.
    pub(crate) fn newest(&self, seqno: u64) -> Option<&Version>
        ensures some { IfSome result (λ version. IsNewestOf self.now seqno version.now) }
        ensures none { IsNone result → (s : ℕ) → s ≤ seqno → made_at self.now s ≡ None }
    {
        let last = self.up_to(seqno).checked_sub(1)?;
        Some(&self.versions[last])
    }

    /// The place of the version of this seqno, or else the place where it would stand.
    fn place(&self, seqno: u64) -> Result<usize, usize>
        ensures found { IfOk result (IsPlace self.now seqno) }
        ensures gap { IfErr result (IsGap self.now seqno) }
    {
        let count = self.up_to(seqno);
        let Some(last) = count.checked_sub(1) else {
            return Err(count);
        };
        if self.versions[last].0 == seqno {
            Ok(last)
        } else {
            Err(count)
        }
    }

    /// Puts the version of this seqno, and says what it was before, if there was one.
    pub(crate) fn put(
        &mut self,
        seqno: u64,
        value: Option<Value>,
    ) -> Result<Option<Option<Value>>, Refusal>
        ensures before { IfOk result (λ before. before ≡ made_at self.old seqno) }
        ensures put { OnOk result ((s : ℕ) → made_at self.new s ≡ cond (s == seqno) (Some value) (made_at self.old s)) }
        ensures refused { IfErr result (λ e. (e ≡ OutOfMemory) × (self.new ≡ self.old)) }
        ensures again { IsSome (made_at self.old seqno) → IsOk result }
    {
        match self.place(seqno) {
            Ok(i) => {
                let version = &mut self.versions[i];
                Ok(Some(replace(&mut version.1, value)))
            }
            Err(i) => {
                self.versions.insert(i, (seqno, value))?;
                Ok(None)
            }
        }
    }

    /// Lets the version of this seqno go, and says whether there are others.
    pub(crate) fn take_back(&mut self, seqno: u64) -> bool
        ensures kept { self.new ≡ filter (λ version. not (version.0 == seqno)) self.old }
        ensures left { IsFalse result → self.new ≡ [] }
    {
        self.versions.retain(|version| version.0 != seqno);
        !self.versions.is_empty()
    }

    /// Lets the versions at and below this position go, and says whether there are others.
    pub(crate) fn prune(&mut self, position: u64) -> bool
        ensures kept { self.new ≡ filter (λ version. not (nat_le version.0 position)) self.old }
        ensures left { IsFalse result → self.new ≡ [] }
    {
        self.versions.retain(|version| version.0 > position);
        !self.versions.is_empty()
    }
}
