//! The versions of rows, by key and seqno.

ghost use Rattle.std.specs.Prelude.{◌≡◌, OnOk, IfOk, IfErr, IsOk, IsSome, IfSome, IsNone, ℕ};
ghost use Rattle.std.specs.FinMap as map;
ghost use Rattle.rep_types.specs.declared.refusal.Refusal.TheVariants.{OutOfMemory};
ghost use Rattle.rep_types.specs.Items.{writes_of};
ghost use Rattle.rep_versions.specs.Versions.{IsAdded, IsTakenBack, IsPruned, IsAnswer, ArePages, IsWithin, NotesPage, restored};
ghost use Rattle.rep_versions.specs.Rows.{made_at, ChangesPage};

use crate::row::Row;
use rep_layout::{page_of, row_places_are_told};
use rep_types::{Item, Key, MAX_PAGES, ROWS_PER_PAGE, Refusal, Schema, Value, Write};
use std::alloc::Global;
use std::collections::HashMap;
use std::marker::Model;

/// The name of a version: a row, and the seqno of the item that wrote it. They are ordered by row, then
/// by seqno.
#[derive(Clone, Copy, Debug, PartialEq, Eq, PartialOrd, Ord)]
pub struct VersionKey {
    /// The row.
    pub key: Key,
    /// The seqno of the item.
    pub seqno: u64,
}

/// What a row is at a snapshot, of the versions that are kept.
#[derive(Clone, Copy, Debug, PartialEq, Eq)]
pub enum At<'a> {
    /// The newest version at most at the snapshot put this value.
    Found(&'a Value),
    /// The newest version at most at the snapshot deleted the row.
    Deleted,
    /// There is no version at most at the snapshot: the row is as it was below all of them.
    Below,
}

/// The most rows that a schema has.
const ROWS: usize = MAX_PAGES as usize * ROWS_PER_PAGE as usize;

/// From this number of rows on, the table has room for every row of a schema.
///
/// No secret goes into the place of a row in the table, so whoever picks the rows of an order can pick some that share a place. Among
/// fewer rows than this, the worst set costs a look-up half a microsecond. In a table with room for every row no set is worse than all rows
/// together, each of which is found a few steps from its place.
const FEW_ROWS: usize = 2048;

/// What items wrote: under the key of a row and the seqno of an item what the item put there, or `None`
/// where it deleted the row.
///
/// The versions of a row stand together, in the order of their seqnos, and a table finds the row by its key.
#[derive(Drop)]
pub struct Versions {
    rows: HashMap<Key, Row>,
    alloc: Global,
}

impl Model for Versions {
    ghost use Rattle.std.specs.Prelude.{ℕ, Option};
    ghost use Rattle.std.specs.Coded.{coded_option, coded_list, coded_ℕ};
    ghost use Rattle.std.specs.FinMap as map;
    ghost use Rattle.std.specs.HashMap.{IsUnique};
    ghost use Rattle.rep_types.specs.Keys.{key_eq};
    ghost use Rattle.rep_versions.specs.Versions.{Kept, coded_version_key};
    ghost use Rattle.rep_versions.specs.Rows.{kept_of};

    ghost Value = { Kept };

    ghost coded = { map.code coded_version_key (coded_option (coded_list coded_ℕ)) };

    ghost view = { λ v. kept_of v.rows.entries };

    ghost invariant = { λ v. IsUnique key_eq v.rows };
}

impl Versions {
    /// No versions. It takes no memory.
    pub fn new(alloc: Global) -> Versions
        ensures { result ≡ map.empty }
    {
        Versions {
            rows: HashMap::new(alloc),
            alloc,
        }
    }

    /// Makes room for every row of a schema, once there are `FEW_ROWS` rows: 12 MB, of which 2 are written at once. A table with that room
    /// is left as it is.
    ///
    /// Refuses with `OutOfMemory` where the growth was refused.
    fn make_room(&mut self) -> Result<(), Refusal>
        ensures same { self.new ≡ self.old }
        ensures refused { IfErr result (λ e. e ≡ OutOfMemory) }
    {
        let count = self.rows.len();
        if count < FEW_ROWS || self.rows.capacity() >= ROWS {
            return Ok(());
        }
        self.rows.reserve(ROWS.saturating_sub(count))?;
        Ok(())
    }

    /// Puts the version, and says what it was before, if there was one. One that stands takes no memory.
    fn put(
        &mut self,
        version: VersionKey,
        value: Option<Value>,
    ) -> Result<Option<Option<Value>>, Refusal>
        ensures before { IfOk result (λ before. before ≡ map.get self.old version) }
        ensures put { OnOk result (self.new ≡ map.insert self.old version value) }
        ensures refused { IfErr result (λ e. (e ≡ OutOfMemory) × (self.new ≡ self.old)) }
        ensures again { IsSome (map.get self.old version) → IsOk result }
    {
        match self.rows.get_mut(&version.key) {
            Some(row) => row.put(version.seqno, value),
            None => {
                let row = Row::new(self.alloc, version.seqno, value)?;
                self.rows.insert(version.key, row)?;
                Ok(None)
            }
        }
    }

    /// Lets the version go, if it is there.
    fn forget(&mut self, version: VersionKey)
        ensures { self.new ≡ map.remove self.old version }
    {
        let Some(row) = self.rows.get_mut(&version.key) else {
            return;
        };
        row.take_back(version.seqno);
    }

    /// Puts back what stood at a version that stands now, or takes the version away where nothing did.
    fn restore(&mut self, version: VersionKey, before: Option<Option<Value>>)
        requires { IsSome (map.get self.old version) }
        ensures { self.new ≡ restored version before self.old }
    {
        match before {
            Some(value) => match self.put(version, value) {
                Ok(_) => (),
                Err(_) => unreachable!(),
            },
            None => self.forget(version),
        }
    }

    /// Adds what these writes put at the seqno, as `add` does. Where one is refused, those before it are undone: each
    /// call keeps what stood at its own write until the later ones are in. A write set has at most 16
    /// writes, so deep do the calls go.
    pub fn add_writes(&mut self, seqno: u64, writes: &[Write]) -> Result<(), Refusal>
        ensures added { OnOk result (IsAdded seqno writes.now self.old self.new) }
        ensures refused { IfErr result (λ e. (e ≡ OutOfMemory) × (self.new ≡ self.old)) }
    {
        let Some((write, rest)) = writes.split_first() else {
            return Ok(());
        };
        let version = VersionKey {
            key: write.key,
            seqno,
        };
        self.make_room()?;
        let before = self.put(version, write.copied().value)?;
        if let Err(refusal) = self.add_writes(seqno, rest) {
            self.restore(version, before);
            return Err(refusal);
        }
        Ok(())
    }

    /// Adds what the item of this seqno wrote: at the seqno each row that it writes has what it puts, or
    /// is deleted, whatever stood there before, and each other version is as it was.
    ///
    /// Refuses with `OutOfMemory` where a growth was refused, and then the versions are as they were.
    pub fn add(&mut self, seqno: u64, item: &Item) -> Result<(), Refusal>
        ensures added { OnOk result (IsAdded seqno (writes_of item.now) self.old self.new) }
        ensures refused { IfErr result (λ e. (e ≡ OutOfMemory) × (self.new ≡ self.old)) }
    {
        self.add_writes(seqno, item.writes())
    }

    /// Lets the versions of this seqno go, and no other. It takes no memory.
    pub fn take_back(&mut self, seqno: u64)
        ensures { IsTakenBack seqno self.old self.new }
    {
        self.rows.retain(|_, row| row.take_back(seqno));
    }

    /// Lets the versions at and below this position go, and no other. It takes no memory.
    pub fn prune(&mut self, position: u64)
        ensures { IsPruned position self.old self.new }
    {
        self.rows.retain(|_, row| row.prune(position));
    }

    /// What the row is at the snapshot of this seqno: what the newest of its versions at most there made
    /// it. It costs a look-up of the row, and a binary search among its versions.
    pub fn at(&self, key: Key, seqno: u64) -> At<'_>
        ensures { IsAnswer self.now key seqno result }
    {
        let Some(row) = self.rows.get(&key) else {
            return At::Below;
        };
        let Some(version) = row.newest(seqno) else {
            return At::Below;
        };
        match &version.1 {
            Some(value) => At::Found(value),
            None => At::Deleted,
        }
    }

    /// The pages of the rows that have a version above the base and at most at the position, a delete
    /// too, each once and in ascending order. A row outside the schema has no page.
    ///
    /// Refuses with `OutOfMemory` where a growth was refused.
    pub fn pages(
        &self,
        alloc: Global,
        schema: &Schema,
        base: u64,
        position: u64,
    ) -> Result<Vec<u32>, Refusal>
        ensures pages { IfOk result (λ pages. ArePages self.now schema.now base position pages.items) }
        ensures refused { IfErr result (λ e. e ≡ OutOfMemory) }
    {
        row_places_are_told();
        let mut pages = Vec::new(alloc);
        for (key, row) in &self.rows {
            let page = page_within(*key, row, schema, base, position);
            note_page(&mut pages, page)?;
        }
        pages.sort_unstable();
        pages.dedup();
        Ok(pages)
    }
}

/// The page of the row, where the row has a version above the base and at most at the position, and the schema has the row.
fn page_within(key: Key, row: &Row, schema: &Schema, base: u64, position: u64) -> Option<u32>
    ensures some { IfSome result (ChangesPage schema.now base position key row.now) }
    ensures none { IsNone result → (s : ℕ) → IsSome (made_at row.now s) → IsWithin schema.now base position (record { key = key; seqno = s }) → ⊥ }
{
    let version = row.newest(position)?;
    if version.0 <= base {
        return None;
    }
    let place = page_of(schema, key)?;
    Some(place.page)
}

/// Adds the page, if there is one, behind these, unless it is the last of them.
fn note_page(pages: &mut Vec<u32>, page: Option<u32>) -> Result<(), Refusal>
    ensures noted { OnOk result (NotesPage page pages.old.items pages.new.items) }
    ensures refused { IfErr result (λ e. e ≡ OutOfMemory) }
{
    let Some(page) = page else {
        return Ok(());
    };
    if pages.last() == Some(&page) {
        return Ok(());
    }
    pages.push(page)?;
    Ok(())
}
