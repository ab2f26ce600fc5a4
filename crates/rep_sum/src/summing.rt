//! What is digested of a replica, row by row.

ghost use Rattle.std.specs.Prelude.{◌≡◌, ◌≤◌, ◌<◌, ◌+◌, ◌*◌, ◌^◌, ℕ, List, ◌++◌, is_some, if◌then◌else◌, OnOk};
ghost use Rattle.std.specs.Int.{bytes_high_first};
ghost use Rattle.sha2.specs.Hashers.{Holds256};
ghost use Rattle.rep_types.specs.Sums.{keys_from, keys_of, row_sum_bytes};
ghost use Rattle.rep_sum.specs.Sums.{AddsOrRefuses, digest_of};

use rep_disk::Disk;
use rep_replica::Replica;
use rep_types::{Key, Refusal, Value};
use sha2::{Digest, Sha256};
use uuid::Uuid;

/// What was digested so far, and how many rows of that were there.
#[derive(Drop)]
pub(crate) struct Summing {
    pub(crate) hasher: Sha256,
    pub(crate) rows: u64,
}

impl Summing {
    /// What stands before the rows: the cluster's UUID and the position.
    pub(crate) fn new(uuid: Uuid, position: u64) -> Summing
        ensures fed { Holds256 result.hasher (uuid ++ bytes_high_first 8 position) }
        ensures rows { result.rows ≡ 0 }
    {
        let mut hasher = Sha256::new();
        hasher.update(uuid.as_bytes());
        hasher.update(position.to_be_bytes());
        Summing { hasher, rows: 0 }
    }

    /// Digests a row: where it is there its key, the length of its value, and the value.
    fn add_row(&mut self, key: Key, row: Option<Value>)
        requires { self.old.rows < 2 ^ 63 }
        ensures fed { (m : List ℕ) → Holds256 self.old.hasher m → Holds256 self.new.hasher (m ++ row_sum_bytes key row) }
        ensures rows { self.new.rows ≡ self.old.rows + (if is_some row then 1 else 0) }
    {
        if let Some(value) = row {
            let bytes = value.as_bytes();
            self.hasher.update([key.table]);
            self.hasher.update(key.row.to_be_bytes());
            self.hasher.update([bytes.len() as u8]);
            self.hasher.update(bytes);
            self.rows += 1;
        }
    }

    /// Reads and digests the rows of a table at the position. The device is asked for each page once, as long as memory has room for
    /// the pages that were read last.
    ///
    /// Refuses as `Replica::read` does.
    fn add_table<D: Disk>(
        &mut self,
        replica: &mut Replica<D>,
        table: u8,
        rows: u32,
        position: u64,
    ) -> Result<(), Refusal>
        requires before { self.old.rows ≤ 2 ^ 32 * table }
        requires tables { table < 8 }
        ensures added { AddsOrRefuses D.Disk position (keys_from table 0 rows) replica.old self.old replica.new self.new result }
        ensures few { OnOk result (self.new.rows ≤ 2 ^ 32 * (table + 1)) }
    {
        for row in 0..rows {
            let key = Key { table, row };
            let value = replica.read(key, position)?;
            self.add_row(key, value);
        }
        Ok(())
    }

    /// Reads and digests the rows of all tables at the position, in the order of their keys.
    ///
    /// Refuses as `Replica::read` does.
    pub(crate) fn add_tables<D: Disk>(
        &mut self,
        replica: &mut Replica<D>,
        position: u64,
    ) -> Result<(), Refusal>
        requires { self.old.rows ≡ 0 }
        ensures added { AddsOrRefuses D.Disk position (keys_of replica.old.engine.checkpoint.base.params.rows) replica.old self.old replica.new self.new result }
    {
        let schema = replica.params().schema().copied();
        for (table, rows) in schema.rows().iter().enumerate() {
            self.add_table(replica, table as u8, *rows, position)?;
        }
        Ok(())
    }

    /// The digest of all of it.
    #[tactic(auto, unfolding(crate::specs::Sums::digest_of))]
    pub(crate) fn digest(self) -> [u8; 32]
        ensures { (m : List ℕ) → Holds256 self.hasher m → result ≡ digest_of m }
    {
        self.hasher.finalize()
    }
}
