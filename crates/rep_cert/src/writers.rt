//! The last committed writer of each row: one number for each row of the schema, table behind table.

ghost use Rattle.std.specs.Prelude.{◌≡◌, ℕ, ◌≤◌, ◌<◌, ◌&&◌, true, max, if◌then◌else◌, [], ◌∷◌, length, map, slice_index, All, IfOk, IfErr};
ghost use Rattle.std.specs.List.{sum_by};
ghost use Rattle.rep_types.specs.declared.key.Key.{Key};
ghost use Rattle.rep_types.specs.Transactions.{key_of, named, written};
ghost use Rattle.rep_types.specs.Settings.{IsRow};
ghost use Rattle.rep_types.specs.Order.{is_commit};
ghost use Rattle.rep_cert.specs.Writers.{IsLaidOut, HasPlace, place, is_placed, writer, starts_from, greatest_of, last_writer, restored};

use arrayvec::ArrayVec;
use rep_types::{Entry, Key, MAX_TABLES, MAX_WRITES, Refusal, Schema, Verdict, Write, WriteSet};
use std::alloc::Global;

/// The writer that a row had before the last item wrote it.
#[derive(Clone, Copy, Debug, Default)]
struct Former {
    place: usize,
    seqno: u64,
}

/// The last committed writer of each row of a schema, and what the last item to be noted overwrote.
#[derive(Debug, Drop)]
pub(crate) struct LastWriters {
    /// Where the rows of each table begin.
    starts: ArrayVec<usize, MAX_TABLES>,
    /// The seqno of the last writer of each row, 0 where there is none.
    seqnos: Vec<u64>,
    /// The former writers of the rows that the last item wrote, in the order of its writes.
    former: ArrayVec<Former, MAX_WRITES>,
}

/// The later of two writers.
fn later(one: u64, other: u64) -> u64
    ensures { result ≡ max one other }
{
    one.max(other)
}

/// Where the rows of each table begin, and how many rows there are.
fn starts_of(rows: &[u32]) -> (ArrayVec<usize, MAX_TABLES>, usize)
    requires { length rows.now ≤ MAX_TABLES }
    ensures starts { result.0.items ≡ starts_from 0 rows.now }
    ensures total { result.1 ≡ sum_by (λ count. count) rows.now }
{
    let mut starts: ArrayVec<usize, MAX_TABLES> = ArrayVec::new();
    let mut total = 0;
    for count in rows {
        starts.push(total);
        total += *count as usize;
    }
    (starts, total)
}

impl LastWriters {
    /// No row of the schema has a writer.
    ///
    /// Refuses with `OutOfMemory` where there is no room for a number for each row.
    pub(crate) fn new(alloc: Global, schema: &Schema) -> Result<LastWriters, Refusal>
        ensures laid_out { IfOk result (λ made. IsLaidOut schema.now made.starts.items made.seqnos.items) }
        ensures none { IfOk result (λ made. (i : ℕ) → slice_index made.seqnos.items i ≡ 0) }
        ensures former { IfOk result (λ made. made.former.items ≡ []) }
        ensures refused { IfErr result (λ refusal. refusal ≡ Refusal.OutOfMemory) }
    {
        let (starts, total) = starts_of(schema.rows());
        let seqnos = vec![in alloc; 0; total]?;
        Ok(LastWriters {
            starts,
            seqnos,
            former: ArrayVec::new(),
        })
    }

    /// Where the number of the key's row stands.
    fn place(&self, key: Key) -> usize
        requires { HasPlace self.now.starts.items self.now.seqnos.items key }
        ensures { result ≡ place self.now.starts.items key }
    {
        self.starts.as_slice()[key.table as usize] + key.row as usize
    }

    /// The last writer of the key's row, 0 where there is none.
    fn of(&self, key: Key) -> u64
        requires { HasPlace self.now.starts.items self.now.seqnos.items key }
        ensures { result ≡ writer self.now.starts.items self.now.seqnos.items key }
    {
        self.seqnos[self.place(key)]
    }

    /// The last writer of all these keys' rows.
    fn last_of_keys(&self, keys: &[Key]) -> u64
        requires { All (HasPlace self.now.starts.items self.now.seqnos.items) keys.now }
        ensures { result ≡ greatest_of (writer self.now.starts.items self.now.seqnos.items) keys.now }
    {
        let mut last = 0;
        for key in keys {
            last = later(self.of(*key), last);
        }
        last
    }

    /// The last writer of all the rows that these writes are of.
    fn last_of_writes(&self, writes: &[Write]) -> u64
        requires { All (HasPlace self.now.starts.items self.now.seqnos.items) (map key_of writes.now) }
        ensures { result ≡ greatest_of (writer self.now.starts.items self.now.seqnos.items) (map key_of writes.now) }
    {
        let mut last = 0;
        for write in writes {
            last = later(self.of(write.key), last);
        }
        last
    }

    /// The last writer of all the rows that the item reads or writes, 0 where none has one.
    pub(crate) fn last_of(&self, item: &WriteSet) -> u64
        requires { All (HasPlace self.now.starts.items self.now.seqnos.items) (named item.now) }
        ensures { result ≡ greatest_of (writer self.now.starts.items self.now.seqnos.items) (named item.now) }
    {
        later(
            self.last_of_keys(item.reads()),
            self.last_of_writes(item.writes()),
        )
    }

    /// Takes note of a committed item that may stand at any place of the order: each row of the
    /// schema that it wrote has it as its last writer, unless it has a later one.
    fn raise(&mut self, schema: &Schema, entry: &Entry)
        requires { IsLaidOut schema.now self.old.starts.items self.old.seqnos.items }
        ensures starts { self.new.starts ≡ self.old.starts }
        ensures former { self.new.former ≡ self.old.former }
        ensures size { length self.new.seqnos.items ≡ length self.old.seqnos.items }
        ensures raised { (key : Key) → IsRow schema.now key → writer self.new.starts.items self.new.seqnos.items key ≡ max (writer self.old.starts.items self.old.seqnos.items key) (last_writer key (entry.now ∷ [])) }
    {
        for key in entry.keys() {
            if schema.contains(*key) {
                let place = self.place(*key);
                self.seqnos[place] = later(entry.seqno(), self.seqnos[place]);
            }
        }
    }

    /// Takes note of committed items in any order.
    pub(crate) fn raise_all(&mut self, schema: &Schema, entries: &[Entry])
        requires { IsLaidOut schema.now self.old.starts.items self.old.seqnos.items }
        ensures starts { self.new.starts ≡ self.old.starts }
        ensures former { self.new.former ≡ self.old.former }
        ensures size { length self.new.seqnos.items ≡ length self.old.seqnos.items }
        ensures raised { (key : Key) → IsRow schema.now key → writer self.new.starts.items self.new.seqnos.items key ≡ max (writer self.old.starts.items self.old.seqnos.items key) (last_writer key entries.now) }
    {
        for entry in entries {
            self.raise(schema, entry);
        }
    }

    /// Keeps no former writers, since the last item wrote nothing so far.
    pub(crate) fn forget_former(&mut self)
        ensures starts { self.new.starts ≡ self.old.starts }
        ensures seqnos { self.new.seqnos ≡ self.old.seqnos }
        ensures none { self.new.former.items ≡ [] }
    {
        self.former.clear();
    }

    /// Takes note of the item with this seqno, which is behind all others: it is the last writer of each
    /// row that it writes. Their former writers are kept until the next item.
    fn note(&mut self, seqno: u64, item: &WriteSet)
        requires places { All (HasPlace self.old.starts.items self.old.seqnos.items) (written item.now) }
        requires none { self.old.former.items ≡ [] }
        ensures starts { self.new.starts ≡ self.old.starts }
        ensures size { length self.new.seqnos.items ≡ length self.old.seqnos.items }
        ensures noted { (i : ℕ) → i < length self.old.seqnos.items → slice_index self.new.seqnos.items i ≡ (if is_placed self.old.starts.items (written item.now) i then seqno else slice_index self.old.seqnos.items i) }
        ensures inside { All (λ former. former.place < length self.old.seqnos.items) self.new.former.items }
        ensures before { restored self.new.former.items self.new.seqnos.items ≡ self.old.seqnos.items }
    {
        for write in item.writes() {
            let place = self.place(write.key);
            self.former.push(Former {
                place,
                seqno: self.seqnos[place],
            });
            self.seqnos[place] = seqno;
        }
    }

    /// Takes note of the item with this seqno and this verdict.
    pub(crate) fn note_judged(&mut self, seqno: u64, item: &WriteSet, verdict: Verdict)
        requires places { is_commit verdict ≡ true → All (HasPlace self.old.starts.items self.old.seqnos.items) (written item.now) }
        ensures starts { self.new.starts ≡ self.old.starts }
        ensures size { length self.new.seqnos.items ≡ length self.old.seqnos.items }
        ensures noted { (i : ℕ) → i < length self.old.seqnos.items → slice_index self.new.seqnos.items i ≡ (if is_commit verdict && is_placed self.old.starts.items (written item.now) i then seqno else slice_index self.old.seqnos.items i) }
        ensures inside { All (λ former. former.place < length self.old.seqnos.items) self.new.former.items }
        ensures before { restored self.new.former.items self.new.seqnos.items ≡ self.old.seqnos.items }
    {
        self.forget_former();
        if verdict.is_commit() {
            self.note(seqno, item);
        }
    }

    /// Gives each row that the last item wrote its former writer back, the row that it wrote last first.
    pub(crate) fn restore(&mut self)
        requires { All (λ former. former.place < length self.old.seqnos.items) self.old.former.items }
        ensures starts { self.new.starts ≡ self.old.starts }
        ensures restored { self.new.seqnos.items ≡ restored self.old.former.items self.old.seqnos.items }
        ensures none { self.new.former.items ≡ [] }
    {
        while let Some(former) = self.former.pop() {
            self.seqnos[former.place] = former.seqno;
        }
    }
}
