//! Orders over which the certifier and the plain node are compared, by their verdicts and their windows.

ghost use Rattle.std.specs.Prelude.{◌<◌};

use crate::beside::drawn::{Draws, MAX_KEYS, Shape, TABLES, delete_of};
use crate::beside::judging::{certifier_commits, drawn_items, plain_commits};
use crate::beside::side_by_side::SideBySide;
use rep_plain::PlainNode;
use rep_types::{Key, Params, Refusal, Verdict, WindowSize, WriteSet};
use std::alloc::Global;

/// What is compared.
#[derive(Clone, Copy)]
pub(crate) enum Trial {
    /// So many items with a window of this size, from the start of the order.
    FromTheStart(u16, u32),
    /// Items of so many keys, with this window and so many rows in a table.
    OfKeys(u32, u32, u32),
    /// Items between changes of the window's size.
    Resized,
    /// Items that all commit: the ring is then full of the last 513, and the oldest window needs all but one of them.
    AllCommit,
    /// Behind 400 items of an order with this window.
    FromTheMiddle(u16),
    /// Behind 300 items that committed: the window has as many entries as it spans seqnos.
    FromAFullWindow(u16),
    /// Behind 200 items: the certifier was made with the window's entries in another order.
    Disordered,
    /// Rows at the edges of three tables.
    Edges,
    /// Rows at the edges of the largest schema: 4 tables of 1,024 pages each, as many as there may be.
    LargestEdges,
    /// What saw nine items, of which a window spans four, or fewer or more.
    Seen,
    /// How many of 1,000 items commit, by a model of the same draws and verdicts in another language.
    Counted,
}

/// All trials, by what each shows.
pub(crate) const TRIALS: &[(&str, Trial)] = &[
    ("a window of 1", Trial::FromTheStart(1, 1200)),
    ("a window of 2", Trial::FromTheStart(2, 1200)),
    ("a window of 4", Trial::FromTheStart(4, 1200)),
    ("a window of 63", Trial::FromTheStart(63, 900)),
    ("a window of 255", Trial::FromTheStart(255, 900)),
    ("a window of 256", Trial::FromTheStart(256, 900)),
    ("items of one key", Trial::OfKeys(16, 1, 20)),
    ("items of 16 keys", Trial::OfKeys(64, 16, 9000)),
    ("a window that changes", Trial::Resized),
    ("items that all commit", Trial::AllCommit),
    (
        "a window of 1 from the middle of an order",
        Trial::FromTheMiddle(1),
    ),
    (
        "a window of 63 from the middle of an order",
        Trial::FromTheMiddle(63),
    ),
    (
        "a window of 256 from the middle of an order",
        Trial::FromTheMiddle(256),
    ),
    ("a full window of 1", Trial::FromAFullWindow(1)),
    ("a full window of 256", Trial::FromAFullWindow(256)),
    ("first entries in another order", Trial::Disordered),
    ("the edges of the schema", Trial::Edges),
    ("the edges of the largest schema", Trial::LargestEdges),
    ("the edges of the window", Trial::Seen),
    ("how many commit", Trial::Counted),
];

impl Trial {
    /// Whether both agree, and the order has what the trial is for.
    pub(crate) fn agrees(self, alloc: Global) -> Result<bool, Refusal> {
        match self {
            Trial::FromTheStart(window, count) => from_the_start(alloc, &shape_of(window), count),
            Trial::OfKeys(window, keys, rows) => {
                from_the_start(alloc, &shape_of_keys(window, keys, rows), 900)
            }
            Trial::Resized => resized(alloc),
            Trial::AllCommit => all_commit(alloc),
            Trial::FromTheMiddle(window) => from_the_middle(alloc, window),
            Trial::FromAFullWindow(window) => from_a_full_window(alloc, window),
            Trial::Disordered => disordered(alloc),
            Trial::Edges => edges_agree(alloc, 4, &[1, 63, 64], EDGES),
            Trial::LargestEdges => edges_agree(alloc, 256, &[64512; 4], LARGEST),
            Trial::Seen => seen_agrees(alloc),
            Trial::Counted => are_counted(alloc),
        }
    }
}

/// A shape of drawn orders whose items name four keys.
fn shape_with(window: u32, rows: u32, behind: u32) -> Shape {
    Shape {
        window,
        rows,
        behind,
        keys: 4,
    }
}

/// A shape of drawn orders for a window of this size: some of the transactions are stale, and some
/// of the others meet a conflict.
fn shape_of(window: u16) -> Shape {
    let window = u32::from(window);
    shape_with(window, 8 * window + 16, window + window / 16 + 2)
}

/// A shape of items of so many keys.
fn shape_of_keys(window: u32, keys: u32, rows: u32) -> Shape {
    Shape {
        window,
        rows,
        behind: window.saturating_add(2),
        keys: keys.min(MAX_KEYS),
    }
}

/// What a run has come across.
#[derive(Clone, Copy)]
struct Tally {
    committed: u64,
    /// How many items were taken back after each kind of verdict: commit, conflict, stale, future and
    /// bad key.
    undone: [u64; 5],
    /// How many items committed that wrote the first row of all and the last.
    at_the_ends: u64,
    /// How many items were stale.
    stale: u64,
    /// How many entries the window had that the certifier was made with.
    entries_at_first: usize,
    /// Whether both agreed on all.
    agree: bool,
}

/// What a run has come across at first.
const NOTHING: Tally = Tally {
    committed: 0,
    undone: [0; 5],
    at_the_ends: 0,
    stale: 0,
    entries_at_first: 0,
    agree: false,
};

/// The place of the verdict's kind.
fn kind_of(verdict: Verdict) -> usize
    ensures { result < 5 }
{
    match verdict {
        Verdict::Commit => 0,
        Verdict::Conflict(_) => 1,
        Verdict::Stale => 2,
        Verdict::Future => 3,
        Verdict::BadKey => 4,
    }
}

impl Tally {
    /// Counts an item that was taken back after this verdict.
    fn undone(&mut self, verdict: Verdict) {
        let kind = kind_of(verdict);
        self.undone[kind] = self.undone[kind].saturating_add(1);
    }

    /// Whether an item was taken back after each kind of verdict.
    fn is_of_each_kind(&self) -> bool {
        self.undone.iter().all(|count| *count > 0)
    }

    /// Counts an item that has this verdict.
    fn taken(&mut self, verdict: Verdict, is_at_the_ends: bool) {
        let is_commit = verdict.is_commit();
        self.committed = self.committed.saturating_add(u64::from(is_commit));
        let is_there = is_commit && is_at_the_ends;
        self.at_the_ends = self.at_the_ends.saturating_add(u64::from(is_there));
        self.stale = self
            .stale
            .saturating_add(u64::from(verdict == Verdict::Stale));
    }
}

/// What the plain node was handed before the certifier is made.
#[derive(Clone, Copy)]
struct Before<'s> {
    /// The shape of the items, and the seed that they are drawn from.
    drawn: &'s Shape,
    seed: u64,
    count: u64,
    /// Whether the certifier is made with the window's entries in another order.
    is_mixed: bool,
}

/// Nothing comes before an order of this shape.
fn nothing_before(shape: &Shape) -> Before<'_> {
    Before {
        drawn: shape,
        seed: 0,
        count: 0,
        is_mixed: false,
    }
}

/// Hands the plain node the items that come before.
fn draw_into(plain: &mut PlainNode, before: Before<'_>) -> Result<(), Refusal> {
    let mut draws = Draws::new(before.seed);
    for number in 0..before.count {
        plain.deliver(draws.item(before.drawn, number.saturating_add(1))?)?;
    }
    Ok(())
}

/// A plain node of this shape behind these items.
fn plain_behind(alloc: Global, shape: &Shape, before: Before<'_>) -> Result<PlainNode, Refusal> {
    let mut plain = PlainNode::new(alloc, shape.params()?);
    draw_into(&mut plain, before)?;
    Ok(plain)
}

/// The first row of the first table and the last row of the last.
fn ends_of(shape: &Shape) -> [Key; 2] {
    [
        Key { table: 0, row: 0 },
        Key {
            table: TABLES - 1,
            row: shape.rows.saturating_sub(1),
        },
    ]
}

/// An item that reads or writes the rows at both ends of the schema.
fn item_at_the_ends(draws: &mut Draws, shape: &Shape, seqno: u64) -> Result<WriteSet, Refusal> {
    let seen = seqno.saturating_sub(u64::from(draws.below(shape.behind)).saturating_add(1));
    let ends = ends_of(shape);
    let both = [delete_of(ends[0]), delete_of(ends[1])];
    if draws.below(2) == 0 {
        return WriteSet::new(1, seqno, seen, &[], &both);
    }
    let other = delete_of(Key { table: 1, row: 1 });
    WriteSet::new(1, seqno, seen, &ends, &[other])
}

/// An item that writes behind a table's last row.
fn item_outside(shape: &Shape, seqno: u64) -> Result<WriteSet, Refusal> {
    let outside = delete_of(Key {
        table: TABLES - 1,
        row: shape.rows,
    });
    WriteSet::new(1, seqno, seqno.saturating_sub(1), &[], &[outside])
}

/// The item with this seqno, now and then one that claims to have seen itself, or the one behind
/// it, or that writes behind a table's last row, or is of the rows at both ends.
fn drawn_item(draws: &mut Draws, shape: &Shape, seqno: u64) -> Result<WriteSet, Refusal> {
    match draws.below(40) {
        0 => {
            let ahead = u64::from(draws.below(2));
            draws.item_at(shape, seqno, seqno.saturating_add(ahead))
        }
        1 => item_outside(shape, seqno),
        2 | 3 => item_at_the_ends(draws, shape, seqno),
        _ => draws.item(shape, seqno),
    }
}

/// What is done to the certifier beside handing both each item.
#[derive(Clone, Copy)]
enum Steps {
    /// Now and then it takes an item back before, the same or another.
    NowAndThen,
    /// It takes each item back before.
    EachBack,
    /// Now and then both change the window's size, and some of the changes it takes back before.
    Resized,
}

impl Steps {
    /// Whether the certifier takes back the item of this step before both are handed it.
    fn takes_back(self, step: u32) -> bool {
        match self {
            Steps::NowAndThen => step % 7 == 5,
            Steps::EachBack => true,
            Steps::Resized => false,
        }
    }
}

/// How an order is drawn, and what is done over it.
#[derive(Clone, Copy)]
struct Course {
    seed: u64,
    count: u32,
    /// Whether its items have each kind of verdict.
    has_all_kinds: bool,
    steps: Steps,
}

/// So many items of each kind, some of which are taken back.
fn now_and_then(shape: &Shape, count: u32) -> Course {
    Course {
        seed: u64::from(count) + u64::from(shape.window),
        count,
        has_all_kinds: true,
        steps: Steps::NowAndThen,
    }
}

/// An order that is drawn, and what comes of it.
#[derive(Clone, Copy)]
struct Order<'s> {
    shape: &'s Shape,
    course: Course,
    draws: Draws,
    tally: Tally,
}

impl Order<'_> {
    /// The item that comes next in the order.
    fn next_item(&mut self, pair: &SideBySide) -> Result<WriteSet, Refusal> {
        let seqno = pair.position().saturating_add(1);
        if self.course.has_all_kinds {
            drawn_item(&mut self.draws, self.shape, seqno)
        } else {
            self.draws.item(self.shape, seqno)
        }
    }

    /// Hands the certifier this item, and takes it back.
    fn take_back(
        &mut self,
        alloc: Global,
        pair: &mut SideBySide,
        item: &WriteSet,
    ) -> Result<(), Refusal> {
        let verdict = pair.take_back(alloc, item)?;
        self.tally.undone(verdict);
        Ok(())
    }

    /// Hands both this item.
    fn take(
        &mut self,
        alloc: Global,
        pair: &mut SideBySide,
        item: &WriteSet,
    ) -> Result<(), Refusal> {
        let verdict = pair.take(alloc, item)?;
        let last = ends_of(self.shape)[1];
        self.tally
            .taken(verdict, item.written().as_slice().contains(&last));
        Ok(())
    }

    /// Now and then, by the number of the step, a change of the window's size, which the certifier took back once before
    /// where that is asked.
    fn resize(&mut self, alloc: Global, pair: &mut SideBySide, step: u32) -> Result<(), Refusal> {
        let size = WindowSize::new(u64::from(self.draws.below(128)) + 1)?;
        if step % 3 == 0 {
            pair.resize_back(alloc, size)?;
        }
        pair.resize(alloc, size)
    }

    /// What comes before the item of this step.
    fn begin_step(
        &mut self,
        alloc: Global,
        pair: &mut SideBySide,
        step: u32,
    ) -> Result<(), Refusal> {
        match self.course.steps {
            Steps::NowAndThen if step % 7 == 3 => {
                let item = self.next_item(pair)?;
                self.take_back(alloc, pair, &item)
            }
            Steps::Resized if step % 11 == 2 => self.resize(alloc, pair, step),
            _ => Ok(()),
        }
    }

    /// The step of this number: hands both a drawn item.
    fn step(&mut self, alloc: Global, pair: &mut SideBySide, step: u32) -> Result<(), Refusal> {
        self.begin_step(alloc, pair, step)?;
        let item = self.next_item(pair)?;
        if self.course.steps.takes_back(step) {
            self.take_back(alloc, pair, &item)?;
        }
        self.take(alloc, pair, &item)?;
        if step % 128 == 0 {
            pair.compare_windows(alloc)?;
        }
        Ok(())
    }

    /// Hands both all items.
    fn run(&mut self, alloc: Global, pair: &mut SideBySide) -> Result<(), Refusal> {
        pair.keep_window(alloc)?;
        self.tally.entries_at_first = pair.entries_at_first();
        for step in 0..self.course.count {
            self.step(alloc, pair, step)?;
        }
        pair.compare_windows(alloc)?;
        self.tally.agree = pair.agree();
        Ok(())
    }
}

/// Compares over an order of this shape, behind what comes before it.
fn compare(
    alloc: Global,
    shape: &Shape,
    before: Before<'_>,
    course: Course,
) -> Result<Tally, Refusal> {
    let plain = plain_behind(alloc, shape, before)?;
    let mut order = Order {
        shape,
        course,
        draws: Draws::new(course.seed),
        tally: NOTHING,
    };
    order.run(alloc, &mut SideBySide::new(alloc, plain, before.is_mixed)?)?;
    Ok(order.tally)
}

/// Compares over one long order of this shape. More items commit than the ring of a certifier holds,
/// so it laps, and some do not; items are taken back after each kind of verdict, and items at both ends
/// of the schema commit.
fn from_the_start(alloc: Global, shape: &Shape, count: u32) -> Result<bool, Refusal> {
    let course = now_and_then(shape, count);
    let tally = compare(alloc, shape, nothing_before(shape), course)?;
    let refused = u64::from(count).saturating_sub(tally.committed);
    let is_long = tally.committed > 540 && refused > 40 && tally.at_the_ends > 0;
    Ok(tally.agree && is_long && tally.is_of_each_kind())
}

/// Compares while the window changes.
fn resized(alloc: Global) -> Result<bool, Refusal> {
    let shape = shape_of(63);
    let course = Course {
        seed: 900,
        count: 900,
        has_all_kinds: true,
        steps: Steps::Resized,
    };
    let tally = compare(alloc, &shape, nothing_before(&shape), course)?;
    Ok(tally.agree && tally.stale > 40 && tally.stale < 500)
}

/// Compares where all commit, each behind the certifier alone, which takes it back.
fn all_commit(alloc: Global) -> Result<bool, Refusal> {
    let shape = shape_with(256, 100, 1);
    let course = Course {
        seed: 1,
        count: 600,
        has_all_kinds: false,
        steps: Steps::EachBack,
    };
    let tally = compare(alloc, &shape, nothing_before(&shape), course)?;
    Ok(tally.agree && tally.committed == 600)
}

/// Compares behind 400 items of an order with this window.
fn from_the_middle(alloc: Global, window: u16) -> Result<bool, Refusal> {
    let shape = shape_of(window);
    let before = Before {
        drawn: &shape,
        seed: 7,
        count: 400,
        is_mixed: false,
    };
    let tally = compare(alloc, &shape, before, now_and_then(&shape, 700))?;
    Ok(tally.agree && tally.committed > 350)
}

/// Compares behind 300 items that committed. The window has as many entries as it spans seqnos.
fn from_a_full_window(alloc: Global, window: u16) -> Result<bool, Refusal> {
    let shape = shape_of(window);
    let before = Before {
        drawn: &shape_with(shape.window, shape.rows, 1),
        seed: 11,
        count: 300,
        is_mixed: false,
    };
    let tally = compare(alloc, &shape, before, now_and_then(&shape, 700))?;
    let is_full = tally.entries_at_first == usize::from(window);
    Ok(tally.agree && is_full && tally.at_the_ends > 0)
}

/// Compares behind 200 items, where the first entries stand in another order. Each item is taken back once.
fn disordered(alloc: Global) -> Result<bool, Refusal> {
    let shape = shape_of(64);
    let before = Before {
        drawn: &shape,
        seed: 5,
        count: 200,
        is_mixed: true,
    };
    let course = Course {
        seed: 6,
        count: 400,
        has_all_kinds: true,
        steps: Steps::EachBack,
    };
    let tally = compare(alloc, &shape, before, course)?;
    Ok(tally.agree && tally.is_of_each_kind())
}

/// A plain node and a certifier with a window of so many seqnos, and tables of so many rows.
fn pair_with(alloc: Global, window: u32, rows: &[u32]) -> Result<SideBySide, Refusal> {
    let plain = PlainNode::new(alloc, Params::new(window, 4, rows)?);
    SideBySide::new(alloc, plain, false)
}

/// Hands both an item that reads these keys, deletes the row of the other and had seen so much: its verdict is to be this one.
fn expect(
    alloc: Global,
    pair: &mut SideBySide,
    (reads, deleted): (&[Key], Key),
    seen: u64,
    wanted: Verdict,
) -> Result<(), Refusal> {
    let item = WriteSet::new(1, 1, seen, reads, &[delete_of(deleted)])?;
    let verdict = pair.take(alloc, &item)?;
    pair.note(verdict == wanted);
    Ok(())
}

/// A table, a row, and the verdict on a key of that.
type Edge = (u8, u32, Verdict);

/// The rows at the edges of three tables of 1, 63 and 64 rows.
const EDGES: &[Edge] = &[
    (0, 0, Verdict::Commit),
    (0, 1, Verdict::BadKey),
    (1, 0, Verdict::Commit),
    (1, 62, Verdict::Commit),
    (1, 63, Verdict::BadKey),
    (2, 0, Verdict::Commit),
    (2, 63, Verdict::Commit),
    (2, 64, Verdict::BadKey),
    (2, u32::MAX, Verdict::BadKey),
    (3, 0, Verdict::BadKey),
    (255, u32::MAX, Verdict::BadKey),
];

/// The rows at the edges of four tables of 64,512 rows.
const LARGEST: &[Edge] = &[
    (0, 0, Verdict::Commit),
    (0, 64511, Verdict::Commit),
    (0, 64512, Verdict::BadKey),
    (1, 0, Verdict::Commit),
    (1, 64511, Verdict::Commit),
    (1, 64512, Verdict::BadKey),
    (2, 0, Verdict::Commit),
    (2, 64511, Verdict::Commit),
    (2, 64512, Verdict::BadKey),
    (3, 0, Verdict::Commit),
    (3, 64511, Verdict::Commit),
    (3, 64512, Verdict::BadKey),
];

/// The row that is deleted by each item that reads a row at an edge.
const COMMON: Key = Key { table: 1, row: 5 };

/// Whether both judge as is wanted each item that reads such a row, and each that deletes it, and agree.
fn are_judged(alloc: Global, pair: &mut SideBySide, edges: &[Edge]) -> Result<bool, Refusal> {
    pair.keep_window(alloc)?;
    for (table, row, wanted) in edges {
        let key = Key {
            table: *table,
            row: *row,
        };
        let seen = pair.position();
        expect(alloc, pair, (&[key], COMMON), seen, *wanted)?;
        expect(alloc, pair, (&[], key), seen, *wanted)?;
    }
    Ok(pair.agree())
}

/// Compares the verdicts that both give on keys at the edges of tables of so many rows.
fn edges_agree(alloc: Global, window: u32, rows: &[u32], edges: &[Edge]) -> Result<bool, Refusal> {
    are_judged(alloc, &mut pair_with(alloc, window, rows)?, edges)
}

/// The row that an item deletes, what its transaction had seen, and the verdict on it. The window spans 4 seqnos. Nine items come first,
/// each of which had seen all before it.
const SEEN: &[(u32, u64, Verdict)] = &[
    (0, 0, Verdict::Commit),
    (1, 1, Verdict::Commit),
    (2, 2, Verdict::Commit),
    (3, 3, Verdict::Commit),
    (4, 4, Verdict::Commit),
    (5, 5, Verdict::Commit),
    (6, 6, Verdict::Commit),
    (7, 7, Verdict::Commit),
    (8, 8, Verdict::Commit),
    (9, 0, Verdict::Stale),
    (10, 5, Verdict::Stale),
    (11, 7, Verdict::Commit),
    (12, 12, Verdict::Commit),
    (13, 14, Verdict::Future),
    (14, 16, Verdict::Future),
    (15, u64::MAX, Verdict::Future),
];

/// Whether both judge these items as is wanted, and agree.
fn are_all_judged(alloc: Global, pair: &mut SideBySide) -> Result<bool, Refusal> {
    pair.keep_window(alloc)?;
    for (row, seen, wanted) in SEEN {
        let key = Key {
            table: 0,
            row: *row,
        };
        expect(alloc, pair, (&[], key), *seen, *wanted)?;
    }
    Ok(pair.agree())
}

/// Compares the verdicts at the edges of the window.
fn seen_agrees(alloc: Global) -> Result<bool, Refusal> {
    are_all_judged(alloc, &mut pair_with(alloc, 4, &[63])?)
}

/// Whether as many commit as the model in another language says.
fn are_counted(alloc: Global) -> Result<bool, Refusal> {
    let shape = shape_with(256, 5000, 200);
    let plain = plain_commits(alloc, &shape, 1000)?;
    let certified = certifier_commits(alloc, &shape, 1000)?;
    Ok(plain == 958 && certified == 958 && drawn_items(&shape, 1000)? == 1000)
}
