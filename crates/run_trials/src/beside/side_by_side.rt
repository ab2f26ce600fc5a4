//! The plain node and a certifier side by side.

ghost use Rattle.std.specs.Prelude.{◌≡◌, ◌≤◌, IfOk};

use crate::beside::drawn::{TABLES, delete_of};
use rep_cert::Certifier;
use rep_plain::PlainNode;
use rep_types::{Entry, Key, MAX_AHEAD, Refusal, Verdict, Window, WindowSize, WriteSet};
use std::alloc::Global;

/// A plain node, and a certifier that was made at one of its positions and handed the same items.
#[derive(Drop)]
pub(crate) struct SideBySide {
    plain: PlainNode,
    certifier: Certifier,
    /// The position that the certifier was made at.
    made_at: u64,
    /// Whether it was made with the entries of the window in another order: its windows are not compared then.
    is_mixed: bool,
    /// The plain node's window there and at each later position.
    windows: Vec<Window>,
    /// Whether all that was compared so far was the same.
    agree: bool,
    ghost made: { certifier.current.made ≡ made_at },
}

/// Whether two windows are the same.
fn is_same(held: &Window, expected: &Window) -> bool {
    held.size() == expected.size()
        && held.floor() == expected.floor()
        && held.entries() == expected.entries()
}

/// Adds the entry twice, behind one that wrote no row of the schema.
fn push_mixed(entries: &mut Vec<Entry>, entry: &Entry) -> Result<(), Refusal> {
    let no_row = delete_of(Key {
        table: TABLES,
        row: 0,
    });
    let stray = WriteSet::new(1, 1, 0, &[], &[no_row])?;
    entries.push(Entry::new(entry.seqno(), stray.written()))?;
    entries.push(entry.copied())?;
    entries.push(entry.copied())?;
    Ok(())
}

/// The same window with its entries from the last to the first, each of them mixed.
fn mixed(alloc: Global, window: &Window) -> Result<Window, Refusal> {
    let mut entries = Vec::new(alloc);
    for entry in window.entries().iter().rev() {
        push_mixed(&mut entries, entry)?;
    }
    Ok(Window::new(window.size(), window.floor(), entries))
}

/// A certifier that is made at the plain node's position with its window, or with the entries of that in another order.
fn certifier_at(
    alloc: Global,
    plain: &PlainNode,
    position: u64,
    is_mixed: bool,
) -> Result<Certifier, Refusal>
    ensures { IfOk result (λ certifier. certifier.current.made ≡ position) }
{
    let params = plain.params().copied();
    let window = plain.window(alloc)?;
    if is_mixed {
        return Certifier::new(alloc, params, position, mixed(alloc, &window)?);
    }
    Certifier::new(alloc, params, position, window)
}

impl SideBySide {
    /// The plain node, and a certifier that is made with its window, or with the entries of that in another order. The plain node's window is
    /// kept by `keep_window`, before anything is compared.
    pub(crate) fn new(
        alloc: Global,
        plain: PlainNode,
        is_mixed: bool,
    ) -> Result<SideBySide, Refusal> {
        let made_at = plain.position();
        match certifier_at(alloc, &plain, made_at, is_mixed) {
            Ok(certifier) => Ok(SideBySide {
                plain,
                certifier,
                made_at,
                is_mixed,
                windows: Vec::new(alloc),
                agree: true,
            }),
            Err(refusal) => Err(refusal),
        }
    }

    /// How many items were handed to the plain node.
    pub(crate) fn position(&self) -> u64 {
        self.plain.position()
    }

    /// Whether both agreed on all that was compared so far.
    pub(crate) fn agree(&self) -> bool {
        self.agree
    }

    /// How many entries the window has that the certifier was made with.
    pub(crate) fn entries_at_first(&self) -> usize {
        match self.windows.first() {
            Some(window) => window.entries().len(),
            None => 0,
        }
    }

    /// Keeps the plain node's window.
    pub(crate) fn keep_window(&mut self, alloc: Global) -> Result<(), Refusal> {
        let window = self.plain.window(alloc)?;
        self.windows.push(window)?;
        Ok(())
    }

    /// Notes whether something was the same.
    pub(crate) fn note(&mut self, is_same: bool) {
        self.agree = self.agree && is_same;
    }

    /// Hands the item to both, which are to agree on it and on the window behind it, and says its verdict.
    pub(crate) fn take(&mut self, alloc: Global, item: &WriteSet) -> Result<Verdict, Refusal> {
        let judged = self.certifier.judge(item);
        let admitted = self.certifier.admit(item)?;
        let verdict = self.plain.deliver(item.clone()?)?;
        let position = self.position();
        self.note(judged == verdict && admitted == (position, verdict));
        self.keep_window(alloc)?;
        self.compare_window(alloc, 0)?;
        Ok(verdict)
    }

    /// Hands the item to the certifier alone, and takes it back: the windows are then to be as before, and
    /// so is the verdict on it. Says that verdict.
    pub(crate) fn take_back(&mut self, alloc: Global, item: &WriteSet) -> Result<Verdict, Refusal> {
        let (_, verdict) = self.certifier.admit(item)?;
        self.certifier.undo_last();
        let judged = self.certifier.judge(item);
        self.note(judged == verdict);
        self.compare_behind(alloc)?;
        Ok(verdict)
    }

    /// Hands both a change of the window's size, on which they are to agree.
    pub(crate) fn resize(&mut self, alloc: Global, size: WindowSize) -> Result<(), Refusal> {
        let admitted = self.certifier.set_window(size)?;
        let verdict = self.plain.set_window(size)?;
        let position = self.position();
        self.note(admitted == (position, verdict));
        self.keep_window(alloc)?;
        self.compare_window(alloc, 0)
    }

    /// Hands the change to the certifier alone, and takes it back: the windows are then to be as before.
    pub(crate) fn resize_back(&mut self, alloc: Global, size: WindowSize) -> Result<(), Refusal> {
        self.certifier.set_window(size)?;
        self.certifier.undo_last();
        self.compare_behind(alloc)
    }

    /// Whether the windows of so many positions back are the same, or those where the certifier was made; or are not compared.
    fn has_same_window(&self, alloc: Global, back: u64) -> Result<bool, Refusal>
        requires { back ≤ MAX_AHEAD }
    {
        if self.is_mixed {
            return Ok(true);
        }
        let delivered = self.certifier.delivered();
        let position = delivered.saturating_sub(back).max(self.made_at);
        let held = self.certifier.window_at(alloc, position)?;
        match self.windows.get((position - self.made_at) as usize) {
            Some(expected) => Ok(is_same(&held, expected)),
            None => Ok(false),
        }
    }

    /// Compares the windows of so many positions back.
    fn compare_window(&mut self, alloc: Global, back: u64) -> Result<(), Refusal>
        requires { back ≤ MAX_AHEAD }
    {
        let is_same = self.has_same_window(alloc, back)?;
        self.note(is_same);
        Ok(())
    }

    /// Compares the positions, and the windows there and as far back as can be asked for.
    fn compare_behind(&mut self, alloc: Global) -> Result<(), Refusal> {
        let is_behind = self.certifier.delivered() == self.plain.position();
        self.note(is_behind);
        self.compare_window(alloc, 0)?;
        self.compare_window(alloc, MAX_AHEAD)
    }

    /// Compares the windows of all positions that can be asked for.
    pub(crate) fn compare_windows(&mut self, alloc: Global) -> Result<(), Refusal> {
        for back in 0..MAX_AHEAD + 1 {
            self.compare_window(alloc, back)?;
        }
        Ok(())
    }
}
