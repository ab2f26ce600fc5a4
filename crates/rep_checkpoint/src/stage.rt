//! How far a checkpoint is, and what is due for it.

ghost use Rattle.std.specs.Prelude.{◌≡◌, ℕ, ◌==◌, not, filter};
ghost use Rattle.rep_checkpoint.specs.Next.{is_in};
ghost use Rattle.rep_checkpoint.specs.Moves.{without};

use rep_layout::SuperBody;
use rep_types::Window;
use std::marker::Model;

/// The next base, on its way.
#[derive(Drop)]
pub struct NextBase {
    /// The superblock that will name it.
    pub superblock: SuperBody,
    /// The window at its position.
    pub window: Window,
    /// The pages that are left to be flushed for it.
    pub left: Vec<u32>,
}

impl Model for NextBase {
    ghost use Rattle.rep_checkpoint.specs.Next.{Next};

    ghost Value = { Next };

    ghost view = { λ next. record { super = next.superblock; window = next.window; left = next.left.items } };
}

/// How far the next base is.
#[derive(Clone, Copy, Debug, PartialEq, Eq)]
pub enum Part {
    /// Pages are being flushed into the slots that the base does not use.
    Flushing,
    /// The window was written.
    Saving,
    /// Window and pages are stable.
    Ready,
    /// The superblock's body was written.
    SuperFilling,
    /// It is stable.
    SuperFilled,
    /// The superblock's open gate was written.
    SuperOpening,
}

/// Where a checkpoint is.
#[derive(Drop)]
pub enum Stage {
    /// None is under way.
    Off,
    /// The next base is on its way.
    Toward(NextBase, Part),
    /// The superblock before the base's still stands open; whether its closed gate was written.
    Retiring(bool),
}

/// What a checkpoint needs next.
#[derive(Clone, Copy, Debug, PartialEq, Eq)]
pub enum Step {
    /// None is under way: one may begin.
    Begin,
    /// This page has to be flushed.
    Flush(u32),
    /// The next write behind the pages.
    Next,
    /// A write awaits a sync.
    Sync,
}

/// Whether a page is one of these.
pub(crate) fn is_in(pages: &[u32], page: u32) -> bool
    ensures { result ≡ is_in pages.now page }
{
    pages.contains(&page)
}

/// Lets a page go.
fn let_go(pages: &mut Vec<u32>, page: u32)
    ensures { pages.new.items ≡ filter (λ (p : ℕ). not (p == page)) pages.old.items }
{
    pages.retain(|other| *other != page);
}

impl NextBase {
    /// Takes note of a page that was flushed.
    pub(crate) fn flushed(&mut self, page: u32)
        ensures { self.new ≡ without page self.old }
    {
        let_go(&mut self.left, page);
    }
}
