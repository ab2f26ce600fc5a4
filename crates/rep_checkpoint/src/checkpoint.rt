//! Where the checkpoint of a disk stands, and how it goes on.

ghost use Rattle.std.specs.Prelude.{◌≡◌, ◌⊎◌, ◌≤◌, ℕ, List, IsOk, IsTrue, IfErr, OnOk, length};
ghost use Rattle.rep_types.specs.declared.refusal.Refusal.TheVariants.{NotDue, OutOfMemory};
ghost use Rattle.rep_layout.specs.Supers.{IsSuper};
ghost use Rattle.rep_versions.specs.Versions.{ArePages};
ghost use Rattle.rep_image.specs.Bases.{other};
ghost use Rattle.rep_checkpoint.specs.Standing.{spare_side, left_in, due_in, IsCheckpoint};
ghost use Rattle.rep_checkpoint.specs.Moves.{CanBegin, turn, turned, next_super, next_of, begun, found_at};
ghost use Rattle.rep_checkpoint.specs.Calls.{Begins};

use crate::stage::{NextBase, Part, Stage, Step, is_in};
use arrayvec::ArrayVec;
use rep_layout::{Format, PageState, Side, Slot, SuperBody, WindowBody, row_places_are_told};
use rep_types::{MAX_PAGES, MAX_SEQNO, Refusal, Window};
use rep_versions::Versions;
use std::alloc::Global;
use std::marker::Model;

/// The greatest number of pages, as the length of a list.
pub(crate) const PAGES: usize = MAX_PAGES as usize;

/// Where the checkpoint of a disk stands: the base, which a superblock names, and how far the next one is.
///
/// Window and pages of the next base are written where the base has none of its own, then its superblock is,
/// and only when all of that is stable its gate is opened. So a stop at any moment leaves one of them, whole.
#[derive(Drop)]
pub struct Checkpoint {
    pub(crate) base: SuperBody,
    pub(crate) stage: Stage,
}

impl Model for Checkpoint {
    ghost use Rattle.rep_checkpoint.specs.Standing.{Standing, IsCheckpoint};

    ghost Value = { Standing };

    ghost view = { λ c. record { base = c.base; stage = c.stage } };

    ghost invariant = { λ c. IsCheckpoint (record { base = c.base; stage = c.stage }) };
}

/// The other side.
fn other(side: Side) -> Side
    ensures { result ≡ other side }
{
    match side {
        Side::A => Side::B,
        Side::B => Side::A,
    }
}

/// The side on which the superblock behind this one lies, and its window.
pub(crate) fn spare_side(superblock: &SuperBody) -> Side
    ensures { result ≡ spare_side superblock.now }
{
    other(Side::of(superblock.number))
}

/// Where the next superblock has a page that is here: in the other slot where it is to be flushed.
fn turn(state: PageState, left: bool) -> PageState
    ensures { result ≡ turn state left }
{
    match (state, left) {
        (PageState::In(Slot::First), true) => PageState::In(Slot::Second),
        (PageState::In(Slot::Second) | PageState::Nowhere, true) => PageState::In(Slot::First),
        (_, false) => state,
    }
}

/// Where the next superblock has each page, where these are to be flushed.
fn turn_pages(states: &[PageState], left: &[u32]) -> ArrayVec<PageState, PAGES>
    requires { length states.now ≤ 4096 }
    ensures { result ≡ record { items = turned (length states.now) states.now left.now } }
{
    let mut pages = ArrayVec::new();
    for page in 0..states.len() {
        pages.push(turn(states[page], is_in(left, page as u32)));
    }
    pages
}

/// The superblock behind this one, for which these pages are flushed.
fn next_super(base: &SuperBody, position: u64, start: u64, left: &[u32]) -> SuperBody
    requires { IsSuper base.now }
    ensures { result ≡ next_super base.now position start left.now }
{
    SuperBody {
        format: Format::Two,
        number: base.number + 1,
        uuid: base.uuid,
        params: base.params.copied(),
        position,
        start,
        pages: turn_pages(base.pages.as_slice(), left),
    }
}

impl Checkpoint {
    /// The checkpoint that an opening finds: at the base of this superblock, with the other one to be closed
    /// where that stands open too.
    pub fn open(superblock: SuperBody, both: bool) -> Checkpoint
        requires { IsSuper superblock }
        ensures { result ≡ found_at superblock both }
    {
        let stage = if both {
            Stage::Retiring(false)
        } else {
            Stage::Off
        };
        Checkpoint {
            base: superblock,
            stage,
        }
    }

    /// The superblock of the base.
    pub fn base(&self) -> &SuperBody
        ensures base { result.now ≡ self.now.base }
        // What holds of every checkpoint.
        ensures checkpoint { IsCheckpoint self.now }
    {
        &self.base
    }

    /// The pages that are left to be flushed.
    pub fn left(&self) -> &[u32]
        ensures { result.now ≡ left_in self.now.stage }
    {
        match &self.stage {
            Stage::Toward(next, Part::Flushing) => next.left.as_slice(),
            Stage::Toward(_, _) | Stage::Off | Stage::Retiring(_) => &[],
        }
    }

    /// What it needs next.
    pub fn step_due(&self) -> Step
        ensures { result ≡ due_in self.now.stage }
    {
        match &self.stage {
            Stage::Off => Step::Begin,
            Stage::Toward(next, Part::Flushing) => match next.left.first() {
                Some(page) => Step::Flush(*page),
                None => Step::Next,
            },
            Stage::Toward(_, Part::Ready | Part::SuperFilled) | Stage::Retiring(false) =>
                Step::Next,
            Stage::Toward(_, Part::Saving | Part::SuperFilling | Part::SuperOpening)
            | Stage::Retiring(true) => Step::Sync,
        }
    }

    /// Whether a checkpoint to this position can begin, with this window there.
    fn can_begin(&self, position: u64, start: u64, window: &Window) -> bool
        ensures yes { IsTrue result → CanBegin self.now position start window.now }
        ensures no { CanBegin self.now position start window.now → IsTrue result }
    {
        if !matches!(self.stage, Stage::Off) || self.base.uuid.is_nil() {
            return false;
        }
        if position <= self.base.position || position > MAX_SEQNO || start > position {
            return false;
        }
        let body = WindowBody::of(Format::Two, self.base.number + 1, position, window);
        body.fits(&self.base.params)
    }

    /// Begins: the next base is to be at this position, with this window, the log's block behind it in the
    /// cell of the number `start`. The pages that changed above the base and up to the position are left to be
    /// flushed for it.
    ///
    /// Refuses with `NotDue` where one is under way, the position is not above the base's, or no superblock
    /// and window can say this: the node belongs to no cluster, the position is above `MAX_SEQNO`, the start
    /// above the position, or the window not one of the position; and then with `OutOfMemory`.
    pub fn begin(
        &mut self,
        alloc: Global,
        position: u64,
        start: u64,
        window: Window,
        versions: &Versions,
    ) -> Result<(), Refusal>
        ensures due { IsOk result → CanBegin self.old position start window }
        ensures begun { OnOk result ((left : List ℕ) × ArePages versions.now self.old.base.params.rows self.old.base.position position left × (self.new ≡ begun self.old position start window left) × Begins versions.now self.old self.new (next_of self.old.base position start window left)) }
        ensures refused { IfErr result (λ e. (self.new ≡ self.old) × (((e ≡ NotDue) × (CanBegin self.old position start window → ⊥)) ⊎ ((e ≡ OutOfMemory) × CanBegin self.old position start window))) }
    {
        row_places_are_told();
        if !self.can_begin(position, start, &window) {
            return Err(Refusal::NotDue);
        }
        let schema = self.base.params.schema();
        let left = versions.pages(alloc, schema, self.base.position, position)?;
        let superblock = next_super(&self.base, position, start, &left);
        let next = NextBase {
            superblock,
            window,
            left,
        };
        self.stage = Stage::Toward(next, Part::Flushing);
        Ok(())
    }
}
