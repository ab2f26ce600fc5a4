//! The places of a device.

ghost use Rattle.std.specs.Prelude.{◌≡◌, ◌+◌, ◌*◌};
ghost use Rattle.rep_layout.specs.Places.{side_of, number_of_side, number_of_slot, body_len, gate_len, need_of, layout_of, PlacesFillTheDevice, NeedIsThis, TurnsAreTaken};

use rep_types::Params;

/// The number of bytes of a superblock's body.
pub const SUPER_BODY: usize = 3_584;

/// The number of bytes of a window.
pub const WINDOW_BODY: usize = 23_040;

/// The number of bytes of a log cell's body.
pub const LOG_BODY: usize = 7_680;

/// The number of bytes of a page.
pub const PAGE_BODY: usize = 4_096;

/// The number of bytes of a gate: one sector.
pub const GATE: usize = 512;

/// The first byte of the windows, behind both superblocks.
pub const WINDOWS: usize = 2 * (SUPER_BODY + GATE);

/// The first byte of the log, behind both windows.
pub const LOG: usize = WINDOWS + 2 * WINDOW_BODY;

/// A superblock and its window stand twice, so that the old ones stay while the new are written.
#[derive(Clone, Copy, Debug, PartialEq, Eq)]
pub enum Side {
    /// The first of both, for even numbers of superblocks.
    A,
    /// The second, for odd ones.
    B,
}

impl Side {
    /// The side of the superblock of this number, and of its window: A where it is even, B where it is
    /// odd. So a superblock never lies where the one before it does.
    pub fn of(number: u64) -> Side
        ensures { result ≡ side_of number }
    {
        if number % 2 == 0 { Side::A } else { Side::B }
    }

    /// 0 for A, 1 for B.
    fn number(self) -> usize
        ensures { result ≡ number_of_side self }
    {
        match self {
            Side::A => 0,
            Side::B => 1,
        }
    }
}

/// A page has two slots, so that it is never written where it is read.
#[derive(Clone, Copy, Debug, Default, PartialEq, Eq)]
pub enum Slot {
    /// Slot 0.
    #[default]
    First,
    /// Slot 1, which stands behind it.
    Second,
}

impl Slot {
    /// 0 for the first, 1 for the second.
    fn number(self) -> usize
        ensures { result ≡ number_of_slot self }
    {
        match self {
            Slot::First => 0,
            Slot::Second => 1,
        }
    }
}

/// A place on the device: a body, and behind it a gate where it is a superblock or a cell of the
/// log.
#[derive(Clone, Copy, Debug, PartialEq, Eq)]
pub enum Place {
    Super(Side),
    Window(Side),
    /// The log's cell of this number.
    Log(u32),
    /// The slot of the page of this number.
    Page(u32, Slot),
}

impl Place {
    /// How many bytes its body has.
    pub fn body_len(self) -> usize
        ensures { result ≡ body_len self }
    {
        match self {
            Place::Super(_) => SUPER_BODY,
            Place::Window(_) => WINDOW_BODY,
            Place::Log(_) => LOG_BODY,
            Place::Page(_, _) => PAGE_BODY,
        }
    }

    /// How many bytes its gate has, which stands behind the body: 512, or 0 where it has none.
    pub fn gate_len(self) -> usize
        ensures { result ≡ gate_len self }
    {
        match self {
            Place::Super(_) | Place::Log(_) => GATE,
            Place::Window(_) | Place::Page(_, _) => 0,
        }
    }
}

/// How many cells the log has, and how many pages there are.
#[derive(Clone, Copy, Debug, PartialEq, Eq)]
pub struct Layout {
    pub cells: u32,
    pub pages: u32,
}

impl Layout {
    ghost use Rattle.rep_layout.specs.Places.{layout_of, offset_of, gate_of, is_place, log_of};

    /// The layout of a device with these parameters.
    pub fn new(params: &Params) -> Layout
        ensures { result ≡ layout_of params.now }
    {
        Layout {
            cells: params.cells(),
            pages: params.schema().pages() as u32,
        }
    }

    /// Whether there is such a place: the log's cells and the pages are counted from 0.
    pub fn has(self, place: Place) -> bool
        ensures { result ≡ is_place self place }
    {
        match place {
            Place::Super(_) | Place::Window(_) => true,
            Place::Log(cell) => cell < self.cells,
            Place::Page(page, _) => page < self.pages,
        }
    }

    /// The log's cell of the block of this number, which is the number modulo the number of cells. In a
    /// layout without cells it is cell 0, which there is not.
    pub fn log_of(self, number: u64) -> Place
        ensures { result ≡ log_of self number }
    {
        match number.checked_rem(u64::from(self.cells)) {
            Some(cell) => Place::Log(cell as u32),
            None => Place::Log(0),
        }
    }

    /// The place's first byte, where its body begins.
    pub fn offset(self, place: Place) -> usize
        ensures { result ≡ offset_of self place }
    {
        match place {
            Place::Super(side) => (SUPER_BODY + GATE) * side.number(),
            Place::Window(side) => WINDOWS + WINDOW_BODY * side.number(),
            Place::Log(cell) => LOG + (LOG_BODY + GATE) * cell as usize,
            Place::Page(page, slot) => {
                self.pages_at() + PAGE_BODY * (2 * page as usize + slot.number())
            }
        }
    }

    /// The first byte behind the place's body, where its gate begins if it has one.
    pub fn gate(self, place: Place) -> usize
        ensures { result ≡ gate_of self place }
    {
        self.offset(place) + place.body_len()
    }

    /// How many bytes the places take together.
    pub fn need(self) -> u64
        ensures { result ≡ need_of self }
    {
        (self.pages_at() + 2 * PAGE_BODY * self.pages as usize) as u64
    }

    /// The first byte of the pages, behind the log.
    fn pages_at(self) -> usize
        ensures { result ≡ LOG + (LOG_BODY + GATE) * self.cells }
    {
        LOG + (LOG_BODY + GATE) * self.cells as usize
    }
}

/// How many bytes a device with these parameters has to have: 54,272, and 8,192 for each of the
/// log's cells and for each page. Bytes past them are never touched.
pub fn need(params: &Params) -> u64
    ensures { result ≡ need_of (layout_of params.now) }
{
    Layout::new(params).need()
}

/// The places lie inside the bytes that are needed, no two of them overlap, and together they fill
/// them.
#[tactic(auto, using(crate::proofs::PlacesApart::lies_inside, crate::proofs::PlacesApart::lie_apart, crate::proofs::PlacesApart::lies_somewhere))]
pub fn places_fill_the_device()
    ensures { PlacesFillTheDevice }
{}

/// The number that each size is, in bytes, and how many bytes the places take together.
pub fn sizes_are_these()
    ensures super_body { SUPER_BODY ≡ 3584 }
    ensures window_body { WINDOW_BODY ≡ 23040 }
    ensures log_body { LOG_BODY ≡ 7680 }
    ensures page_body { PAGE_BODY ≡ 4096 }
    ensures gate { GATE ≡ 512 }
    ensures windows { WINDOWS ≡ 8192 }
    ensures log { LOG ≡ 54272 }
    ensures need { NeedIsThis }
{}

/// A superblock lies on the other side than the one before it; each block of the log has a cell, and
/// blocks whose numbers are less than a lap apart have different ones.
#[tactic(auto, using(crate::proofs::Turns::turns))]
pub fn turns_are_taken()
    ensures { TurnsAreTaken }
{}
