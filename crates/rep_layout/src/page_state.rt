//! In which slots the pages stand.

ghost use Rattle.std.specs.Prelude.{◌≡◌, ◌+◌, ◌≤◌, ◌++◌, length, drop, slice_index_or, option_map};
ghost use Rattle.std.specs.List.{flat_map};
ghost use Rattle.rep_layout.specs.PageStates.{state_code, state_of, four_of, four_at, four_form, list_of, state_bytes, states_form};

use crate::place::Slot;
use arrayvec::ArrayVec;
use rep_forms::{Form, Put, put_u8, read_run, read_u8};
use rep_types::MAX_PAGES;

/// The greatest number of pages, as the length of a list.
const PAGES: usize = MAX_PAGES as usize;

/// The number of bytes of the states of so many pages: two bits each.
pub const STATES: usize = PAGES / 4;

/// In which slot a page stands.
#[derive(Clone, Copy, Debug, Default, PartialEq, Eq)]
pub enum PageState {
    /// In none: no row of the page was ever written.
    #[default]
    Nowhere,
    In(Slot),
}

impl PageState {
    /// The two bits of the state.
    fn code(self) -> u8
        ensures code { result ≡ state_code self }
        ensures small { result ≤ 2 }
    {
        match self {
            PageState::Nowhere => 0,
            PageState::In(Slot::First) => 1,
            PageState::In(Slot::Second) => 2,
        }
    }

    /// The state of these bits; 3 is none.
    fn of(code: u8) -> Option<PageState>
        ensures { result ≡ state_of code }
    {
        match code {
            0 => Some(PageState::Nowhere),
            1 => Some(PageState::In(Slot::First)),
            2 => Some(PageState::In(Slot::Second)),
            _ => None,
        }
    }
}

/// The states of four pages, which share a byte.
#[derive(Clone, Copy, Default)]
struct Four {
    first: PageState,
    second: PageState,
    third: PageState,
    fourth: PageState,
}

/// The states that this byte says, the first in its lowest bits.
fn four_of(byte: u8) -> Option<Four>
    ensures { result ≡ four_of byte }
{
    Some(Four {
        first: PageState::of(byte % 4)?,
        second: PageState::of(byte / 4 % 4)?,
        third: PageState::of(byte / 16 % 4)?,
        fourth: PageState::of(byte / 64)?,
    })
}

impl Form for Four {
    ghost use Rattle.rep_layout.specs.PageStateLaws.{four_is_form};

    ghost form = { four_form };

    ghost most = { 1 };

    fn read(bytes: &[u8]) -> Option<(Four, &[u8])> {
        let (byte, rest) = read_u8(bytes)?;
        Some((four_of(byte)?, rest))
    }

    ghost is_form = { four_is_form };
}

impl<const N: usize> Put<N> for Four {
    fn put(&self, out: &mut ArrayVec<u8, N>) {
        let low = self.first.code() + 4 * self.second.code();
        let high = self.third.code() + 4 * self.fourth.code();
        put_u8(out, low + 16 * high);
    }
}

/// The state of a page; past the last page in no slot.
fn state_at(states: &[PageState], page: usize) -> PageState
    ensures { result ≡ slice_index_or states.now page PageState.Nowhere }
{
    match states.get(page) {
        Some(state) => *state,
        None => PageState::Nowhere,
    }
}

/// The states of the four pages from `page` on.
fn four_at(states: &[PageState], page: usize) -> Four
    requires { page + 4 ≤ 4096 }
    ensures { result ≡ four_at (drop page states.now) }
{
    Four {
        first: state_at(states, page),
        second: state_at(states, page + 1),
        third: state_at(states, page + 2),
        fourth: state_at(states, page + 3),
    }
}

/// Puts the states of the pages, 1,024 bytes.
pub(crate) fn put_states<const N: usize>(out: &mut ArrayVec<u8, N>, states: &[PageState])
    requires { length out.old.items + 1024 ≤ N }
    ensures bytes { out.new.items ≡ out.old.items ++ state_bytes states.now }
    ensures size { length (state_bytes states.now) ≡ 1024 }
{
    for i in 0..STATES {
        four_at(states, 4 * i).put(out);
    }
}

/// The states of the pages, one after another.
fn list_of(fours: &[Four]) -> ArrayVec<PageState, PAGES>
    requires { length fours.now ≤ 1024 }
    ensures { result.items ≡ flat_map list_of fours.now }
{
    let mut states = ArrayVec::new();
    for four in fours {
        states.push(four.first);
        states.push(four.second);
        states.push(four.third);
        states.push(four.fourth);
    }
    states
}

/// The states of so many pages, where the bits of each are of one, and the bytes behind them.
pub(crate) fn read_states(bytes: &[u8], count: usize) -> Option<(ArrayVec<PageState, PAGES>, &[u8])>
    ensures { option_map (λ x. (x.0.items, x.1.now)) result ≡ (states_form count).read bytes.now }
{
    let (fours, rest) = read_run::<Four, STATES>(bytes, STATES)?;
    let mut states = list_of(fours.as_slice());
    states.truncate(count);
    Some((states, rest))
}
