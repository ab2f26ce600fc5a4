//! The layout of the device: the sizes, where places lie, and superblocks of no cluster.

use arrayvec::ArrayVec;
use rep_layout::{Format, Layout, PageState, Place, Side, Slot, SuperBody, need};
use rep_pages::{slot_of, spare_of};
use rep_types::{Params, Part, Refusal};
use std::test::Fail;
use uuid::Uuid;

const SUPERBLOCK: Refusal = Refusal::Corrupt {
    part: Part::Superblock,
};

/// A window of 4, 4 cells, and one table of 126 rows: two pages.
pub(crate) fn small() -> Result<Params, Refusal> {
    Params::new(4, 4, &[126])
}

/// The largest parameters: 1,024 cells and 4,096 pages.
pub(crate) fn largest() -> Result<Params, Refusal> {
    Params::new(256, 1024, &[63 * 4096])
}

/// Where a place and its gate begin, if the layout has it.
fn lie_of(layout: Layout, place: Place) -> Option<(usize, usize)> {
    if layout.has(place) {
        Some((layout.offset(place), layout.gate(place)))
    } else {
        None
    }
}

/// Places, and where they and their gates begin.
const PLACES: &[(Place, Option<(usize, usize)>)] = &[
    (Place::Super(Side::A), Some((0, 3_584))),
    (Place::Super(Side::B), Some((4_096, 7_680))),
    (Place::Window(Side::A), Some((8_192, 31_232))),
    (Place::Window(Side::B), Some((31_232, 54_272))),
    (Place::Log(0), Some((54_272, 61_952))),
    (Place::Log(3), Some((78_848, 86_528))),
    (Place::Log(4), None),
    (Place::Page(0, Slot::First), Some((87_040, 91_136))),
    (Place::Page(1, Slot::Second), Some((99_328, 103_424))),
    (Place::Page(2, Slot::First), None),
];

/// The first place that lies elsewhere, if there is one.
fn misplaced(layout: Layout) -> Option<Place> {
    for (place, lie) in PLACES {
        if lie_of(layout, *place) != *lie {
            return Some(*place);
        }
    }
    None
}

/// How many bytes a device needs, the first place that lies elsewhere, and the cell of the tenth block.
fn laid_out(params: &Params) -> (u64, Option<Place>, Place) {
    let layout = Layout::new(params);
    (need(params), misplaced(layout), layout.log_of(10))
}

#[test]
fn places_lie_where_the_format_says(rt: HostRuntime) -> Result<(), Fail> {
    let found = laid_out(&small()?);
    assert_eq!(rt; found, (103_424, None, Place::Log(2)));
    let found = (need(&largest()?), Side::of(4), Side::of(7));
    assert_eq!(rt; found, (41_997_312, Side::A, Side::B));
    Ok(())
}

/// A superblock of the small parameters that names no cluster, of pages that are in no slot.
fn undefined(number: u64, position: u64, start: u64) -> Result<SuperBody, Refusal> {
    let mut pages = ArrayVec::from([PageState::Nowhere; 4096]);
    pages.truncate(2);
    Ok(SuperBody {
        format: Format::Two,
        number,
        uuid: Uuid::nil(),
        params: small()?,
        position,
        start,
        pages,
    })
}

/// Whether it is written, and the slots of a page that there is not.
fn is_written(superblock: &SuperBody) -> (bool, PageState, Slot) {
    let is_written = superblock.write_body().is_some();
    (is_written, slot_of(superblock, 2), spare_of(superblock, 2))
}

/// The same of a superblock of this number, position and start.
fn written_of(
    (number, position, start): (u64, u64, u64),
) -> Result<(bool, PageState, Slot), Refusal> {
    Ok(is_written(&undefined(number, position, start)?))
}

/// What the empty bytes are refused by.
fn refusal_of_nothing() -> Option<Refusal> {
    SuperBody::read_body(&[]).err()
}

// A node without a cluster has nothing.
#[test]
fn superblocks_without_a_cluster_have_no_position(rt: HostRuntime) {
    for (head, wanted) in [((3, 9, 2), false), ((0, 0, 0), true)] {
        let wanted = Ok((wanted, PageState::Nowhere, Slot::First));
        assert_eq!(rt; (head, written_of(head)), (head, wanted));
    }
    assert_eq!(rt; refusal_of_nothing(), Some(SUPERBLOCK));
}
