//! Places of a disk, read from its file.

use rep_layout::{LOG, Layout, Place, SUPER_BODY, Side, SuperBody};
use rep_reasons::NotedFile;
use std::os::unix::fs::FileExt;

/// The first byte of an open gate.
const OPEN: u8 = 0xa5;

/// The places before those that a disk's parameters say: both superblocks and both windows.
const FIRST: Layout = Layout { cells: 0, pages: 0 };

/// Fills the room with the body of this place, and says whether that could be read.
pub(crate) fn read_body(file: &NotedFile, layout: Layout, place: Place, room: &mut [u8]) -> bool {
    file.read_exact_at(room, layout.offset(place) as u64)
        .is_ok()
}

/// Whether the gate behind the place stands open.
pub(crate) fn is_open(file: &NotedFile, layout: Layout, place: Place) -> bool {
    let mut gate = [0; 1];
    file.read_exact_at(&mut gate, layout.gate(place) as u64)
        .is_ok()
        && gate[0] == OPEN
}

/// Where the superblock of this side begins.
pub(crate) fn super_at(side: Side) -> u64 {
    FIRST.offset(Place::Super(side)) as u64
}

/// What stands in the place of a superblock.
#[derive(Drop)]
pub(crate) enum Found {
    /// Nothing that counts: its gate is closed.
    Closed,
    /// What is no superblock of this side.
    Bad,
    /// This one.
    Superblock(SuperBody),
}

/// What stands in the place of the superblock of this side.
pub(crate) fn found_at(file: &NotedFile, side: Side) -> Found {
    let place = Place::Super(side);
    let mut room = [0; SUPER_BODY];
    if !is_open(file, FIRST, place) || !read_body(file, FIRST, place, &mut room) {
        return Found::Closed;
    }
    match SuperBody::read_body(&room) {
        Ok(body) if Side::of(body.number) == side => Found::Superblock(body),
        _ => Found::Bad,
    }
}

/// The superblock that counts: of those that stand open the one of the greater number.
pub(crate) fn superblock_of(file: &NotedFile) -> Option<SuperBody> {
    match (found_at(file, Side::A), found_at(file, Side::B)) {
        (Found::Superblock(a), Found::Superblock(b)) => {
            Some(if a.number < b.number { b } else { a })
        }
        (Found::Superblock(body), _) | (_, Found::Superblock(body)) => Some(body),
        _ => None,
    }
}

/// So many bytes has a disk at least, without any of its log and its pages.
pub(crate) const LEAST: u64 = LOG as u64;
