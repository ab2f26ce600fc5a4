//! Where a part of a disk is damaged.

use crate::log::wrong_cell;
use crate::read::{Found, LEAST, found_at, read_body, super_at, superblock_of};
use rep_layout::{Layout, PAGE_BODY, PageState, Place, Side, SuperBody, need};
use rep_pages::{Page, slot_of};
use rep_reasons::{Cause, Damage, NotedFile};
use rep_types::Part;
use std::fs::OpenFile;

/// How many bytes the file has.
fn size_of(file: &NotedFile) -> Option<u64> {
    Some(file.metadata().ok()?.len())
}

/// The damage to this part, which begins at this offset.
fn damaged(part: &'static str, at: u64) -> Cause {
    Cause::Damaged(Damage { part, at })
}

/// What is wrong with the superblock of this side: it is none, or the file is shorter than it says.
fn wrong_superblock(file: &NotedFile, side: Side, size: u64) -> Option<Cause> {
    match found_at(file, side) {
        Found::Closed => None,
        Found::Bad => Some(damaged("superblock", super_at(side))),
        Found::Superblock(body) if need(&body.params) > size => Some(Cause::Short {
            has: size,
            needs: need(&body.params),
        }),
        Found::Superblock(_) => None,
    }
}

/// Whether the page of this number, which the superblock has in a slot, is none.
fn wrong_page(file: &NotedFile, superblock: &SuperBody, number: u32) -> Option<u64> {
    let PageState::In(slot) = slot_of(superblock, number) else {
        return None;
    };
    let layout = Layout::new(&superblock.params);
    let place = Place::Page(number, slot);
    let mut room = [0; PAGE_BODY];
    if !read_body(file, layout, place, &mut room) {
        return None;
    }
    let schema = superblock.params.schema();
    match Page::read_body(schema, number, superblock.position, &room) {
        Ok(_) => None,
        Err(_) => Some(layout.offset(place) as u64),
    }
}

/// Where the first page lies that is none, of those that the superblock has in a slot.
fn first_wrong_page(file: &NotedFile, superblock: &SuperBody) -> Option<u64> {
    for number in 0..Layout::new(&superblock.params).pages {
        let at = wrong_page(file, superblock, number);
        if at.is_some() {
            return at;
        }
    }
    None
}

/// What is wrong with a part behind the superblock that counts.
fn wrong_behind(file: &NotedFile, part: Part) -> Option<Cause> {
    let superblock = superblock_of(file)?;
    let layout = Layout::new(&superblock.params);
    let side = Side::of(superblock.number);
    match part {
        Part::Superblock => None,
        Part::Window => Some(damaged("window", layout.offset(Place::Window(side)) as u64)),
        Part::Log => match wrong_cell(file, &superblock) {
            Some(at) => Some(damaged("log cell", at)),
            None => Some(Cause::Words("the log has an item that is judged otherwise")),
        },
        Part::Pages => Some(damaged("page", first_wrong_page(file, &superblock)?)),
    }
}

/// What is wrong with this part of the disk on this file, which was refused for it; where the file was changed since, there may be nothing.
pub fn damage_in(file: &NotedFile, part: Part) -> Option<Cause> {
    if part != Part::Superblock {
        return wrong_behind(file, part);
    }
    let size = size_of(file)?;
    wrong_superblock(file, Side::A, size).or(wrong_superblock(file, Side::B, size))
}

/// Why there is no disk on this file.
pub fn why_no_disk(file: &NotedFile) -> Cause {
    match size_of(file) {
        Some(size) if size < LEAST => Cause::Short {
            has: size,
            needs: LEAST,
        },
        _ => Cause::Words("no superblock stands open"),
    }
}
