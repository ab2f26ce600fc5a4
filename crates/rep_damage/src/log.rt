//! Which cell of a log is none of it.

use crate::read::{is_open, read_body};
use rep_forms::read_u64;
use rep_layout::{LOG_BODY, Layout, SuperBody};
use rep_reasons::NotedFile;
use rep_record::read_block;

/// How far a log was read again.
#[derive(Drop)]
struct Scan {
    /// The number of the block that it begins with, and of the one behind those that were read.
    from: u64,
    next: u64,
    /// The seqno that comes next.
    seqno: u64,
    cells: u64,
    /// Whether the node belongs to a cluster: else no block stands there.
    is_defined: bool,
}

impl Scan {
    /// That of the log behind this superblock, of which nothing was read.
    fn behind(superblock: &SuperBody, layout: Layout) -> Scan {
        Scan {
            from: superblock.start,
            next: superblock.start,
            seqno: superblock.position.saturating_add(1),
            cells: u64::from(layout.cells),
            is_defined: !superblock.uuid.is_nil(),
        }
    }

    /// Takes the block that comes next, and says whether it does.
    fn takes(&mut self, body: &[u8]) -> bool {
        let Ok(mut block) = read_block(body) else {
            return false;
        };
        let count = u64::from(block.len());
        let Some(first) = block.next_record() else {
            return false;
        };
        let is_next = self.is_defined && first.seqno == self.seqno;
        self.next = self.next.saturating_add(1);
        self.seqno = self.seqno.saturating_add(count);
        is_next
    }

    /// Whether the open cell of the block of this number, with this body, may stand there: it is the block that comes next, or one of an earlier lap.
    fn may_stand(&mut self, body: &[u8], number: u64) -> bool {
        let Some((held, _)) = read_u64(body) else {
            return false;
        };
        if held == number && number == self.next {
            return self.takes(body);
        }
        held.checked_rem(self.cells) == number.checked_rem(self.cells) && held < self.from
    }
}

/// Where the first cell lies that is none of the log behind this superblock.
pub(crate) fn wrong_cell(file: &NotedFile, superblock: &SuperBody) -> Option<u64> {
    let layout = Layout::new(&superblock.params);
    let mut scan = Scan::behind(superblock, layout);
    let mut room = [0; LOG_BODY];
    for cell in 0..u64::from(layout.cells) {
        let number = superblock.start.saturating_add(cell);
        let place = layout.log_of(number);
        if !is_open(file, layout, place) || !read_body(file, layout, place, &mut room) {
            continue;
        }
        if !scan.may_stand(&room, number) {
            return Some(layout.offset(place) as u64);
        }
    }
    None
}
